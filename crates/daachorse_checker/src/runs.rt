//! Runs: where a chain of outputs goes on after those of one length.
//!
//! One pass over the outputs finds all runs. An element's own outputs are then skipped in one step,
//! however many elements share them.

ghost use Rattle.std.specs.Prelude.{◌≡◌, ◌<◌, ◌≤◌, ◌^◌, ◌↔◌, IsTrue, Some, length, slice_get, IfOk, IfErr};
ghost use Rattle.daachorse_core.specs.Outputs.{ParentsFall, parent_of};
ghost use Rattle.daachorse_core.specs.Refusals.{IsOutOfMemory};
ghost use Rattle.daachorse_array.specs.Machines.{own_from};
ghost use Rattle.daachorse_checker.specs.Runs.{AreRuns, has_values};

use daachorse_core::Output;
use daachorse_core::errors::Result;
use std::alloc::Allocator;
use std::num::NonZeroU32;

/// The output at an index.
fn output_at<V: Copy>(outputs: &[Output<V>], number: usize) -> Output<V>
    requires { number < length outputs.now }
    ensures { slice_get outputs.now number ≡ Some result }
{
    outputs[number]
}

/// The position of the next output of a chain; 0 at its end.
fn parent<V: Copy>(output: Output<V>) -> u32
    ensures { result ≡ parent_of output }
{
    output.parent().map_or(0, NonZeroU32::get)
}

/// Whether each output's parent comes before it.
pub fn parents_fall<V: Copy>(outputs: &[Output<V>]) -> bool
    requires few { length outputs.now < 2 ^ 32 }
    ensures { IsTrue result ↔ ParentsFall outputs.now }
{
    for number in 0..outputs.len() {
        if parent(output_at(outputs, number)) as usize > number {
            return false;
        }
    }
    true
}

/// The position where the chain from `position` goes on after its outputs of length `size`.
pub fn rest_at<V: Copy>(outputs: &[Output<V>], runs: &[u32], size: usize, position: u32) -> u32
    requires runs { AreRuns outputs.now runs.now }
    requires inside { position ≤ length runs.now }
    requires each { length runs.now ≤ length outputs.now }
    ensures { result ≡ (own_from outputs.now position size position).1 }
{
    if position == 0 {
        return 0;
    }
    let number = (position - 1) as usize;
    let output = output_at(outputs, number);
    if output.length() as usize == size {
        return runs[number];
    }
    position
}

/// Whether the chain from `position` begins with an output of length `size`.
pub fn has_own<V: Copy>(outputs: &[Output<V>], size: usize, position: u32) -> bool
    requires { position ≤ length outputs.now }
    ensures { result ≡ has_values (own_from outputs.now position size position).0 }
{
    if position == 0 {
        return false;
    }
    let output = output_at(outputs, (position - 1) as usize);
    output.length() as usize == size
}

/// For each output the position where its chain goes on after the outputs of its length.
///
/// # Errors
/// Out of memory.
pub fn runs<V: Copy, A: Allocator>(alloc: A, outputs: &[Output<V>]) -> Result<Vec<u32, A>>
    requires few { length outputs.now < 2 ^ 32 }
    requires fall { ParentsFall outputs.now }
    ensures ok { IfOk result (λ runs. AreRuns outputs.now runs.items) }
    ensures each { IfOk result (λ runs. length runs.items ≡ length outputs.now) }
    ensures err { IfErr result IsOutOfMemory }
{
    let mut runs = Vec::with_capacity(alloc, outputs.len())?;
    for number in 0..outputs.len() {
        let output = output_at(outputs, number);
        let run = rest_at(outputs, &runs, output.length() as usize, parent(output));
        runs.push(run)?;
    }
    Ok(runs)
}
