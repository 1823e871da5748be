//! The output chains of the elements that have ranks, and the sizes of their texts.

ghost use Rattle.std.specs.Prelude.{◌≡◌, ◌<◌, ◌≤◌, ◌^◌, ◌↔◌, ℕ, IsTrue, Some, length, slice_index, IfOk, IfErr};
ghost use Rattle.daachorse_core.specs.Refusals.{IsOutOfMemory};
ghost use Rattle.daachorse_checker.specs.Chains.{AreLeavesOf, IsChained, machine_of};
ghost use Rattle.daachorse_checker.specs.Ranks.{HasOnePath, AreRanksOf};
ghost use Rattle.daachorse_checker.specs.Runs.{AreRuns};
ghost use Rattle.daachorse_checker.specs.Sizes.{AreSizes};

use crate::ranks::Ranks;
use crate::runs::{has_own, rest_at};
use daachorse_array::array::Array;
use daachorse_core::errors::Result;
use daachorse_core::{DEAD_STATE_IDX, Output};
use std::alloc::Allocator;

/// Whether each rank has no child.
///
/// # Errors
/// Out of memory.
pub fn leaves<A: Allocator>(alloc: A, parents: &[u32]) -> Result<Vec<bool, A>>
    requires some { 0 < length parents.now }
    requires earlier { (m : ℕ) → 0 < m → m < length parents.now → slice_index parents.now m < m }
    ensures ok { IfOk result (λ leaves. AreLeavesOf parents.now leaves.items (length parents.now)) }
    ensures err { IfErr result IsOutOfMemory }
{
    let mut leaves = vec![in alloc; true; parents.len()]?;
    for rank in 1..parents.len() {
        leaves[parents[rank] as usize] = false;
    }
    Ok(leaves)
}

/// The size of each rank's text, in bytes.
///
/// # Errors
/// Out of memory.
pub fn sizes<E: Array, A: Allocator + Copy>(
    alloc: A,
    array: &E,
    ranks: &Ranks<A>,
) -> Result<Vec<usize, A>>
    requires inside { let view = E.sees array.now in (i c j : ℕ) → view.child i c ≡ Some j → (j < view.count) × (c < view.units) }
    requires tree { HasOnePath (E.sees array.now).child }
    requires ranks { AreRanksOf (E.sees array.now) ranks.now }
    requires few { (E.sees array.now).count < 2 ^ 32 }
    ensures ok { let view = E.sees array.now in IfOk result (λ sizes. AreSizes view.child view.width ranks.now.order.items sizes.items) }
    ensures each { IfOk result (λ sizes. length sizes.items ≡ length ranks.now.order.items) }
    ensures err { IfErr result IsOutOfMemory }
{
    let mut sizes = Vec::with_capacity(alloc, ranks.order.len())?;
    sizes.push(0)?;
    for rank in 1..ranks.order.len() {
        let parent = ranks.parents[rank] as usize;
        let size = sizes[parent] + array.width(ranks.labels[rank]);
        sizes.push(size)?;
    }
    Ok(sizes)
}

/// Whether the chain of an element whose text has `size` bytes is right. A leaf needs an output of
/// its own.
pub fn chain_holds<V: Copy, E: Array>(
    array: &E,
    outputs: &[Output<V>],
    runs: &[u32],
    element: u32,
    size: usize,
    leaf: bool,
) -> bool
    requires element { element < (E.sees array.now).count }
    requires links { let view = E.sees array.now in (i : ℕ) → i < view.count → view.fail i < view.count }
    requires positions { let view = E.sees array.now in (i : ℕ) → i < view.count → view.first i ≤ length outputs.now }
    requires runs { AreRuns outputs.now runs.now }
    requires each { length runs.now ≡ length outputs.now }
    ensures { IsTrue result ↔ IsChained (machine_of (E.sees array.now) outputs.now) leaf size element }
{
    let first = array.first(element as usize);
    let link = array.fail(element as usize);
    let mut next = 0;
    if link != DEAD_STATE_IDX {
        next = array.first(link as usize);
    }
    if rest_at(outputs, runs, size, first) != next {
        return false;
    }
    if leaf {
        return has_own(outputs, size, first);
    }
    true
}
