//! The check of an array: its ranks, then its output chains, then its links.

ghost use Rattle.std.specs.Prelude.{◌≡◌, ◌<◌, ◌≤◌, ◌^◌, ◌↔◌, ℕ, IsTrue, true, false, length, IfOk, IfErr};
ghost use Rattle.daachorse_core.specs.Outputs.{ParentsFall};
ghost use Rattle.daachorse_core.specs.Refusals.{IsOutOfMemory};
ghost use Rattle.daachorse_array.specs.Arrays.{HasEdges};
ghost use Rattle.daachorse_array.specs.Machines.{IsCounted, IsRight, own_from};
ghost use Rattle.daachorse_checker.specs.Chains.{HaveRightChains, AreLeavesOf, AreStopsAt, machine_of};
ghost use Rattle.daachorse_checker.specs.Links.{HasRightLinks};
ghost use Rattle.daachorse_checker.specs.Ranks.{HasOnePath, AreRanksOf};
ghost use Rattle.daachorse_checker.specs.Runs.{AreRuns};
ghost use Rattle.daachorse_checker.specs.Sizes.{AreSizes};
ghost use Rattle.daachorse_checker.specs.Sound.{IsSoundArray};

use crate::chains::{chain_holds, leaves, sizes};
use crate::links::link_ranks;
use crate::ranges::ranges_hold;
use crate::ranks::Ranks;
use crate::runs::{has_own, parents_fall, rest_at, runs};
use daachorse_array::array::Array;
use daachorse_array::trie::Trie;
use daachorse_core::Output;
use daachorse_core::errors::Result;
use std::alloc::Allocator;

/// Whether the chain of each element with a rank is right.
fn chains_hold<V: Copy, E: Array, A: Allocator>(
    array: &E,
    outputs: &[Output<V>],
    runs: &[u32],
    ranks: &Ranks<A>,
    sizes: &[usize],
    leaves: &[bool],
) -> bool
    requires ranks { AreRanksOf (E.sees array.now) ranks.now }
    requires some { 0 < (E.sees array.now).count }
    requires links { let view = E.sees array.now in (i : ℕ) → i < view.count → view.fail i < view.count }
    requires positions { let view = E.sees array.now in (i : ℕ) → i < view.count → view.first i ≤ length outputs.now }
    requires runs { AreRuns outputs.now runs.now }
    requires each { length runs.now ≡ length outputs.now }
    requires sizes { length sizes.now ≡ length ranks.now.order.items }
    requires leaves { length leaves.now ≡ length ranks.now.order.items }
    ensures { IsTrue result ↔ HaveRightChains (machine_of (E.sees array.now) outputs.now) ranks.now.order.items sizes.now leaves.now (length ranks.now.order.items) }
{
    let first = array.first(0);
    if rest_at(outputs, runs, 0, first) != 0 {
        return false;
    }
    for rank in 1..ranks.order.len() {
        let element = ranks.order[rank];
        if !chain_holds(array, outputs, runs, element, sizes[rank], leaves[rank]) {
            return false;
        }
    }
    true
}

/// Whether each rank stops: in a leftmost machine if its element has outputs of its own, else
/// never.
fn stops<V: Copy, E: Array, A: Allocator + Copy>(
    alloc: A,
    array: &E,
    outputs: &[Output<V>],
    ranks: &Ranks<A>,
    sizes: &[usize],
    leftmost: bool,
) -> Result<Vec<bool, A>>
    requires ranks { AreRanksOf (E.sees array.now) ranks.now }
    requires positions { let view = E.sees array.now in (i : ℕ) → i < view.count → view.first i ≤ length outputs.now }
    requires sizes { length sizes.now ≡ length ranks.now.order.items }
    ensures ok { IfOk result (λ stops. AreStopsAt (machine_of (E.sees array.now) outputs.now) leftmost ranks.now.order.items sizes.now stops.items) }
    ensures each { IfOk result (λ stops. length stops.items ≡ length ranks.now.order.items) }
    ensures err { IfErr result IsOutOfMemory }
{
    if !leftmost {
        return Ok(vec![in alloc; false; ranks.order.len()]?);
    }
    let mut stops = Vec::with_capacity(alloc, ranks.order.len())?;
    for rank in 0..ranks.order.len() {
        let first = array.first(ranks.order[rank] as usize);
        stops.push(has_own(outputs, sizes[rank], first))?;
    }
    Ok(stops)
}

/// Whether the link of each element with a rank is right.
fn links_hold<V: Copy, E: Array, A: Allocator + Copy>(
    alloc: A,
    array: &E,
    outputs: &[Output<V>],
    ranks: Ranks<A>,
    sizes: &[usize],
    leftmost: bool,
) -> Result<bool>
    requires edges { HasEdges (E.sees array.now) }
    requires few { (E.sees array.now).count < 2 ^ 32 }
    requires tree { HasOnePath (E.sees array.now).child }
    requires ranks { AreRanksOf (E.sees array.now) ranks }
    requires links { let view = E.sees array.now in (i : ℕ) → i < view.count → view.fail i < view.count }
    requires positions { let view = E.sees array.now in (i : ℕ) → i < view.count → view.first i ≤ length outputs.now }
    requires sized { let view = E.sees array.now in AreSizes view.child view.width ranks.order.items sizes.now }
    requires sizes { length sizes.now ≡ length ranks.order.items }
    ensures ok { let view = E.sees array.now in IfOk result (λ right. IsTrue right ↔ HasRightLinks view.width (machine_of view outputs.now) leftmost) }
    ensures err { IfErr result IsOutOfMemory }
{
    let Some(fails) = link_ranks(alloc, array, &ranks, leftmost)? else {
        return Ok(false);
    };
    let stops = stops(alloc, array, outputs, &ranks, sizes, leftmost)?;
    let trie = Trie {
        parents: ranks.parents,
        labels: ranks.labels,
        fails,
        stops,
    };
    let right = trie.has_links(alloc, array.num_units() as u32)?;
    Ok(right)
}

/// Whether an array with these outputs is a right machine, leftmost or standard, to whose elements
/// `num_states` texts lead.
///
/// # Errors
/// Out of memory.
pub fn is_right<V: Copy, E: Array, A: Allocator + Copy>(
    alloc: A,
    array: &E,
    outputs: &[Output<V>],
    leftmost: bool,
    num_states: u32,
) -> Result<bool>
    requires edges { HasEdges (E.sees array.now) }
    requires some { 0 < (E.sees array.now).count }
    requires few { (E.sees array.now).count < 2 ^ 32 }
    requires links { let view = E.sees array.now in (i : ℕ) → i < view.count → view.fail i < view.count }
    requires positions { let view = E.sees array.now in (i : ℕ) → i < view.count → view.first i ≤ length outputs.now }
    requires outputs { length outputs.now < 2 ^ 32 }
    requires falls { ParentsFall outputs.now }
    ensures ok { let view = E.sees array.now in IfOk result (λ right. IsTrue right ↔ (IsRight view.width (machine_of view outputs.now) leftmost
        × IsCounted (machine_of view outputs.now) num_states)) }
    ensures err { IfErr result IsOutOfMemory }
{
    let Some(ranks) = Ranks::new(alloc, array)? else {
        return Ok(false);
    };
    if ranks.order.len() != num_states as usize {
        return Ok(false);
    }
    let runs = runs(alloc, outputs)?;
    let sizes = sizes(alloc, array, &ranks)?;
    let leaves = leaves(alloc, &ranks.parents)?;
    if !chains_hold(array, outputs, &runs, &ranks, &sizes, &leaves) {
        return Ok(false);
    }
    let right = links_hold(alloc, array, outputs, ranks, &sizes, leftmost)?;
    Ok(right)
}

/// Whether an array with these outputs is sound: its links and positions are in range, each
/// output's parent comes before it, and [`is_right`] returns true.
///
/// # Errors
/// Out of memory.
pub fn is_sound<V: Copy, E: Array, A: Allocator + Copy>(
    alloc: A,
    array: &E,
    outputs: &[Output<V>],
    leftmost: bool,
    num_states: u32,
) -> Result<bool>
    requires edges { HasEdges (E.sees array.now) }
    requires some { 0 < (E.sees array.now).count }
    requires few { (E.sees array.now).count < 2 ^ 32 }
    requires outputs { length outputs.now < 2 ^ 32 }
    ensures ok { let view = E.sees array.now in IfOk result (λ sound. IsTrue sound ↔ IsSoundArray view.width (machine_of view outputs.now) leftmost view.count num_states) }
    ensures err { IfErr result IsOutOfMemory }
{
    if !ranges_hold(array, outputs.len()) {
        return Ok(false);
    }
    if !parents_fall(outputs) {
        return Ok(false);
    }
    let right = is_right(alloc, array, outputs, leftmost, num_states)?;
    Ok(right)
}
