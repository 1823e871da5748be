//! The links of an array as links between the ranks of its elements.

ghost use Rattle.std.specs.Prelude.{◌≡◌, ◌<◌, ◌^◌, ℕ, Some, length, slice_index, IfOk, IfErr, IfSome, IfNone};
ghost use Rattle.daachorse_core.specs.Refusals.{IsOutOfMemory};
ghost use Rattle.daachorse_checker.specs.Links.{AreLinkRanks, LeadsToNoRank, IsLinkRank, IsNoRank};
ghost use Rattle.daachorse_checker.specs.Ranks.{AreRanksOf};

use crate::ranks::Ranks;
use daachorse_array::array::Array;
use daachorse_core::errors::Result;
use daachorse_core::{DEAD_STATE_IDX, ROOT_STATE_IDX};
use std::alloc::Allocator;

/// The rank of an element's link, or the number of ranks for a dead one; `None` if it leads to no
/// rank, or is dead in a standard machine.
fn link_rank<E: Array, A: Allocator>(
    array: &E,
    ranks: &Ranks<A>,
    element: u32,
    leftmost: bool,
) -> Option<u32>
    requires ranks { AreRanksOf (E.sees array.now) ranks.now }
    requires few { length ranks.now.order.items < 2 ^ 32 }
    requires element { element < (E.sees array.now).count }
    requires links { let view = E.sees array.now in (i : ℕ) → i < view.count → view.fail i < view.count }
    ensures some { IfSome result (λ r. IsLinkRank ranks.now.order.items ((E.sees array.now).fail element) r) }
    ensures none { IfNone result (IsNoRank leftmost ranks.now.order.items ((E.sees array.now).fail element)) }
{
    let link = array.fail(element as usize);
    if link == DEAD_STATE_IDX {
        if leftmost {
            return Some(ranks.order.len() as u32);
        }
        return None;
    }
    if link == ROOT_STATE_IDX {
        return Some(0);
    }
    let rank = ranks.marks[link as usize];
    if rank == 0 {
        return None;
    }
    Some(rank)
}

/// The ranks of all links; `None` if one has no rank. The root's link is not read.
///
/// # Errors
/// Out of memory.
pub fn link_ranks<E: Array, A: Allocator + Copy>(
    alloc: A,
    array: &E,
    ranks: &Ranks<A>,
    leftmost: bool,
) -> Result<Option<Vec<u32, A>>>
    requires ranks { AreRanksOf (E.sees array.now) ranks.now }
    requires few { length ranks.now.order.items < 2 ^ 32 }
    requires links { let view = E.sees array.now in (i : ℕ) → i < view.count → view.fail i < view.count }
    ensures some { IfOk result (λ found. IfSome found (λ fails. AreLinkRanks (E.sees array.now).fail ranks.now.order.items fails.items)) }
    ensures each { IfOk result (λ found. IfSome found (λ fails. length fails.items ≡ length ranks.now.order.items)) }
    ensures none { IfOk result (λ found. IfNone found (LeadsToNoRank leftmost (E.sees array.now).fail ranks.now.order.items)) }
    ensures err { IfErr result IsOutOfMemory }
{
    let mut fails = Vec::with_capacity(alloc, ranks.order.len())?;
    fails.push(0)?;
    for rank in 1..ranks.order.len() {
        let Some(link) = link_rank(array, ranks, ranks.order[rank], leftmost) else {
            return Ok(None);
        };
        fails.push(link)?;
    }
    Ok(Some(fails))
}
