//! The elements of an array that texts lead to, in breadth-first order.
//!
//! The walk ends at the first element that it comes to twice, so that it is linear in the elements.

ghost use Rattle.std.specs.Prelude.{◌≡◌, ◌+◌, ◌<◌, ◌^◌, true, false, length, IfOk, IfErr, IfSome, IfNone};
ghost use Rattle.daachorse_core.specs.Refusals.{IsOutOfMemory};
ghost use Rattle.daachorse_array.specs.Arrays.{AreGroups, HasEdges};
ghost use Rattle.daachorse_array.specs.Listing.{unit_of};
ghost use Rattle.daachorse_checker.specs.Ranks.{HasOnePath, AreRanksOf, IsRankWalkOf};

use daachorse_array::array::Array;
use daachorse_array::siblings::Siblings;
use daachorse_core::errors::Result;
use std::alloc::{Allocator, Global};

/// The elements that texts lead to, by rank, which is their number in breadth-first order, 0 for
/// the root.
#[derive(Drop)]
pub struct Ranks<A: Allocator = Global> {
    /// The element at each rank.
    pub order: Vec<u32, A>,
    /// The rank of each one's parent; 0 for the root.
    pub parents: Vec<u32, A>,
    /// The unit that leads to each from its parent; 0 for the root.
    pub labels: Vec<u32, A>,
    /// For every element of the array its rank; 0 if no text leads to it.
    pub marks: Vec<u32, A>,
}

impl<A: Allocator + Copy> Ranks<A> {
    /// The ranks of an array; `None` if two texts lead to one element, or one to the dead element.
    ///
    /// # Errors
    /// Out of memory.
    #[inline(always)]
    pub fn new<E: Array>(alloc: A, array: &E) -> Result<Option<Self>>
        requires edges { HasEdges (E.sees array.now) }
        requires some { 0 < (E.sees array.now).count }
        ensures yes { let view = E.sees array.now in IfOk result (λ found. IfSome found (λ p. HasOnePath view.child
            × AreRanksOf view p)) }
        ensures no { IfOk result (λ found. IfNone found (HasOnePath (E.sees array.now).child → ⊥)) }
        ensures err { IfErr result IsOutOfMemory }
    {
        let groups = Siblings::new(alloc, array)?;
        let count = array.num_elements();
        let mut ranks = Ranks {
            order: Vec::with_capacity(alloc, count)?,
            parents: Vec::with_capacity(alloc, count)?,
            labels: Vec::with_capacity(alloc, count)?,
            marks: vec![in alloc; 0; count]?,
        };
        ranks.order.push(0)?;
        ranks.parents.push(0)?;
        ranks.labels.push(0)?;
        let mut next: u32 = 0;
        while (next as usize) < ranks.order.len() {
            if !ranks.expand(array, &groups, next)? {
                return Ok(None);
            }
            next += 1;
        }
        Ok(Some(ranks))
    }

    /// Gives ranks to the children of the element at a rank; false if one has a rank already, or
    /// is the root or the dead element.
    #[inline(always)]
    fn expand<E: Array>(&mut self, array: &E, groups: &Siblings<A>, rank: u32) -> Result<bool>
        requires edges { HasEdges (E.sees array.now) }
        requires groups { AreGroups (E.sees array.now) groups.now }
        requires few { (E.sees array.now).count < 2 ^ 32 }
        requires walk { IsRankWalkOf (E.sees array.now) self.old rank }
        requires more { rank < length self.old.order.items }
        ensures yes { IfOk result (λ found. found ≡ true → IsRankWalkOf (E.sees array.now) self.new (rank + 1)) }
        ensures no { IfOk result (λ found. found ≡ false → HasOnePath (E.sees array.now).child → ⊥) }
        ensures err { IfErr result IsOutOfMemory }
    {
        let element = self.order[rank as usize];
        let Some(group) = array.group(element as usize) else {
            return Ok(true);
        };
        for member in groups.members(group) {
            if member <= 1 {
                return Ok(false);
            }
            if self.marks[member as usize] > 0 {
                return Ok(false);
            }
            self.marks[member as usize] = self.order.len() as u32;
            self.order.push(member)?;
            self.parents.push(rank)?;
            self.labels.push(unit_at(array, member))?;
        }
        Ok(true)
    }
}

/// The unit that leads to an element.
fn unit_at<E: Array>(array: &E, element: u32) -> u32
    requires { element < (E.sees array.now).count }
    ensures { result ≡ unit_of ((E.sees array.now).edge element) }
{
    match array.edge(element as usize) {
        Some((_group, unit)) => unit as u32,
        None => 0,
    }
}
