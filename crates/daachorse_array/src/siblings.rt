//! The elements of each group, as linked lists in two numbers an element.

ghost use Rattle.std.specs.Prelude.{◌≡◌, ◌<◌, ◌≤◌, ◌^◌, [], length, slice_index_or, IfOk, IfErr};
ghost use Rattle.daachorse_core.specs.Refusals.{IsOutOfMemory};
ghost use Rattle.daachorse_array.specs.Arrays.{AreGroups};
ghost use Rattle.daachorse_array.specs.Linked.{IsPut};

use crate::array::Array;
use daachorse_core::errors::Result;
use std::alloc::{Allocator, Global};
use std::marker::Model;

/// The elements of each group. A link is an element's number plus 1, or 0 for none.
#[derive(Drop)]
pub struct Siblings<A: Allocator = Global> {
    // The first element of each group.
    first: Vec<u32, A>,
    // For each element the next of its group.
    next: Vec<u32, A>,
}

impl<A: Allocator> Model for Siblings<A> {
    ghost use Rattle.std.specs.Prelude.{List, ℕ, map};
    ghost use Rattle.daachorse_array.specs.Linked.{AreLinked, linked_from};

    ghost Value = { List (List ℕ) };

    ghost view = { λ s. map (linked_from s.next.items) s.first.items };

    ghost invariant = { λ s. AreLinked s.first.items s.next.items };
}

impl<A: Allocator + Copy> Siblings<A> {
    /// The groups of all elements, each in falling order of the elements' numbers.
    ///
    /// # Errors
    /// Out of memory.
    #[inline(always)]
    pub fn new<E: Array>(alloc: A, edges: &E) -> Result<Self>
        ensures ok { IfOk result (AreGroups (E.sees edges.now)) }
        ensures err { IfErr result IsOutOfMemory }
    {
        let count = edges.num_elements();
        let mut first = vec![in alloc; 0; count]?;
        let mut next = Vec::with_capacity(alloc, count)?;
        for element in 0..count {
            let link = put_first(edges, element, &mut first);
            next.push_reserved(link);
        }
        Ok(Siblings { first, next })
    }
}

impl<A: Allocator> Siblings<A> {
    /// The elements of a group, the greatest number first.
    pub fn members(&self, group: usize) -> Members<'_>
        requires { group < length self.now }
        ensures { result ≡ slice_index_or self.entry.now group [] }
    {
        Members {
            next: self.next.as_slice(),
            link: self.first[group],
        }
    }
}

/// Puts an element before the others of its group, and returns the link to these; 0 if it has no
/// group.
fn put_first<E: Array, A: Allocator>(edges: &E, element: usize, first: &mut Vec<u32, A>) -> u32
    requires element { element < (E.sees edges.now).count }
    requires few { (E.sees edges.now).count < 2 ^ 32 }
    requires size { length first.old.items ≡ (E.sees edges.now).count }
    ensures { IsPut ((E.sees edges.now).edge element) element first.old.items first.new.items result }
{
    let Some((group, _unit)) = edges.edge(element) else {
        return 0;
    };
    let link = first[group];
    first[group] = element as u32 + 1;
    link
}

/// The elements of one group.
#[derive(Drop)]
pub struct Members<'a> {
    next: &'a [u32],
    link: u32,
}

impl<'a> Model for Members<'a> {
    ghost use Rattle.std.specs.Prelude.{List, ℕ, ◌≤◌, slice_index, length};
    ghost use Rattle.daachorse_array.specs.Linked.{linked_from};

    ghost Value = { List ℕ };

    ghost view = { λ s. linked_from s.next.now s.link };

    ghost invariant = { λ s. ((q : ℕ) → slice_index s.next.now q ≤ q) × (s.link ≤ length s.next.now) };
}

impl<'a> Iterator for Members<'a> {
    ghost use Rattle.std.specs.Iterator.{YieldsFirst, item_count};

    type Item = u32;

    ghost next_gives = { YieldsFirst (λ left. left) };

    ghost remaining = { item_count (λ left. left) };

    fn next(&mut self) -> Option<u32> {
        if self.link == 0 {
            return None;
        }
        let member = self.link - 1;
        self.link = self.next[member as usize];
        Some(member)
    }
}
