//! The patterns of an automaton over bytes, one by one.

ghost use Rattle.std.specs.Prelude.{◌≡◌, IfOk, IfErr};
ghost use Rattle.daachorse_core.specs.Refusals.{IsOutOfMemory};
ghost use Rattle.daachorse_model.specs.Prefixes.{IsListing};
ghost use Rattle.daachorse_bytewise_states.specs.Parts.{content};

use crate::edges::Elements;
use crate::for_kinds::ForKinds;
use crate::states::States;
use daachorse_array::patterns::PatternWalk;
use daachorse_array::texts::TextWalk;
use daachorse_core::errors::Result;
use daachorse_search::view::{ForLeftmost, ForStandard};
use std::alloc::{Allocator, Global};
use std::marker::Model;

/// An iterator over all patterns of an automaton, each with its value; the automaton's `iter` makes
/// it.
///
/// They come in byte order, equal ones in order of registration. Each pattern is a vector of its
/// own. If an allocation fails, the iterator gives one error and ends.
#[derive(Drop)]
pub struct PatternIterator<'a, V: Copy, A: Allocator = Global> {
    walk: Walk<WalkIn<'a, V, ForStandard, A>, WalkIn<'a, V, ForLeftmost, A>>,
}

/// A walk over the elements for standard or for leftmost searches. Each is compiled by itself, so
/// that the kind is tested once a pattern and not at each element.
#[derive(Drop)]
enum Walk<S, L> {
    Standard(S),
    Leftmost(L),
}

/// A walk with the list of elements known at compile time.
type WalkIn<'a, V, K, A> = PatternWalk<V, Elements<'a, V, K>, A>;

impl<'a, V: Copy, A: Allocator> Model for PatternIterator<'a, V, A> {
    ghost use Rattle.std.specs.Prelude.{List, ℕ};
    ghost use Rattle.daachorse_bytewise_states.specs.declared.patterns.Walk.TheVariants.{Standard, Leftmost};

    ghost Value = { List (List ℕ × V) };

    ghost view = { λ s. elim s.walk [
      | Standard left ↦ left
      | Leftmost left ↦ left
    ] };

    ghost invariant = { λ s. Unit {0} };
}

impl<'a, V: Copy, A: Allocator + Copy> Iterator for PatternIterator<'a, V, A> {
    ghost use Rattle.std.specs.Iterator.{item_count};
    ghost use Rattle.daachorse_array.specs.Listing.{GivesPattern};

    type Item = Result<(Vec<u8, A>, V)>;

    ghost next_gives = { GivesPattern (λ pattern. pattern.items) };

    ghost remaining = { item_count (λ left. left) };

    fn next(&mut self) -> Option<Result<(Vec<u8, A>, V)>> {
        match &mut self.walk {
            Walk::Standard(walk) => walk.next(),
            Walk::Leftmost(walk) => walk.next(),
        }
    }
}

impl<V: Copy, A: Allocator + Copy> States<V, A> {
    /// All patterns with their values, in byte order, equal ones in order of registration.
    ///
    /// # Errors
    /// Out of memory.
    pub fn pattern_iter<'a>(&'a self, alloc: A) -> Result<PatternIterator<'a, V, A>>
        ensures ok { IfOk result (λ walk. IsListing (content self.entry.now) walk) }
        ensures err { IfErr result IsOutOfMemory }
    {
        let walk = if self.kind().is_leftmost() {
            Walk::Leftmost(self.pattern_walk(alloc)?)
        } else {
            Walk::Standard(self.pattern_walk(alloc)?)
        };
        Ok(PatternIterator { walk })
    }

    /// A walk over the texts of the patterns in their order, each once and in place.
    ///
    /// # Errors
    /// Out of memory.
    pub fn texts<'a>(&'a self, alloc: A) -> Result<TextWalk<V, Elements<'a, V>, A>>
        ensures ok { IfOk result (λ walk. IsListing (content self.entry.now) walk.left) }
        ensures err { IfErr result IsOutOfMemory }
    {
        let elements = self.elements();
        TextWalk::new(alloc, elements)
    }

    /// [`Self::pattern_iter`], with the list of elements known at compile time.
    fn pattern_walk<'a, K: ForKinds>(&'a self, alloc: A) -> Result<WalkIn<'a, V, K, A>>
        requires { K.fits self.now.kind }
        ensures ok { IfOk result (λ walk. IsListing (content self.entry.now) walk) }
        ensures err { IfErr result IsOutOfMemory }
    {
        let elements = self.elements_in();
        PatternWalk::new(alloc, elements)
    }
}
