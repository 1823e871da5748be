//! The patterns of an automaton over characters, one by one.

use daachorse_array::patterns::PatternWalk;
use daachorse_charwise_states::edges::Elements;
use daachorse_core::errors::Result;
use std::alloc::{Allocator, Global};
use std::marker::Model;

/// The iterator of `iter`: the patterns with their values, in byte order, each a string of its own.
/// After an allocation fails there is one error, and then the end.
#[derive(Drop)]
pub struct PatternIterator<'a, V: Copy, A: Allocator = Global> {
    pub(crate) walk: PatternWalk<V, Elements<'a, V, A>, A>,
}

impl<'a, V: Copy, A: Allocator> Model for PatternIterator<'a, V, A> {
    ghost use Rattle.std.specs.Prelude.{List, ℕ};

    ghost Value = { List (List ℕ × V) };

    ghost view = { λ s. s.walk };

    ghost invariant = { λ s. Unit {0} };
}

impl<'a, V: Copy, A: Allocator + Copy> Iterator for PatternIterator<'a, V, A> {
    ghost use Rattle.std.specs.Iterator.{item_count};
    ghost use Rattle.std.specs.Str.{chars};
    ghost use Rattle.std.specs.String.{string_bytes};
    ghost use Rattle.daachorse_array.specs.Listing.{GivesPattern};

    type Item = Result<(String<A>, V)>;

    ghost next_gives = { GivesPattern (λ pattern. chars (string_bytes pattern)) };

    ghost remaining = { item_count (λ left. left) };

    fn next(&mut self) -> Option<Result<(String<A>, V)>> {
        self.walk.next()
    }
}
