//! Where a leftmost stream stands, without its automaton.

ghost use Rattle.std.specs.Prelude.{◌≡◌};

use crate::search::Search;
use daachorse_core::edge_label::EdgeLabel;
use std::alloc::Allocator;
use std::marker::Model;

/// Where a leftmost stream stands, without the automaton. It borrows nothing.
#[derive(Drop)]
pub struct LeftmostStanding<U: EdgeLabel, ALLOC: Allocator> {
    pub(crate) search: Search<U, ALLOC>,
    // The number of bytes consumed.
    pub(crate) place: usize,
}

impl<U: EdgeLabel, ALLOC: Allocator> Model for LeftmostStanding<U, ALLOC> {
    ghost use Rattle.daachorse_streams.specs.Standings.{LeftmostStood, stood};

    ghost Value = { LeftmostStood U ALLOC };

    ghost view = { λ s. stood s.search s.place };
}

impl<U: EdgeLabel, ALLOC: Allocator> LeftmostStanding<U, ALLOC> {
    /// The number of bytes consumed.
    #[inline(always)]
    pub fn place(&self) -> usize
        ensures { result ≡ self.now.place }
    {
        self.place
    }
}
