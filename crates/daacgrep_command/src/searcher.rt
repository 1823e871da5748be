//! The search for patterns in a line.

ghost use Rattle.std.specs.Prelude.{◌≡◌};
ghost use Rattle.daacgrep_command.specs.Printed.{occurs};
ghost use Rattle.daacgrep_command.specs.Sought.{matches_in, sought_of};

use daachorse::bytewise::Accelerated;
use daachorse::bytewise::accelerated::{RowedLeftmost, RowedStandard};
use daachorse::bytewise::iter::{FindOverlappingSliceIterator, LeftmostFindIterator};
use daachorse::{DoubleArrayAhoCorasick, Match, MatchKind};
use std::alloc::Allocator;
use std::marker::Model;

/// An automaton, over rows of states if there is room for them.
#[derive(Drop)]
pub struct Searcher<A: Allocator> {
    kept: Kept<A>,
}

#[derive(Drop)]
enum Kept<A: Allocator> {
    Plain(DoubleArrayAhoCorasick<u32, A>),
    Rows(Accelerated<u32, A>),
}

impl<A: Allocator> Model for Searcher<A> {
    ghost use Rattle.std.specs.Prelude.{ℕ};
    ghost use Rattle.daachorse.specs.bytewise.Automata.{Automaton};
    ghost use Rattle.daacgrep_command.specs.declared.searcher.Kept.TheVariants.{Plain, Rows};

    ghost Value = { Automaton ℕ };

    ghost view = { λ s. elim s.kept [
      | Plain automaton ↦ automaton
      | Rows searcher ↦ searcher.automaton
    ] };
}

impl<A: Allocator + Copy> Searcher<A> {
    /// Makes rows of states for the automaton, unless they are refused.
    pub fn new(alloc: A, automaton: DoubleArrayAhoCorasick<u32, A>) -> Self
        ensures { result ≡ automaton }
    {
        match automaton.accelerate(alloc) {
            Ok(searcher) => Searcher {
                kept: Kept::Rows(searcher),
            },
            Err(refused) => Searcher {
                kept: Kept::Plain(refused.automaton),
            },
        }
    }
}

impl<A: Allocator + Copy> Searcher<A> {
    /// Returns whether a pattern occurs in the line.
    #[inline]
    pub fn is_match(&self, line: &[u8]) -> bool
        ensures { result ≡ occurs (sought_of self.now) line.now }
    {
        match &self.kept {
            Kept::Plain(automaton) => automaton.is_match(line),
            Kept::Rows(searcher) => searcher.is_match(line),
        }
    }

    /// The matches in the line: all of them, or the leftmost ones, as the automaton's kind says.
    #[inline]
    pub fn matches<'a>(&'a self, line: &'a [u8]) -> Found<'a, A>
        ensures { result ≡ matches_in (sought_of self.entry.now) line.entry.now }
    {
        match &self.kept {
            Kept::Plain(automaton) => plain_matches(automaton, line),
            Kept::Rows(searcher) => rowed_matches(searcher, line),
        }
    }
}

#[inline]
fn plain_matches<'a, A: Allocator + Copy>(
    automaton: &'a DoubleArrayAhoCorasick<u32, A>,
    line: &'a [u8],
) -> Found<'a, A>
    ensures { result ≡ matches_in (sought_of automaton.entry.now) line.entry.now }
{
    match automaton.match_kind() {
        MatchKind::Standard => Found {
            search: Search::Overlapping(automaton.find_overlapping_iter(line)),
        },
        MatchKind::LeftmostLongest | MatchKind::LeftmostFirst => Found {
            search: Search::Leftmost(automaton.leftmost_find_iter(line)),
        },
    }
}

#[inline]
fn rowed_matches<'a, A: Allocator + Copy>(
    searcher: &'a Accelerated<u32, A>,
    line: &'a [u8],
) -> Found<'a, A>
    ensures { result ≡ matches_in (sought_of searcher.entry.now.automaton) line.entry.now }
{
    match searcher.match_kind() {
        MatchKind::Standard => Found {
            search: Search::RowedOverlapping(searcher.find_overlapping_iter(line)),
        },
        MatchKind::LeftmostLongest | MatchKind::LeftmostFirst => Found {
            search: Search::RowedLeftmost(searcher.leftmost_find_iter(line)),
        },
    }
}

/// The matches in a line, in order.
#[derive(Drop)]
pub struct Found<'a, A: Allocator> {
    search: Search<
        FindOverlappingSliceIterator<'a, u32, A>,
        LeftmostFindIterator<'a, u32, A>,
        FindOverlappingSliceIterator<'a, u32, A, RowedStandard<'a, u32>>,
        LeftmostFindIterator<'a, u32, A, RowedLeftmost<'a, u32>>,
    >,
}

/// Each search is compiled by itself.
#[derive(Drop)]
enum Search<O, L, R, T> {
    Overlapping(O),
    Leftmost(L),
    RowedOverlapping(R),
    RowedLeftmost(T),
}

impl<'a, A: Allocator> Model for Found<'a, A> {
    ghost use Rattle.std.specs.Prelude.{List, ℕ};
    ghost use Rattle.daachorse_model.specs.declared.Match.{Match};
    ghost use Rattle.daacgrep_command.specs.declared.searcher.Search.TheVariants.{Overlapping, Leftmost, RowedOverlapping, RowedLeftmost};

    ghost Value = { List (Match ℕ) };

    ghost view = { λ s. elim s.search [
      | Overlapping matches ↦ matches.left
      | Leftmost matches ↦ matches.left
      | RowedOverlapping matches ↦ matches.left
      | RowedLeftmost matches ↦ matches.left
    ] };

    ghost invariant = { λ s. Unit {0} };
}

impl<'a, A: Allocator> Iterator for Found<'a, A> {
    ghost use Rattle.std.specs.Iterator.{YieldsFirst, item_count};

    type Item = Match<u32>;

    ghost next_gives = { YieldsFirst (λ left. left) };

    ghost remaining = { item_count (λ left. left) };

    #[inline(always)]
    fn next(&mut self) -> Option<Match<u32>> {
        match &mut self.search {
            Search::Overlapping(matches) => matches.next(),
            Search::Leftmost(matches) => matches.next(),
            Search::RowedOverlapping(matches) => matches.next(),
            Search::RowedLeftmost(matches) => matches.next(),
        }
    }
}
