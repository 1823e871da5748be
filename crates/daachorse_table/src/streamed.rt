//! Compares the matches of a leftmost stream, and after how many units each is given, with expected
//! ones.

ghost use Rattle.std.specs.Prelude.{◌≡◌, false, true};

use crate::finding::{FARTHEST, Found};
use daachorse_core::edge_label::EdgeLabel;
use daachorse_search::automaton::Automaton;
use daachorse_search::step_unit::StepUnit;
use daachorse_streams::leftmost_stream::LeftmostStream;
use std::alloc::Allocator;
use std::slice::Iter;

/// The matches still to come, and after how many units each, where that is known.
#[derive(Drop)]
pub struct Coming<'a> {
    matches: Iter<'a, Found>,
    times: Iter<'a, usize>,
    /// How many units were read.
    read: usize,
}

impl<'a> Coming<'a> {
    /// These matches, each after so many units; with fewer numbers the others are not known.
    pub fn new(matches: &'a [Found], times: &'a [usize]) -> Self {
        Self {
            matches: matches.iter(),
            times: times.iter(),
            read: 0,
        }
    }

    /// Counts a unit, or the end.
    fn read_on(&mut self) {
        self.read = self.read.saturating_add(1);
    }

    /// Whether no match is expected by now.
    fn is_over_for_now(&self) -> bool {
        let read = self.read;
        self.times
            .as_slice()
            .first()
            .is_none_or(|time| *time > read)
    }

    /// Takes a match, and returns whether it is expected now.
    fn takes(&mut self, found: Found) -> bool {
        let read = self.read;
        self.matches.next() == Some(&found) && self.times.next().is_none_or(|time| *time == read)
    }
}

/// Whether a stream gives exactly the matches that are expected by now.
pub fn gives<A: Automaton<u32>, ALLOC: Allocator>(
    stream: &mut LeftmostStream<'_, u32, A, ALLOC>,
    coming: &mut Coming<'_>,
) -> bool
    ensures automaton { stream.new.automaton ≡ stream.old.automaton }
    ensures ended { stream.new.ended ≡ stream.old.ended }
    ensures quiet { result ≡ true → stream.new.waiting ≡ false }
{
    for _ in 0..=coming.matches.len() {
        let Some(found) = stream.next_certain() else {
            return coming.is_over_for_now();
        };
        if !coming.takes((found.start(), found.end(), found.value())) {
            return false;
        }
    }
    false
}

/// Whether a stream gives exactly the matches that are expected up to the end of these units.
pub fn gives_over<A: Automaton<u32>, ALLOC: Allocator>(
    stream: &mut LeftmostStream<'_, u32, A, ALLOC>,
    units: &[A::Unit],
    coming: &mut Coming<'_>,
) -> bool
where
    A::Unit: StepUnit,
    requires { stream.old.ended ≡ false }
    ensures automaton { stream.new.automaton ≡ stream.old.automaton }
    ensures ended { stream.new.ended ≡ false }
{
    if !gives(stream, coming) {
        return false;
    }
    for place in 0..units.len() {
        let unit = units[place];
        unit.in_range();
        if stream.place() > FARTHEST {
            return false;
        }
        stream.consume(unit);
        coming.read_on();
        if !gives(stream, coming) {
            return false;
        }
    }
    true
}

/// Whether a stream gives exactly the matches that are expected over the last units and at the end.
pub fn gives_rest<A: Automaton<u32>, ALLOC: Allocator>(
    stream: &mut LeftmostStream<'_, u32, A, ALLOC>,
    units: &[A::Unit],
    coming: &mut Coming<'_>,
) -> bool
where
    A::Unit: StepUnit,
    requires { stream.old.ended ≡ false }
{
    if !gives_over(stream, units, coming) {
        return false;
    }
    stream.end();
    coming.read_on();
    gives(stream, coming) && coming.matches.len() == 0
}

/// Whether a fresh stream gives exactly these matches, each when it is expected.
pub fn are_streamed<A: Automaton<u32>, ALLOC: Allocator>(
    stream: &mut LeftmostStream<'_, u32, A, ALLOC>,
    units: &[A::Unit],
    matches: &[Found],
    times: &[usize],
) -> bool
where
    A::Unit: StepUnit,
    requires { stream.old.ended ≡ false }
{
    gives_rest(stream, units, &mut Coming::new(matches, times))
}
