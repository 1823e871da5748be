//! How automata are made, over bytes and over characters, and what only automata are asked.

pub mod bytes;
pub mod chars;

use crate::case::Case;
use crate::finding::Found;
use crate::plain::Plainly;
use crate::report::{Differences, Form, Stop};
use crate::row::{Count, Making, Origin, Pattern, Row, Way};
use crate::searched::Searched;
use daachorse::{Match, MatchKind, Result};
use std::alloc::Global;
use std::fmt::Debug;
use std::io::{self, BufRead, ErrorKind};

/// An automaton whose patterns are texts.
pub trait Automaton: Searched + PartialEq + Debug + Drop + Sized {
    /// Rows of states over it.
    type Rows: Searched + Drop;

    /// Builds the automaton of these patterns in this way.
    fn built(alloc: Global, making: &Making, way: Way, patterns: &[Pattern]) -> Result<Self, Stop>;

    /// Reads an automaton with checks.
    fn read(alloc: Global, bytes: &[u8]) -> Result<Self>;

    /// Writes the automaton and a byte 42, and reads them with checks or without. Returns what was
    /// read, and whether just that byte is left.
    fn read_back(&self, alloc: Global, is_checked: bool) -> Result<(Self, bool)>;

    /// The written automaton.
    fn written(&self, alloc: Global) -> Result<Vec<u8>>;

    /// A clone.
    fn cloned(&self) -> Result<Self>;

    /// Caches the depths of a standard automaton; does nothing on a leftmost one.
    fn cache(&mut self) -> Result<()>;

    /// Makes rows of its states, if there is room.
    fn with_rows(self, alloc: Global) -> Option<Self::Rows>;

    /// The automaton of rows.
    fn without_rows(rows: Self::Rows) -> Self;

    /// A number that it tells, if it tells that one.
    fn count(&self, alloc: Global, count: Count) -> Result<Option<usize>>;

    /// Whether these are the values of a text, in order.
    fn has_values(&self, text: &[u8], expected: &[u32]) -> bool;

    /// Whether these are the patterns that begin a text.
    fn has_prefixes(&self, text: &[u8], expected: &[Found]) -> bool;

    /// The longest pattern that begins a text.
    fn longest_of(&self, text: &[u8]) -> Option<Match<u32>>;

    /// Whether a stream gives exactly these matches, each when it is expected.
    fn streams(&self, alloc: Global, case: &Case, times: &[usize]) -> bool;

    /// The same for a stream that is saved and resumed after this many units.
    fn streams_resumed(&self, alloc: Global, case: &Case, times: &[usize], cut: usize) -> bool;

    /// Whether a stream over a reader gives exactly these matches, then this error.
    fn streams_from_reader<R: BufRead + Drop>(
        &self,
        alloc: Global,
        reader: R,
        expected: &[Found],
        error: Option<ErrorKind>,
    ) -> io::Result<bool>;
}

/// The bytes from which a row's automaton is read.
pub fn written_of<S: Automaton>(alloc: Global, row: &Row<'_>, way: Way) -> Result<Vec<u8>, Stop> {
    let mut bytes = match &row.origin {
        Origin::Form(bytes) => bytes.clone()?,
        Origin::Patterns(patterns) => {
            let automaton = S::built(alloc, &row.making, way, patterns)?;
            automaton.written(alloc).map_err(|_| Stop::Memory)?
        }
    };
    if let Some((place, byte)) = row.making.change {
        match bytes.get_mut(place) {
            Some(there) => *there = byte,
            None => return Err(Stop::Unreadable),
        }
    }
    Ok(bytes)
}

/// Builds the automaton of a row in this way, or reads it from a form that no build wrote.
pub fn made<S: Automaton>(alloc: Global, row: &Row<'_>, way: Way) -> Result<S, Stop> {
    match &row.origin {
        Origin::Patterns(patterns) if row.making.change.is_none() => {
            S::built(alloc, &row.making, way, patterns)
        }
        _ => {
            let bytes = written_of::<S>(alloc, row, way)?;
            S::read(alloc, &bytes).map_err(|_| Stop::Refused)
        }
    }
}

/// The kind by which plain searches find what an automaton finds for the patterns that it lists: a
/// leftmost one of either kind finds the longest of the patterns that it kept.
fn kind_of_listed(kind: MatchKind) -> MatchKind {
    if kind.is_leftmost() {
        MatchKind::LeftmostLongest
    } else {
        MatchKind::Standard
    }
}

/// The plain search for the patterns that an automaton lists.
pub fn plainly_listed<S: Automaton>(alloc: Global, automaton: &S) -> Result<Plainly, Stop> {
    let (kind, folds) = automaton.told_kind();
    let patterns = automaton.listed(alloc).map_err(|_| Stop::Memory)?;
    Plainly::new(alloc, S::width(), kind_of_listed(kind), folds, &patterns)
}

/// The plain search for a row's patterns, or for those that its automaton lists.
pub fn plainly_of<S: Automaton>(alloc: Global, row: &Row<'_>) -> Result<Plainly, Stop> {
    let way = row.making.way;
    match &row.origin {
        Origin::Patterns(patterns) if row.making.change.is_none() => {
            Plainly::new(alloc, S::width(), row.making.kind, way.folds, patterns)
        }
        _ => {
            let automaton = made::<S>(alloc, row, way)?;
            plainly_listed(alloc, &automaton)
        }
    }
}
