//! What the tests ask of an automaton, over bytes or over characters.

use crate::finding::Found;
use daachorse::errors::DaachorseError;
use daachorse::{CharwiseDoubleArrayAhoCorasick, DoubleArrayAhoCorasick, MatchKind, Result};
use std::alloc::{AllocError, Allocator, Global};
use std::hash::Hash;
use std::io::{self, ErrorKind, Read, Write};

pub type Bytewise<A = Global> = DoubleArrayAhoCorasick<u32, A>;

pub type Charwise<A = Global> = CharwiseDoubleArrayAhoCorasick<u32, A>;

/// Patterns with their values.
pub type Patvals = &'static [(&'static str, u32)];

/// Patterns whose values are their indexes. All have two bytes or more, as a prefilter needs.
pub const PATTERNS: [&str; 3] = ["bcd", "abc", "ab"];

/// `PATTERNS` with their indexes as values.
pub const PATVALS: [(&str, u32); 3] = [("bcd", 0), ("abc", 1), ("ab", 2)];

/// `PATVALS` in the order of a listing.
pub const LISTED: Patvals = &[("ab", 2), ("abc", 1), ("bcd", 0)];

/// The options of a builder.
#[derive(Clone, Copy)]
pub struct Way {
    pub kind: MatchKind,
    pub filtered: bool,
    pub folds: bool,
    pub by_corpus: bool,
}

/// The default options.
pub const BUILT: Way = Way {
    kind: MatchKind::Standard,
    filtered: true,
    folds: false,
    by_corpus: false,
};

/// The default options for the longest matches.
pub const LONGEST: Way = Way {
    kind: MatchKind::LeftmostLongest,
    ..BUILT
};

/// The default options for the matches of the first patterns.
pub const FIRST: Way = Way {
    kind: MatchKind::LeftmostFirst,
    ..BUILT
};

/// A call that builds a standard automaton from `PATTERNS`, or from `PATVALS`.
#[derive(Clone, Copy)]
pub enum Plainly {
    New,
    WithValues,
    Build,
    BuildByCorpus,
}

/// An automaton whose patterns are texts.
pub trait Automaton: PartialEq + Hash + Drop + Sized {
    type Alloc: Allocator + Copy;

    /// Builds the automaton of these patterns in this way.
    fn built(alloc: Self::Alloc, way: Way, patvals: &[(&str, u32)]) -> Result<Self>;

    /// Builds the automaton of `PATVALS` by this call.
    fn built_plainly(alloc: Self::Alloc, how: Plainly) -> Result<Self>;

    /// Writes the automaton and a byte behind it, and reads it with or without checks.
    fn read_back(&self, alloc: Self::Alloc, is_checked: bool) -> Result<Self>;

    /// Reads an automaton with checks.
    fn read(alloc: Self::Alloc, bytes: &[u8]) -> Result<Self>;

    /// A clone.
    fn cloned(&self) -> Result<Self>;

    /// Caches the depths of a standard automaton; does nothing on a leftmost one.
    fn cache(&mut self) -> Result<()>;

    /// Whether rows of states are made, and then given up for the automaton as it was.
    fn accelerates(&self, alloc: Self::Alloc) -> Result<bool>;

    /// Whether exactly these patterns are listed, in this order.
    fn lists(&self, alloc: Self::Alloc, expected: &[(&str, u32)]) -> Result<bool>;

    /// Whether a search of what a reader gives, for all matches of a standard automaton, has these
    /// matches and then this error, if there is one.
    fn reads<R: Read + Drop>(
        &self,
        alloc: Self::Alloc,
        reader: R,
        expected: &[Found],
        error: Option<ErrorKind>,
    ) -> io::Result<bool>;

    /// The same for the leftmost matches of a leftmost automaton.
    fn reads_leftmost<R: Read + Drop>(
        &self,
        alloc: Self::Alloc,
        reader: R,
        expected: &[Found],
        error: Option<ErrorKind>,
    ) -> io::Result<bool>;

    /// Writes what a reader gives, with each match in brackets.
    fn brackets<R: Read + Drop, W: Write>(
        &self,
        alloc: Self::Alloc,
        reader: R,
        out: &mut W,
    ) -> io::Result<()>;

    /// The text in bytes, with each match in brackets.
    fn bracketed(&self, alloc: Self::Alloc, text: &str) -> Result<Vec<u8, Self::Alloc>>;

    /// The text in bytes, with `-` for each match of value 0.
    fn replaced(&self, alloc: Self::Alloc, text: &str) -> Result<Vec<u8, Self::Alloc>>;
}

/// The outcome of an `accelerate` that gave an automaton back: its refusal, or false if it gave
/// another one or had no room.
pub fn given_back(refusal: Option<DaachorseError>, is_same: bool) -> Result<bool> {
    match refusal {
        Some(error) if is_same => Err(error),
        _ => Ok(false),
    }
}

/// An outcome of reading or writing as that of a call: only want of memory stays an error.
pub fn or_refused(outcome: io::Result<bool>) -> Result<bool> {
    match outcome {
        Ok(holds) => Ok(holds),
        Err(error) if error.kind() == ErrorKind::OutOfMemory => Err(DaachorseError::from(
            AllocError,
        )),
        Err(_) => Ok(false),
    }
}
