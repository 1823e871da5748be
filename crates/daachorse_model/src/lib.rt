//! What the searches mean: the definitions, in `specs/`, and plain slow searches that compute them.
#![tactic(auto)]

ghost use Rattle.std.specs.Prelude.{◌≡◌};
ghost use Rattle.daachorse_model.specs.Kinds.{is_standard, is_leftmost, is_leftmost_first, byte_of_kind, kind_of_byte};

use std::ops::Range;

/// How matches are found.
///
/// An automaton is built for one kind. With the patterns `ab`, `abcd` and `bc`, in this order, the
/// first match in `xabcd` is `ab` for `Standard`, `abcd` for `LeftmostLongest`, and `ab` for
/// `LeftmostFirst`.
#[derive(Clone, Copy, Debug, PartialEq, Eq, Hash)]
pub enum MatchKind {
    /// Non-overlapping matches, each ending as early as possible and the longest that ends there.
    Standard,
    /// Non-overlapping matches, each starting as early as possible and the longest that starts
    /// there.
    LeftmostLongest,
    /// Non-overlapping matches, each starting as early as possible; of the patterns that start
    /// there, the one that was registered first.
    LeftmostFirst,
}

impl MatchKind {
    /// Returns whether matches are found by where they end.
    pub fn is_standard(self) -> bool
        ensures { result ≡ is_standard self }
    {
        matches!(self, MatchKind::Standard)
    }

    /// Returns whether matches are found by where they start.
    pub fn is_leftmost(self) -> bool
        ensures { result ≡ is_leftmost self }
    {
        !self.is_standard()
    }

    /// Returns whether the pattern that was registered first wins at a start.
    pub fn is_leftmost_first(self) -> bool
        ensures { result ≡ is_leftmost_first self }
    {
        matches!(self, MatchKind::LeftmostFirst)
    }
}

/// The kind of a byte: 1 is `LeftmostLongest`, 2 `LeftmostFirst`, and any other byte `Standard`.
impl From<u8> for MatchKind {
    ghost from_gives = { λ byte kind. kind ≡ kind_of_byte byte };

    fn from(byte: u8) -> Self {
        match byte {
            1 => MatchKind::LeftmostLongest,
            2 => MatchKind::LeftmostFirst,
            _ => MatchKind::Standard,
        }
    }
}

/// The byte of a kind: 0, 1 or 2.
impl From<MatchKind> for u8 {
    ghost from_gives = { λ kind byte. byte ≡ byte_of_kind kind };

    fn from(kind: MatchKind) -> Self {
        match kind {
            MatchKind::Standard => 0,
            MatchKind::LeftmostLongest => 1,
            MatchKind::LeftmostFirst => 2,
        }
    }
}

/// A match: a pattern with `value` occurs in the haystack from `start` to `end`, in bytes.
///
/// A match borrows nothing from the haystack. If `bc` has the value 2, its match in `abcd` starts
/// at 1, ends at 3 and has the value 2.
#[derive(Clone, Copy, Debug, PartialEq, Eq, Hash)]
pub struct Match<V> {
    /// Where the match starts, in bytes.
    pub start: usize,
    /// Where it ends, in bytes: one past its last.
    pub end: usize,
    /// The value of its pattern.
    pub value: V,
}

impl<V: Copy> Match<V> {
    /// Returns where the match starts, in bytes.
    pub fn start(&self) -> usize
        ensures { result ≡ self.now.start }
    {
        self.start
    }

    /// Returns where the match ends, in bytes: one past its last.
    pub fn end(&self) -> usize
        ensures { result ≡ self.now.end }
    {
        self.end
    }

    /// Returns the places that the match covers, in bytes.
    pub fn range(&self) -> Range<usize>
        ensures start { result.start ≡ self.now.start }
        ensures end { result.end ≡ self.now.end }
    {
        self.start..self.end
    }

    /// Returns the value of the match's pattern.
    pub fn value(&self) -> V
        ensures { result ≡ self.now.value }
    {
        self.value
    }
}

pub mod laws;
pub mod slow;
