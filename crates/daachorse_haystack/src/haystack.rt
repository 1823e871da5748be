//! Haystacks that are known as a whole, read as they are or folded.

ghost use Rattle.std.specs.Prelude.{◌≡◌, ◌<◌, ◌^◌, ◌++◌, ℕ, List, Option, length};
ghost use Rattle.std.specs.Iterator.{IsFinite, YieldsFirstBy};
ghost use Rattle.daachorse_model.specs.Folding.{as_read};
ghost use Rattle.daachorse_model.specs.Units.{size, byte_width};

use daachorse_core::ascii_fold::AsciiFold;
use daachorse_core::edge_label::EdgeLabel;
use std::marker::Model;

/// A source of units that is known as a whole, and can be read again from any of its places.
pub trait Haystack<U: EdgeLabel>: Iterator<Item = U> + Drop {
    /// The units that are still to come, as they are read.
    ghost rest: { Self → List ℕ };

    /// Whether each unit is folded. It is for speed alone: a search asks once, before its loop.
    fn is_folded(&self) -> bool;

    /// The haystack without its first `bytes` bytes, which are whole units.
    fn after(&self, bytes: usize) -> Self
        requires { (front : List ℕ) × (back : List ℕ) × (Self.rest self.now ≡ front ++ back) × (bytes ≡ size U.width front) }
        ensures { (front back : List ℕ) → Self.rest self.now ≡ front ++ back → bytes ≡ size U.width front → Self.rest result ≡ back };

    /// The number of bytes still to come.
    fn left(&self) -> usize
        ensures { result ≡ size U.width (Self.rest self.now) };

    // It gives the units that it shows, may be called at any time, and ends.
    ghost gives: { (s : Self) (r : Option U) (t : Self) → Self.next_gives s r t → YieldsFirstBy U.unit rest s r t };

    ghost callable: { (s : Self) → Self.can_next s };

    ghost ends: { (s : Self) → IsFinite (Self.remaining s) };
}

/// The bytes of a slice, each read as it is or folded.
#[derive(Drop)]
pub struct Bytes<'a> {
    bytes: &'a [u8],
    // The number of bytes given.
    given: usize,
    // Whether each byte is folded.
    folds: bool,
}

impl<'a> Model for Bytes<'a> {
    ghost use Rattle.std.specs.Prelude.{List, ℕ, ◌≤◌, drop, length};
    ghost use Rattle.daachorse_model.specs.Folding.{as_read};

    ghost Value = { List ℕ };

    ghost view = { λ s. as_read s.folds (drop s.given s.bytes.now) };

    ghost invariant = { λ s. s.given ≤ length s.bytes.now };
}

impl<'a> Bytes<'a> {
    /// All bytes of the slice, each folded if `folds` is set.
    #[inline(always)]
    pub fn new(haystack: &'a [u8], folds: bool) -> Self
        ensures bytes { result ≡ as_read folds haystack.now }
        ensures fits { size byte_width result < 2 ^ 64 }
    {
        let _len = haystack.len();
        Bytes {
            bytes: haystack,
            given: 0,
            folds,
        }
    }

    /// The bytes still to come, as they are, and whether each is folded.
    #[inline(always)]
    pub fn unread(&self) -> (&'a [u8], bool)
        ensures { as_read result.1 result.0.now ≡ self.now }
    {
        (&self.bytes[self.given..], self.folds)
    }
}

impl<'a> Iterator for Bytes<'a> {
    ghost use Rattle.std.specs.Iterator.{YieldsFirst, item_count};

    type Item = u8;

    ghost next_gives = { YieldsFirst (λ s. s) };

    ghost remaining = { item_count (λ s. s) };

    #[inline(always)]
    fn next(&mut self) -> Option<u8> {
        if self.given == self.bytes.len() {
            return None;
        }
        let byte = self.bytes[self.given];
        self.given += 1;
        if self.folds {
            return Some(byte.folded());
        }
        Some(byte)
    }
}

impl<'a> Haystack<u8> for Bytes<'a> {
    ghost rest = { λ s. s };

    #[inline(always)]
    fn is_folded(&self) -> bool {
        self.folds
    }

    #[inline(always)]
    fn after(&self, bytes: usize) -> Self {
        Bytes {
            bytes: self.bytes,
            given: self.given + bytes,
            folds: self.folds,
        }
    }

    #[inline(always)]
    fn left(&self) -> usize {
        self.bytes.len() - self.given
    }

    ghost gives = { λ s r t h. h };

    ghost callable = { λ s. tt };

    ghost ends = { λ s. tt };
}
