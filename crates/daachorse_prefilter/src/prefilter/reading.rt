//! How a prefilter reads a haystack: as it is, or without regard to the case of ASCII letters.

ghost use Rattle.std.specs.Prelude.{◌≡◌, ◌↔◌, ◌+◌, ◌/◌, ◌%◌, ◌<◌, ◌≤◌, bit_or, ℕ, List, length, map, slice_index};
ghost use Rattle.std.specs.Str.{IsCharBoundary};

use super::pair_table::pair_of;
use daachorse_core::ascii_fold::AsciiFold;

/// A way to read bytes.
pub trait ByteReading {
    /// What is read for a byte.
    ghost as_read: { ℕ → ℕ };

    /// What is read of a text.
    ghost read: { List ℕ → List ℕ };

    /// How many pairs a scan reads in a round.
    fn pairs_in_round() -> usize
        ensures some { 1 ≤ result }
        ensures few { result ≤ 16 };

    /// Reads the byte at a place and the next, and returns the number of their pair.
    fn pair(haystack: &[u8], place: usize) -> u16
        requires { place + 1 < length haystack.now }
        ensures first { result % 256 ≡ Self.as_read (slice_index haystack.now place) }
        ensures second { result / 256 ≡ Self.as_read (slice_index haystack.now (place + 1)) };

    // Each byte is read by itself.
    ghost reads_each: { (text : List ℕ) → read text ≡ map as_read text };

    // With the bit of its case set, what is read for a byte is the byte.
    ghost same_letter: { (b : ℕ) → bit_or (as_read b % 256) 32 ≡ bit_or (b % 256) 32 };

    // Character boundaries stay where they are.
    ghost same_boundaries: { (text : List ℕ) (place : ℕ) → IsCharBoundary (read text) place ↔ IsCharBoundary text place };
}

/// Each byte as it is.
pub struct AsItIs;

/// A to Z as a to z, and each other byte as it is.
pub struct AsFolded;

impl ByteReading for AsItIs {
    ghost use Rattle.daachorse_prefilter.specs.Readings.{letter_as_it_is, reads_as_it_is, same_as_it_is};

    ghost as_read = { λ b. b };

    ghost read = { λ text. text };

    #[inline(always)]
    fn pairs_in_round() -> usize {
        16
    }

    #[inline(always)]
    fn pair(haystack: &[u8], place: usize) -> u16 {
        // As one array both bytes are loaded at once.
        let (pairs, _rest) = haystack[place..place + 2].as_chunks::<2>();
        u16::from_le_bytes(pairs[0])
    }

    ghost reads_each = { reads_as_it_is };

    ghost same_letter = { letter_as_it_is };

    ghost same_boundaries = { same_as_it_is };
}

impl ByteReading for AsFolded {
    ghost use Rattle.daachorse_model.specs.Folding.{folded, folded_unit};
    ghost use Rattle.daachorse_model.proofs.FoldLaws.{IsCharBoundary-folded};
    ghost use Rattle.daachorse_prefilter.specs.Readings.{letter_folded, reads_folded};

    ghost as_read = { folded_unit };

    ghost read = { folded };

    #[inline(always)]
    fn pairs_in_round() -> usize {
        // With sixteen the folded bytes would not all stay in registers.
        8
    }

    #[inline(always)]
    fn pair(haystack: &[u8], place: usize) -> u16 {
        pair_of(haystack[place].folded(), haystack[place + 1].folded())
    }

    ghost reads_each = { reads_folded };

    ghost same_letter = { letter_folded };

    ghost same_boundaries = { IsCharBoundary-folded };
}
