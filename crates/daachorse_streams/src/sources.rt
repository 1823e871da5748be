//! What gives the units of a haystack that is known only as it is read.

ghost use Rattle.std.specs.Prelude.{◌≡◌, ℕ, All, List, None, Option, [], flat_map, map};
ghost use Rattle.std.specs.Io.KnownBytes.{Consumes, IsAtEnd};
ghost use Rattle.std.specs.Iterator.{Yields};

use crate::block_source::{BlockSource, BlockUnit};
use daachorse_core::ascii_fold::AsciiFold;
use daachorse_haystack::decoding::Decoded;
use daachorse_haystack::source::{Bytes, Source};
use daachorse_search::read_chars::ReadChars;
use daachorse_search::reader::ReadBytes;
use std::io::BufRead;

/// A unit that an iterator over bytes gives.
pub trait FromBytes<P: Iterator<Item = u8>>: AsciiFold {
    /// What gives the units.
    type Source: Source<Self>;

    /// The units of these bytes.
    ghost of_bytes: { P → Self.Source };

    /// The units of the bytes that the iterator still gives.
    fn from_bytes(bytes: P) -> Self::Source
        ensures { result ≡ of_bytes bytes };
}

impl<P: Iterator<Item = u8>> FromBytes<P> for u8 {
    type Source = Bytes<P>;

    ghost of_bytes = { λ bytes. bytes };

    #[inline(always)]
    fn from_bytes(bytes: P) -> Bytes<P> {
        Bytes::new(bytes)
    }
}

impl<P: Iterator<Item = u8>> FromBytes<P> for char {
    type Source = Decoded<P>;

    ghost of_bytes = { λ bytes. bytes };

    #[inline(always)]
    fn from_bytes(bytes: P) -> Decoded<P> {
        Decoded::new(bytes)
    }
}

/// A unit that a reader gives.
pub trait FromReader<R: BufRead + Drop>: BlockUnit {
    /// What gives the units.
    type Source: BlockSource<Self>;

    /// The units of what this reader gives.
    ghost of_reader: { R → Self.Source };

    /// What such a source has left of the reader's bytes, if that is known.
    ghost known: { Self.Source → Option (List ℕ) };

    /// Whether a number is a unit that a reader gives.
    ghost is_unit: { ℕ → Type 0 };

    /// The bytes of units.
    ghost encoded: { List ℕ → List ℕ };

    /// The label of a unit.
    ghost of_unit: { ℕ → Self };

    /// The units of what the reader still gives.
    fn from_reader(reader: R) -> Self::Source
        ensures reads { result ≡ of_reader reader }
        ensures may { Self.Source.Source.may_read result [] };

    // No unit has no byte, and others have those of their labels.
    ghost silent: { encoded [] ≡ [] };

    ghost covers: { (u : ℕ) → Self.EdgeLabel.unit (of_unit u) ≡ u };

    ghost spells: { (labels : List Self) → flat_map Self.EdgeLabel.form labels ≡ encoded (map Self.EdgeLabel.unit labels) };

    // The units that the source gives have the bytes that the reader gave.
    ghost starts: { (reader : R) → known (of_reader reader) ≡ R.remaining reader };

    ghost took: { (s : Self.Source) (labels : List Self) (t : Self.Source) → Yields Self.Source.next_gives s labels t
        → All is_unit (map Self.EdgeLabel.unit labels) × Consumes (known s) (known t) (encoded (map Self.EdgeLabel.unit labels)) };

    ghost ends: { (s t : Self.Source) → Self.Source.next_gives s None t → Self.Source.failure t ≡ None → IsAtEnd (known s) };
}

impl<R: BufRead + Drop> FromReader<R> for u8 {
    ghost use Rattle.std.specs.Prelude.{⊤, refl};
    ghost use Rattle.daachorse_search.specs.Readers.{to_give, to_read};
    ghost use Rattle.daachorse_streams.specs.SourceLaws.{bytes_end, bytes_spell, bytes_taken};

    type Source = ReadBytes<R>;

    ghost of_reader = { to_read };

    ghost known = { to_give R.remaining };

    ghost is_unit = { λ byte. ⊤ };

    ghost encoded = { λ bytes. bytes };

    ghost of_unit = { λ byte. byte };

    #[inline(always)]
    fn from_reader(reader: R) -> ReadBytes<R> {
        ReadBytes::new(reader)
    }

    ghost silent = { refl };

    ghost covers = { λ u. refl };

    ghost spells = { bytes_spell };

    ghost starts = { λ reader. refl };

    ghost took = { bytes_taken R.remaining };

    ghost ends = { bytes_end R.remaining };
}

impl<R: BufRead + Drop> FromReader<R> for char {
    ghost use Rattle.std.specs.Prelude.{encode_utf8_all, refl};
    ghost use Rattle.std.specs.Char.{IsScalar};
    ghost use Rattle.daachorse_search.specs.Readers.{to_give, to_read};
    ghost use Rattle.daachorse_streams.specs.SourceLaws.{characters_end, characters_spell, characters_taken};

    type Source = ReadChars<R>;

    ghost of_reader = { to_read };

    ghost known = { to_give R.remaining };

    ghost is_unit = { IsScalar };

    ghost encoded = { encode_utf8_all };

    ghost of_unit = { λ character. character };

    #[inline(always)]
    fn from_reader(reader: R) -> ReadChars<R> {
        ReadChars::new(reader)
    }

    ghost silent = { refl };

    ghost covers = { λ u. refl };

    ghost spells = { characters_spell };

    ghost starts = { λ reader. refl };

    ghost took = { characters_taken R.remaining };

    ghost ends = { characters_end R.remaining };
}
