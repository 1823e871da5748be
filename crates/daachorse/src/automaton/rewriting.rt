//! What a reader gives with its matches replaced.

ghost use Rattle.std.specs.Prelude.{◌≡◌, ◌≢◌};
ghost use Rattle.daachorse_model.specs.declared.MatchKind.TheVariants.{Standard};
ghost use Rattle.daachorse_model.specs.Folding.{as_read};
ghost use Rattle.daachorse_streams.specs.ByKind.{non_overlapping};
ghost use Rattle.daachorse_streams.specs.Streams.{HasNoLonger, ReplacesRead};

use super::AhoCorasick;
use daachorse_core::{Match, MatchKind};
use daachorse_search::reader::in_blocks;
use daachorse_streams::replacing_leftmost::replace_leftmost_skipping;
use daachorse_streams::replacing_standard::replace_from;
use daachorse_streams::searched::Lends;
use daachorse_streams::sources::FromReader;
use std::alloc::Allocator;
use std::io::{self, BufReader, Read, Write};

impl<S: Drop> AhoCorasick<S> {
    /// Writes what a reader gives, and in place of each match what `write` writes for it.
    ///
    /// `write` gets the match, the bytes that matched, and the writer. The matches are those of
    /// [`Self::replace_all`]. Of `ab` and `b`, each replaced by its length, `abxb` becomes `2x1`.
    ///
    /// It holds at most as many bytes as the longest pattern has, and two blocks of 64 KiB. For
    /// leftmost matches it also holds as many units, and what [`Self::stream_marks`] makes. It finds
    /// the longest first, in time linear in the automaton's size.
    ///
    /// Stops at the first error, of the reader, of the writer, of `write` or of an allocation, and
    /// over characters at bytes that are no UTF-8 with [`InvalidData`](io::ErrorKind::InvalidData).
    /// The writer then has a beginning of what it was to get, whatever would have been read next. A
    /// read that was interrupted is tried again. The writer is not flushed.
    pub fn replace_all_from_reader<
        'a,
        R: Read + Drop,
        O: Write,
        F: FnMut(Match<S::Value>, &[u8], &mut O) -> io::Result<()> + Drop,
        B: Allocator + Copy,
    >(&'a self, alloc: B, reader: R, out: &mut O, write: F) -> io::Result<()>
    where
        S: Lends<'a>,
        S::Unit: FromReader<BufReader<R, B>>,
        requires callable { F.IsAlwaysCallable write }
        ensures { ReplacesRead (λ s. s.now) O.contents F.step S.Unit.FromReader.is_unit S.Unit.FromReader.encoded (R.remaining reader)
            (λ units. non_overlapping (S.kind self.entry.now) S.Unit.EdgeLabel.width (S.dictionary self.entry.now) (as_read (S.folds self.entry.now) units)) (HasNoLonger S.Unit.EdgeLabel.width (S.dictionary self.entry.now)) result write out.old out.new }
    {
        match self.match_kind() {
            MatchKind::Standard => self.replace_standard(alloc, reader, out, write),
            MatchKind::LeftmostLongest | MatchKind::LeftmostFirst => {
                self.replace_leftmost(alloc, reader, out, write)
            }
        }
    }

    /// [`Self::replace_all_from_reader`] for standard matches.
    fn replace_standard<
        'a,
        R: Read + Drop,
        O: Write,
        F: FnMut(Match<S::Value>, &[u8], &mut O) -> io::Result<()> + Drop,
        B: Allocator + Copy,
    >(&'a self, alloc: B, reader: R, out: &mut O, write: F) -> io::Result<()>
    where
        S: Lends<'a>,
        S::Unit: FromReader<BufReader<R, B>>,
        requires kind { S.kind self.now ≡ Standard }
        requires callable { F.IsAlwaysCallable write }
        ensures { ReplacesRead (λ s. s.now) O.contents F.step S.Unit.FromReader.is_unit S.Unit.FromReader.encoded (R.remaining reader)
            (λ units. non_overlapping (S.kind self.entry.now) S.Unit.EdgeLabel.width (S.dictionary self.entry.now) (as_read (S.folds self.entry.now) units)) (HasNoLonger S.Unit.EdgeLabel.width (S.dictionary self.entry.now)) result write out.old out.new }
    {
        let longest = self.searched.longest_pattern()?;
        let source = S::Unit::from_reader(in_blocks(alloc, reader)?);
        replace_from(
            self.searched.standard(),
            self.is_ascii_case_insensitive(),
            source,
            longest,
            alloc,
            out,
            write,
        )
    }

    /// [`Self::replace_all_from_reader`] for leftmost matches.
    fn replace_leftmost<
        'a,
        R: Read + Drop,
        O: Write,
        F: FnMut(Match<S::Value>, &[u8], &mut O) -> io::Result<()> + Drop,
        B: Allocator + Copy,
    >(&'a self, alloc: B, reader: R, out: &mut O, write: F) -> io::Result<()>
    where
        S: Lends<'a>,
        S::Unit: FromReader<BufReader<R, B>>,
        requires kind { S.kind self.now ≢ Standard }
        requires callable { F.IsAlwaysCallable write }
        ensures { ReplacesRead (λ s. s.now) O.contents F.step S.Unit.FromReader.is_unit S.Unit.FromReader.encoded (R.remaining reader)
            (λ units. non_overlapping (S.kind self.entry.now) S.Unit.EdgeLabel.width (S.dictionary self.entry.now) (as_read (S.folds self.entry.now) units)) (HasNoLonger S.Unit.EdgeLabel.width (S.dictionary self.entry.now)) result write out.old out.new }
    {
        let marks = self.searched.stream_marks(self.searched.allocator())?;
        let source = S::Unit::from_reader(in_blocks(alloc, reader)?);
        let states = self.searched.marked();
        replace_leftmost_skipping(
            states,
            &marks,
            self.is_ascii_case_insensitive(),
            source,
            self.searched.skipping(),
            alloc,
            out,
            write,
        )
    }
}
