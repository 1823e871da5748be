//! Leftmost matches in what is given unit by unit, each as soon as it is certain.

ghost use Rattle.std.specs.Prelude.{◌≡◌, ◌≢◌, IfErr, IfOk, Some, false};
ghost use Rattle.std.specs.IoError.{error_kind};
ghost use Rattle.std.specs.declared.io.ErrorKind.TheVariants.{OutOfMemory};
ghost use Rattle.daachorse_core.specs.Refusals.{IsOutOfMemory};
ghost use Rattle.daachorse_model.specs.declared.MatchKind.TheVariants.{Standard};
ghost use Rattle.daachorse_streams.specs.Marked.{BeginsStreaming, IsMarkedFor};
ghost use Rattle.daachorse_streams.specs.Standings.{IsLeftmostStanding, streamed_by};

use super::AhoCorasick;
use daachorse_core::errors::Result;
use daachorse_streams::leftmost_from_reader::LeftmostFromReader;
use daachorse_streams::leftmost_standing::LeftmostStanding;
use daachorse_streams::leftmost_stream::LeftmostStream;
use daachorse_streams::searched::{Lends, Searched};
use daachorse_streams::sources::FromReader;
use daachorse_streams::stream_marks::StreamMarks;
use std::alloc::Allocator;
use std::io::{self, BufRead};

impl<S: Drop> AhoCorasick<S> {
    /// Makes what leftmost streams over this automaton share: a byte for each state, and the length
    /// of the longest pattern.
    ///
    /// It takes time linear in the automaton's size, and fails only if an allocation fails.
    pub fn stream_marks(&self, alloc: S::Alloc) -> Result<StreamMarks<S::Alloc>>
    where
        S: Searched,
        ensures ok { IfOk result (IsMarkedFor S.Unit.EdgeLabel.width (S.view self.now)) }
        ensures err { IfErr result IsOutOfMemory }
    {
        self.searched.stream_marks(alloc)
    }

    /// Starts the search of [`Self::leftmost_find_iter`], to be given one unit at a time.
    ///
    /// Each match is given as soon as no unit that follows can change it: of `ab` and `abcd`, the
    /// match `ab` in `abce` is given after the `e`. It holds as many units as the longest pattern
    /// has, for which it allocates here and then never.
    ///
    /// # Conditions
    /// The automaton is no [`MatchKind::Standard`] one, and the marks are those that it made.
    ///
    /// [`MatchKind::Standard`]: daachorse_core::MatchKind::Standard
    pub fn leftmost_stream<'a, B: Allocator, C: Allocator>(
        &'a self,
        alloc: B,
        marks: &'a StreamMarks<C>,
    ) -> Result<LeftmostStream<'a, S::Value, S::Marked, B>>
    where
        S: Lends<'a>,
        requires kind { S.kind self.now ≢ Standard }
        requires marks { IsMarkedFor S.Unit.EdgeLabel.width (S.view self.now) marks.now }
        ensures ok { IfOk result (BeginsStreaming (S.marked_states self.entry.now) (S.folds self.entry.now)) }
        ensures content { IfOk result (λ stream. (S.Marked.sees stream.automaton).content ≡ S.dictionary self.entry.now) }
        ensures err { IfErr result IsOutOfMemory }
    {
        let states = self.searched.marked();
        let stream = LeftmostStream::new(
            alloc,
            states,
            marks,
            self.searched.is_ascii_case_insensitive(),
        )?;
        Ok(stream)
    }

    /// Resumes a search of [`Self::leftmost_stream`] over this automaton. Places still count from
    /// the beginning of the whole haystack.
    ///
    /// # Conditions
    /// As of [`Self::leftmost_stream`], and the search stood in this automaton.
    pub fn resume_leftmost_stream<'a, B: Allocator, C: Allocator>(
        &'a self,
        marks: &'a StreamMarks<C>,
        standing: LeftmostStanding<S::Unit, B>,
    ) -> LeftmostStream<'a, S::Value, S::Marked, B>
    where
        S: Lends<'a>,
        requires kind { S.kind self.now ≢ Standard }
        requires marks { IsMarkedFor S.Unit.EdgeLabel.width (S.view self.now) marks.now }
        requires stands { IsLeftmostStanding S.Unit.EdgeLabel.width S.Marked.sees (S.marked_states self.now) S.Unit.EdgeLabel.unit standing }
        ensures { result ≡ streamed_by S.Unit.EdgeLabel.width S.Marked.sees (S.marked_states self.entry.now) (S.folds self.entry.now) standing }
    {
        let states = self.searched.marked();
        LeftmostStream::resume(
            states,
            marks,
            self.searched.is_ascii_case_insensitive(),
            standing,
        )
    }

    /// Finds the matches of [`Self::leftmost_find_iter`] in what a reader gives, each as soon as it
    /// is certain. So a call reads past a match that could be longer.
    ///
    /// It allocates here and then never. If the reader fails, that error comes after the matches
    /// that are certain, and then nothing. Places count from where the reader stands.
    ///
    /// # Conditions
    /// As of [`Self::leftmost_stream`].
    pub fn leftmost_stream_from_reader<'a, R: BufRead + Drop, B: Allocator, C: Allocator>(
        &'a self,
        alloc: B,
        marks: &'a StreamMarks<C>,
        reader: R,
    ) -> io::Result<
        LeftmostFromReader<
            'a,
            S::Value,
            S::Marked,
            B,
            <S::Unit as FromReader<R>>::Source,
            S::Alloc,
        >,
    >
    where
        S: Lends<'a>,
        S::Unit: FromReader<R>,
        requires kind { S.kind self.now ≢ Standard }
        requires marks { IsMarkedFor S.Unit.EdgeLabel.width (S.view self.now) marks.now }
        ensures ok { IfOk result (λ search. BeginsStreaming (S.marked_states self.entry.now) (S.folds self.entry.now) search.stream
            × (search.source ≡ Some (S.Unit.of_reader reader)) × (search.over ≡ false)) }
        ensures err { IfErr result (λ e. error_kind e ≡ OutOfMemory) }
    {
        let stream = self.leftmost_stream(alloc, marks)?;
        let source = S::Unit::from_reader(reader);
        Ok(LeftmostFromReader::new(stream, source, self.searched.skipping()))
    }
}
