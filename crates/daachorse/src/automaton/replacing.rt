//! A haystack with its matches replaced.

ghost use Rattle.std.specs.Prelude.{◌≡◌, ◌++◌, ℕ, List, IfErr, IfOk, OnErr, OnOk};
ghost use Rattle.std.specs.Io.KnownBytes.{Appends};
ghost use Rattle.daachorse_core.specs.Refusals.{IsOutOfMemory};
ghost use Rattle.daachorse_model.specs.Folding.{as_read};
ghost use Rattle.daachorse_streams.specs.ByKind.{non_overlapping};
ghost use Rattle.daachorse_streams.specs.Replaced.{AppendsBeginning, OfReplaced, OfReplacedSoFar};
ghost use Rattle.daachorse_streams.specs.ReplacedWith.{IsReplaced, IsReplacedSoFar};

use super::AhoCorasick;
use super::gathers::Gathers;
use daachorse_core::Match;
use daachorse_core::errors::Result;
use daachorse_streams::appending::{Appending, ToWriter};
use daachorse_streams::replacing::{replace, replace_with};
use daachorse_streams::searched::Lends;
use std::alloc::Allocator;
use std::io::{self, Write};

impl<S: Drop> AhoCorasick<S> {
    /// Returns the haystack with each match replaced by what `replacement` returns for it: a vector
    /// of bytes, or a string.
    ///
    /// `replacement` also gets the part of the haystack that matched. The matches are those of
    /// [`Self::find_iter`] for [`MatchKind::Standard`](daachorse_core::MatchKind::Standard), and of
    /// [`Self::leftmost_find_iter`] for another kind. Of `ab` and `b`, both replaced by `-`, `abxb`
    /// becomes `-x-`. The rest keeps its case in any search. Fails only if an allocation fails.
    pub fn replace_all<'a, F: Fn(Match<S::Value>, S::Text) -> S::Text + Drop, B: Allocator>(
        &'a self,
        alloc: B,
        haystack: S::Text,
        replacement: F,
    ) -> Result<<S::Text as Gathers<B>>::Whole>
    where
        S: Lends<'a>,
        S::Text: Gathers<B>,
        requires callable { F.IsAlwaysCallable replacement }
        ensures ok { IfOk result (λ whole. OfReplaced S.Text.bytes (S.Text.bytes haystack) (F.post replacement) (non_overlapping (S.kind self.entry.now) S.Unit.EdgeLabel.width (S.dictionary self.entry.now) (as_read (S.folds self.entry.now) (S.units haystack)))
            (λ bytes. S.Text.gathered whole ≡ bytes)) }
        ensures err { IfErr result IsOutOfMemory }
    {
        let mut out = S::Text::nothing(alloc);
        let matches = self.matches_by_kind(haystack);
        replace::<_, _, _, _, _, _, _, F, _, <S::Text as Gathers<B>>::Whole>(
            haystack,
            matches,
            &mut out,
            replacement,
        )?;
        Ok(out)
    }

    /// Writes what [`Self::replace_all`] returns, with no memory. The writer is not flushed.
    ///
    /// Fails with the writer's first error, or with [`WriteZero`](std::io::ErrorKind::WriteZero) if
    /// it takes none of some bytes, after a prefix was written.
    pub fn replace_all_into<'a, F: Fn(Match<S::Value>, S::Text) -> S::Text + Drop, W: Write>(
        &'a self,
        haystack: S::Text,
        replacement: F,
        out: &mut W,
    ) -> io::Result<()>
    where
        S: Lends<'a>,
        requires callable { F.IsAlwaysCallable replacement }
        ensures whole { OnOk result (OfReplaced S.Text.bytes (S.Text.bytes haystack) (F.post replacement) (non_overlapping (S.kind self.entry.now) S.Unit.EdgeLabel.width (S.dictionary self.entry.now) (as_read (S.folds self.entry.now) (S.units haystack)))
            (Appends (W.contents out.old) (W.contents out.new))) }
        ensures beginning { OnErr result (OfReplacedSoFar S.Text.bytes (S.Text.bytes haystack) (F.post replacement) (non_overlapping (S.kind self.entry.now) S.Unit.EdgeLabel.width (S.dictionary self.entry.now) (as_read (S.folds self.entry.now) (S.units haystack)))
            (AppendsBeginning (W.contents out.old) (W.contents out.new))) }
    {
        let matches = self.matches_by_kind(haystack);
        replace::<_, _, _, _, _, _, _, F, W, ToWriter>(haystack, matches, out, replacement)
    }

    /// Appends the haystack to `out`, and in place of each match what `write` appends for it.
    ///
    /// `write` gets the match, the part of the haystack that matched, and the output. The matches
    /// are those of [`Self::replace_all`]. Stops at the first error, of `out` or of `write`, after
    /// the output took what comes before it. Of `ab` and `b`, each replaced by its length, `abxb`
    /// becomes `2x1`.
    pub fn replace_all_with<
        'a,
        O: Appending<S::Text, O>,
        F: FnMut(Match<S::Value>, S::Text, &mut O) -> Result<(), O::Error> + Drop,
    >(&'a self, haystack: S::Text, out: &mut O, write: F) -> Result<(), O::Error>
    where
        S: Lends<'a>,
        requires callable { F.IsAlwaysCallable write }
        ensures whole { OnOk result (IsReplaced S.Text.bytes O.taken (S.Text.bytes haystack) F.step (non_overlapping (S.kind self.entry.now) S.Unit.EdgeLabel.width (S.dictionary self.entry.now) (as_read (S.folds self.entry.now) (S.units haystack))) write out.old out.new) }
        ensures beginning { OnErr result (IsReplacedSoFar S.Text.bytes O.taken (S.Text.bytes haystack) F.step (non_overlapping (S.kind self.entry.now) S.Unit.EdgeLabel.width (S.dictionary self.entry.now) (as_read (S.folds self.entry.now) (S.units haystack))) write out.old out.new) }
    {
        let matches = self.matches_by_kind(haystack);
        replace_with::<_, _, _, _, _, _, _, O, O, F>(haystack, matches, out, write)
    }

    /// Does what [`Self::replace_all_with`] does with a writer, in as many writes as it needs. The
    /// writer is not flushed.
    pub fn replace_all_into_with<
        'a,
        W: Write,
        F: FnMut(Match<S::Value>, S::Text, &mut W) -> io::Result<()> + Drop,
    >(&'a self, haystack: S::Text, out: &mut W, write: F) -> io::Result<()>
    where
        S: Lends<'a>,
        requires callable { F.IsAlwaysCallable write }
        ensures whole { OnOk result (IsReplaced S.Text.bytes W.contents (S.Text.bytes haystack) F.step (non_overlapping (S.kind self.entry.now) S.Unit.EdgeLabel.width (S.dictionary self.entry.now) (as_read (S.folds self.entry.now) (S.units haystack))) write out.old out.new) }
        ensures beginning { OnErr result (IsReplacedSoFar S.Text.bytes W.contents (S.Text.bytes haystack) F.step (non_overlapping (S.kind self.entry.now) S.Unit.EdgeLabel.width (S.dictionary self.entry.now) (as_read (S.folds self.entry.now) (S.units haystack))) write out.old out.new) }
    {
        let matches = self.matches_by_kind(haystack);
        replace_with::<_, _, _, _, _, _, _, W, ToWriter, F>(haystack, matches, out, write)
    }
}
