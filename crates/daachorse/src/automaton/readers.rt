//! Searches of what a reader gives.
//!
//! Each match is given as soon as its last byte was read. If the reader fails, gives what is no
//! UTF-8 to a search over characters, or a place would exceed a `usize`, that error comes after the
//! matches before it, and then nothing. A read that was interrupted is tried again.

ghost use Rattle.std.specs.Prelude.{◌≡◌, [], IsSomeAnd, take};
ghost use Rattle.std.specs.Option.{option_to_list};
ghost use Rattle.daachorse_model.specs.declared.MatchKind.TheVariants.{Standard};
ghost use Rattle.daachorse_model.specs.Matches.{matches_after, standard_after};
ghost use Rattle.daachorse_search.specs.Beginnings.{BeginsFrom};

use super::AhoCorasick;
use daachorse_search::find::FindWalk;
use daachorse_search::matches_from_reader::MatchesFromReader;
use daachorse_search::overlapping::{NoSuffixWalk, OverlappingWalk};
use daachorse_streams::searched::Lends;
use daachorse_streams::sources::FromReader;
use std::io::BufRead;

impl<S: Drop> AhoCorasick<S> {
    /// Finds the matches of [`Self::find_iter`] in what a reader gives, and takes no memory. Places
    /// count from where the reader stands.
    #[inline(always)]
    pub fn find_iter_from_reader<'a, R: BufRead + Drop>(
        &'a self,
        reader: R,
    ) -> MatchesFromReader<
        S::Value,
        FindWalk<S::Value, S::Standard>,
        <S::Unit as FromReader<R>>::Source,
    >
    where
        S: Lends<'a>,
        S::Unit: FromReader<R>,
        requires { S.kind self.now ≡ Standard }
        ensures { IsSomeAnd result (BeginsFrom (S.states self.entry.now) (S.Unit.of_reader reader)
            (option_to_list (standard_after S.Unit.EdgeLabel.width (S.dictionary self.entry.now) [])) (S.folds self.entry.now)) }
    {
        MatchesFromReader::new(
            FindWalk::new(self.searched.standard()),
            S::Unit::from_reader(reader),
            self.searched.is_ascii_case_insensitive(),
        )
    }

    /// Finds the matches of [`Self::find_overlapping_iter`] in what a reader gives, and takes no
    /// memory. Places count from where the reader stands.
    #[inline(always)]
    pub fn find_overlapping_iter_from_reader<'a, R: BufRead + Drop>(
        &'a self,
        reader: R,
    ) -> MatchesFromReader<
        S::Value,
        OverlappingWalk<S::Value, S::Standard>,
        <S::Unit as FromReader<R>>::Source,
    >
    where
        S: Lends<'a>,
        S::Unit: FromReader<R>,
        requires { S.kind self.now ≡ Standard }
        ensures { IsSomeAnd result (BeginsFrom (S.states self.entry.now) (S.Unit.of_reader reader)
            (matches_after S.Unit.EdgeLabel.width (S.dictionary self.entry.now) []) (S.folds self.entry.now)) }
    {
        MatchesFromReader::new(
            OverlappingWalk::new(self.searched.standard()),
            S::Unit::from_reader(reader),
            self.searched.is_ascii_case_insensitive(),
        )
    }

    /// Finds the matches of [`Self::find_overlapping_no_suffix_iter`] in what a reader gives, and
    /// takes no memory. Places count from where the reader stands.
    #[inline(always)]
    pub fn find_overlapping_no_suffix_iter_from_reader<'a, R: BufRead + Drop>(
        &'a self,
        reader: R,
    ) -> MatchesFromReader<
        S::Value,
        NoSuffixWalk<S::Value, S::Standard>,
        <S::Unit as FromReader<R>>::Source,
    >
    where
        S: Lends<'a>,
        S::Unit: FromReader<R>,
        requires { S.kind self.now ≡ Standard }
        ensures { IsSomeAnd result (BeginsFrom (S.states self.entry.now) (S.Unit.of_reader reader)
            (take 1 (matches_after S.Unit.EdgeLabel.width (S.dictionary self.entry.now) [])) (S.folds self.entry.now)) }
    {
        MatchesFromReader::new(
            NoSuffixWalk::new(self.searched.standard()),
            S::Unit::from_reader(reader),
            self.searched.is_ascii_case_insensitive(),
        )
    }
}
