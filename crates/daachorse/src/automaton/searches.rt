//! The searches of an automaton, plain or with rows.

ghost use Rattle.std.specs.Prelude.{◌≡◌, ◌≢◌, [], length, take};
ghost use Rattle.std.specs.Option.{option_to_list};
ghost use Rattle.daachorse_core.specs.Seen.{units};
ghost use Rattle.daachorse_model.specs.declared.MatchKind.TheVariants.{Standard};
ghost use Rattle.daachorse_model.specs.Folding.{as_read};
ghost use Rattle.daachorse_model.specs.Leftmost.{leftmost};
ghost use Rattle.daachorse_model.specs.Matches.{matches_after, no_suffix, overlapping, standard, standard_after};
ghost use Rattle.daachorse_prefilter.specs.Asked.{BeginsAskingBoth};
ghost use Rattle.daachorse_search.specs.Beginnings.{BeginsFrom, BeginsStepping, BeginsWith};
ghost use Rattle.daachorse_search.specs.Standings.{IsFindStanding, IsOverlappingStanding};

use super::AhoCorasick;
use daachorse_search::find::{FindWalk, find_in};
use daachorse_search::find_stepper::{FindStanding, FindStepper};
use daachorse_search::leftmost::LeftmostMatches;
use daachorse_search::matches::Matches;
use daachorse_search::matches_from::MatchesFrom;
use daachorse_search::overlapping::{
    NoSuffixWalk, OverlappingWalk, find_overlapping_in, find_overlapping_no_suffix_in,
};
use daachorse_search::overlapping_stepper::{FindOverlappingStepper, OverlappingStanding};
use daachorse_streams::searched::Lends;
use daachorse_streams::sources::FromBytes;

impl<S: Drop> AhoCorasick<S> {
    /// The states as standard searches see them, for walks of a caller's own.
    #[inline(always)]
    pub fn standard<'a>(&'a self) -> S::Standard
    where
        S: Lends<'a>,
        requires { S.kind self.now ≡ Standard }
        ensures { result ≡ S.states self.entry.now }
    {
        self.searched.standard()
    }

    /// Finds non-overlapping matches in a haystack, each of which ends as early as possible.
    ///
    /// Of matches that end together it takes the longest, and of equal patterns the first
    /// registered. An empty pattern matches once at each boundary. Of `bcd`, `ab` and `a` in `abcd`
    /// it finds `a` from 0 to 1 and `bcd` from 1 to 4.
    #[inline(always)]
    pub fn find_iter<'a>(
        &'a self,
        haystack: S::Text,
    ) -> Matches<S::Value, FindWalk<S::Value, S::Standard>, S::Haystack, S::Filter>
    where
        S: Lends<'a>,
        requires { S.kind self.now ≡ Standard }
        ensures begins { BeginsWith (S.states self.entry.now) (as_read (S.folds self.entry.now) (S.units haystack))
            (standard S.Unit.EdgeLabel.width (S.dictionary self.entry.now) (as_read (S.folds self.entry.now) (S.units haystack))) result }
        ensures asks { BeginsAskingBoth (S.buckets self.entry.now) (S.filter self.entry.now) (S.asked result.filter) }
    {
        find_in(
            self.searched.standard(),
            self.searched.haystack(haystack),
            self.searched.lend_filter(),
        )
    }

    /// Finds the matches of [`Self::find_iter`] in the haystack whose bytes `haystack` yields, each
    /// before a byte past its end is taken. Places count from where the source stands.
    #[inline(always)]
    pub fn find_iter_from_iter<'a, P: Iterator<Item = u8>>(
        &'a self,
        haystack: P,
    ) -> MatchesFrom<S::Value, FindWalk<S::Value, S::Standard>, <S::Unit as FromBytes<P>>::Source>
    where
        S: Lends<'a>,
        S::Unit: FromBytes<P>,
        requires { S.kind self.now ≡ Standard }
        ensures { BeginsFrom (S.states self.entry.now) (S.Unit.of_bytes haystack)
            (option_to_list (standard_after S.Unit.EdgeLabel.width (S.dictionary self.entry.now) [])) (S.folds self.entry.now) result }
    {
        MatchesFrom::new(
            FindWalk::new(self.searched.standard()),
            S::Unit::from_bytes(haystack),
            self.searched.is_ascii_case_insensitive(),
        )
    }

    /// Finds every match in a haystack, by rising ends; they may overlap.
    ///
    /// Of matches that end together the longest comes first, and equal patterns come in order of
    /// registration. Of `bcd`, `ab` and `a` in `abcd` it finds `a` from 0 to 1, `ab` from 0 to 2
    /// and `bcd` from 1 to 4.
    #[inline(always)]
    pub fn find_overlapping_iter<'a>(
        &'a self,
        haystack: S::Text,
    ) -> Matches<S::Value, OverlappingWalk<S::Value, S::Standard>, S::Haystack, S::Filter>
    where
        S: Lends<'a>,
        requires { S.kind self.now ≡ Standard }
        ensures begins { BeginsWith (S.states self.entry.now) (as_read (S.folds self.entry.now) (S.units haystack))
            (overlapping S.Unit.EdgeLabel.width (S.dictionary self.entry.now) (as_read (S.folds self.entry.now) (S.units haystack))) result }
        ensures asks { BeginsAskingBoth (S.buckets self.entry.now) (S.filter self.entry.now) (S.asked result.filter) }
    {
        find_overlapping_in(
            self.searched.standard(),
            self.searched.haystack(haystack),
            self.searched.lend_filter(),
        )
    }

    /// Finds the matches of [`Self::find_overlapping_iter`] in the haystack whose bytes `haystack`
    /// yields, each before a byte past its end is taken. Places count from where the source stands.
    #[inline(always)]
    pub fn find_overlapping_iter_from_iter<'a, P: Iterator<Item = u8>>(
        &'a self,
        haystack: P,
    ) -> MatchesFrom<
        S::Value,
        OverlappingWalk<S::Value, S::Standard>,
        <S::Unit as FromBytes<P>>::Source,
    >
    where
        S: Lends<'a>,
        S::Unit: FromBytes<P>,
        requires { S.kind self.now ≡ Standard }
        ensures { BeginsFrom (S.states self.entry.now) (S.Unit.of_bytes haystack)
            (matches_after S.Unit.EdgeLabel.width (S.dictionary self.entry.now) []) (S.folds self.entry.now) result }
    {
        MatchesFrom::new(
            OverlappingWalk::new(self.searched.standard()),
            S::Unit::from_bytes(haystack),
            self.searched.is_ascii_case_insensitive(),
        )
    }

    /// Finds the longest match at each end in a haystack, by rising ends; they may overlap.
    ///
    /// Of equal patterns it takes the first registered. Of `abcd`, `cd` and `bc` in `abcd` it finds
    /// `bc` from 1 to 3 and `abcd` from 0 to 4, but not `cd`.
    #[inline(always)]
    pub fn find_overlapping_no_suffix_iter<'a>(
        &'a self,
        haystack: S::Text,
    ) -> Matches<S::Value, NoSuffixWalk<S::Value, S::Standard>, S::Haystack, S::Filter>
    where
        S: Lends<'a>,
        requires { S.kind self.now ≡ Standard }
        ensures begins { BeginsWith (S.states self.entry.now) (as_read (S.folds self.entry.now) (S.units haystack))
            (no_suffix S.Unit.EdgeLabel.width (S.dictionary self.entry.now) (as_read (S.folds self.entry.now) (S.units haystack))) result }
        ensures asks { BeginsAskingBoth (S.buckets self.entry.now) (S.filter self.entry.now) (S.asked result.filter) }
    {
        find_overlapping_no_suffix_in(
            self.searched.standard(),
            self.searched.haystack(haystack),
            self.searched.lend_filter(),
        )
    }

    /// Finds the matches of [`Self::find_overlapping_no_suffix_iter`] in the haystack whose bytes
    /// `haystack` yields, each before a byte past its end is taken. Places count from where the
    /// source stands.
    #[inline(always)]
    pub fn find_overlapping_no_suffix_iter_from_iter<'a, P: Iterator<Item = u8>>(
        &'a self,
        haystack: P,
    ) -> MatchesFrom<
        S::Value,
        NoSuffixWalk<S::Value, S::Standard>,
        <S::Unit as FromBytes<P>>::Source,
    >
    where
        S: Lends<'a>,
        S::Unit: FromBytes<P>,
        requires { S.kind self.now ≡ Standard }
        ensures { BeginsFrom (S.states self.entry.now) (S.Unit.of_bytes haystack)
            (take 1 (matches_after S.Unit.EdgeLabel.width (S.dictionary self.entry.now) [])) (S.folds self.entry.now) result }
    {
        MatchesFrom::new(
            NoSuffixWalk::new(self.searched.standard()),
            S::Unit::from_bytes(haystack),
            self.searched.is_ascii_case_insensitive(),
        )
    }

    /// Finds non-overlapping matches in a haystack, each of which starts as early as possible.
    ///
    /// Of matches that start together [`MatchKind::LeftmostFirst`] takes the first registered, and
    /// [`MatchKind::LeftmostLongest`] the longest, of equal patterns the first registered. Of `ab`,
    /// `a` and `abcd` in `abcd` these are `ab` and `abcd`. No empty match comes right after a
    /// nonempty one. It takes at most two turns for each unit passed, and for each match four for
    /// each unit of the longest pattern.
    #[inline(always)]
    pub fn leftmost_find_iter<'a>(
        &'a self,
        haystack: S::Text,
    ) -> LeftmostMatches<S::Value, S::Leftmost, S::Haystack, S::Filter>
    where
        S: Lends<'a>,
        requires { S.kind self.now ≢ Standard }
        ensures begins { BeginsWith (S.leftmost_states self.entry.now) (as_read (S.folds self.entry.now) (S.units haystack))
            (leftmost S.Unit.EdgeLabel.width (S.dictionary self.entry.now) (as_read (S.folds self.entry.now) (S.units haystack))) result }
        ensures asks { BeginsAskingBoth (S.buckets self.entry.now) (S.filter self.entry.now) (S.asked result.filter) }
    {
        LeftmostMatches::with_filter(
            self.searched.leftmost(),
            self.searched.haystack(haystack),
            self.searched.lend_filter(),
        )
    }

    /// Starts the search of [`Self::find_iter`], to be given one unit at a time.
    #[inline(always)]
    pub fn find_stepper<'a>(&'a self) -> FindStepper<'a, S::Value, S::Standard>
    where
        S: Lends<'a>,
        requires { S.kind self.now ≡ Standard }
        ensures { BeginsStepping (S.states self.entry.now) (S.depths self.entry.now) (S.folds self.entry.now)
            (option_to_list (standard_after S.Unit.EdgeLabel.width (S.dictionary self.entry.now) [])) result }
    {
        let walk = FindWalk::new(self.searched.standard());
        FindStepper::new(
            walk,
            self.searched.depths(),
            self.searched.is_ascii_case_insensitive(),
        )
    }

    /// Starts the search of [`Self::find_overlapping_iter`], to be given one unit at a time.
    #[inline(always)]
    pub fn find_overlapping_stepper<'a>(
        &'a self,
    ) -> FindOverlappingStepper<'a, S::Value, S::Standard>
    where
        S: Lends<'a>,
        requires { S.kind self.now ≡ Standard }
        ensures { BeginsStepping (S.states self.entry.now) (S.depths self.entry.now) (S.folds self.entry.now)
            (matches_after S.Unit.EdgeLabel.width (S.dictionary self.entry.now) []) result }
    {
        let walk = OverlappingWalk::new(self.searched.standard());
        FindOverlappingStepper::new(
            walk,
            self.searched.depths(),
            self.searched.is_ascii_case_insensitive(),
        )
    }

    /// Resumes a search of [`Self::find_stepper`] over this automaton. Places still count from the
    /// beginning of the whole haystack.
    #[inline(always)]
    pub fn resume_find_stepper<'a>(
        &'a self,
        standing: FindStanding,
    ) -> FindStepper<'a, S::Value, S::Standard>
    where
        S: Lends<'a>,
        requires kind { S.kind self.now ≡ Standard }
        requires stands { IsFindStanding S.Unit.EdgeLabel.width S.Standard.sees (S.states self.now) standing }
        ensures automaton { result.automaton ≡ S.states self.entry.now }
        ensures depths { result.depths ≡ S.depths self.entry.now }
        ensures folds { result.folds ≡ S.folds self.entry.now }
        ensures read { result.read ≡ units standing.walk.seen }
        ensures turns { result.turns ≡ standing.walk.turns }
        ensures given { result.given ≡ length (standard S.Unit.EdgeLabel.width (S.dictionary self.entry.now) (units standing.walk.seen)) }
    {
        FindStepper::resume(
            self.searched.standard(),
            self.searched.depths(),
            standing,
            self.searched.is_ascii_case_insensitive(),
        )
    }

    /// Resumes a search of [`Self::find_overlapping_stepper`] over this automaton. Places still
    /// count from the beginning of the whole haystack.
    #[inline(always)]
    pub fn resume_find_overlapping_stepper<'a>(
        &'a self,
        standing: OverlappingStanding,
    ) -> FindOverlappingStepper<'a, S::Value, S::Standard>
    where
        S: Lends<'a>,
        requires kind { S.kind self.now ≡ Standard }
        requires stands { IsOverlappingStanding S.Unit.EdgeLabel.width S.Standard.sees (S.states self.now) standing }
        ensures automaton { result.automaton ≡ S.states self.entry.now }
        ensures depths { result.depths ≡ S.depths self.entry.now }
        ensures folds { result.folds ≡ S.folds self.entry.now }
        ensures read { result.read ≡ units standing.walk.seen }
        ensures turns { result.turns ≡ standing.walk.turns }
        ensures given { result.given ≡ length (overlapping S.Unit.EdgeLabel.width (S.dictionary self.entry.now) (units standing.walk.seen)) }
    {
        FindOverlappingStepper::resume(
            self.searched.standard(),
            self.searched.depths(),
            standing,
            self.searched.is_ascii_case_insensitive(),
        )
    }
}
