//! The matches of the search that an automaton's kind names.

ghost use Rattle.std.specs.Prelude.{◌≡◌, ◌≢◌, ◌↔◌, IsTrue, [], slice_get};
ghost use Rattle.daachorse_model.specs.Folding.{as_read};
ghost use Rattle.daachorse_model.specs.Matches.{overlapping};
ghost use Rattle.daachorse_streams.specs.ByKind.{non_overlapping};
ghost use Rattle.daachorse_streams.specs.Replaced.{AreParts};

use super::AhoCorasick;
use daachorse_core::{Match, MatchKind};
use daachorse_search::find::{FindWalk, find_in};
use daachorse_search::leftmost::LeftmostMatches;
use daachorse_streams::by_kind::{MatchesByKind, first_in, first_leftmost_in};
use daachorse_streams::searched::Lends;

impl<S: Drop> AhoCorasick<S> {
    /// Returns the first match of [`Self::find_iter`] for [`MatchKind::Standard`], and of
    /// [`Self::leftmost_find_iter`] for another kind.
    ///
    /// Of `ab` and `abcd` in `xabcd`, [`MatchKind::Standard`] finds `ab` from 1 to 3, and
    /// [`MatchKind::LeftmostLongest`] `abcd` from 1 to 5.
    pub fn find<'a>(&'a self, haystack: S::Text) -> Option<Match<S::Value>>
    where
        S: Lends<'a>,
        ensures { result ≡ slice_get (non_overlapping (S.kind self.entry.now) S.Unit.EdgeLabel.width (S.dictionary self.entry.now) (as_read (S.folds self.entry.now) (S.units haystack))) 0 }
    {
        let haystack = self.searched.haystack(haystack);
        match self.match_kind() {
            MatchKind::Standard => first_in(
                self.searched.standard(),
                haystack,
                self.searched.lend_filter(),
            ),
            MatchKind::LeftmostLongest | MatchKind::LeftmostFirst => {
                first_leftmost_in(
                    self.searched.leftmost(),
                    haystack,
                    self.searched.lend_filter(),
                )
            }
        }
    }

    /// Returns whether a pattern occurs in the haystack. An empty one always does.
    pub fn is_match<'a>(&'a self, haystack: S::Text) -> bool
    where
        S: Lends<'a>,
        ensures { IsTrue result ↔ (overlapping S.Unit.EdgeLabel.width (S.dictionary self.entry.now) (as_read (S.folds self.entry.now) (S.units haystack)) ≢ []) }
    {
        self.find(haystack).is_some()
    }

    /// Finds the matches of [`Self::find_iter`] for [`MatchKind::Standard`], and of
    /// [`Self::leftmost_find_iter`] for another kind.
    #[inline(always)]
    pub fn matches_by_kind<'a>(
        &'a self,
        haystack: S::Text,
    ) -> MatchesByKind<
        S::Unit,
        S::Value,
        FindWalk<S::Value, S::Standard>,
        S::Leftmost,
        S::Haystack,
        S::Filter,
    >
    where
        S: Lends<'a>,
        ensures left { result ≡ non_overlapping (S.kind self.entry.now) S.Unit.EdgeLabel.width (S.dictionary self.entry.now) (as_read (S.folds self.entry.now) (S.units haystack)) }
        ensures parts { AreParts (S.Text.may_cut haystack) 0 result }
    {
        let units = self.searched.haystack(haystack);
        match self.match_kind() {
            MatchKind::Standard => {
                let states = self.searched.standard();
                let matches = find_in(states, units, self.searched.lend_filter());
                MatchesByKind::standard(matches)
            }
            MatchKind::LeftmostLongest | MatchKind::LeftmostFirst => {
                let states = self.searched.leftmost();
                let filter = self.searched.lend_filter();
                let matches = LeftmostMatches::with_filter(states, units, filter);
                MatchesByKind::leftmost(matches)
            }
        }
    }
}
