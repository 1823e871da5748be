//! Searches that go on from a place, for matches that do not overlap.

ghost use Rattle.std.specs.Prelude.{◌≡◌, ◌≢◌, ◌↔◌, ◌≤◌, [], ◌∷◌, false, true, IfNone, IfSome, IsTrue, drop, length, slice_get};
ghost use Rattle.daachorse_model.specs.declared.MatchKind.TheVariants.{Standard};
ghost use Rattle.daachorse_streams.specs.ByKind.{non_overlapping};
ghost use Rattle.daachorse_c.specs.Automata.{dictionary_of, kind_of, text_read, width_of};
ghost use Rattle.daachorse_c.specs.Held.{haystack_of, searched};
ghost use Rattle.daachorse_c.specs.Places.{IsBehind, IsPlaceIn, IsStep, StandsAfter, afresh, left_of};
ghost use Rattle.daachorse_c.specs.Writes.{Writes};

use crate::found::CMatch;
use crate::place::Place;
use crate::searching::Search;
use daachorse::Match;

impl<'a> Search<'a> {
    /// Writes the matches from the place on, as many as there is room for, and moves the place
    /// after the last one. Returns their number.
    pub(crate) fn find_on(&self, place: &mut Place, out: &mut [CMatch]) -> usize
        requires { IsPlaceIn (searched self.now) (haystack_of self.now) place.old.at }
        ensures writes { Writes (left_of (searched self.now) (haystack_of self.now) place.old) out.old out.new result }
        ensures left { left_of (searched self.now) (haystack_of self.now) place.new ≡ drop result (left_of (searched self.now) (haystack_of self.now) place.old) }
        ensures stands { StandsAfter (searched self.now) (haystack_of self.now) place.old place.new (length out.old) result }
    {
        let mut written = 0;
        while written < out.len() {
            let Some(found) = self.next_match(place) else {
                return written;
            };
            out[written] = CMatch::of(found);
            written += 1;
        }
        written
    }

    /// Returns the next match, and moves the place after it.
    pub(crate) fn next_match(&self, place: &mut Place) -> Option<Match<u32>>
        requires { IsPlaceIn (searched self.now) (haystack_of self.now) place.old.at }
        ensures within { IsPlaceIn (searched self.now) (haystack_of self.now) place.new.at }
        ensures none { IfNone result ((left_of (searched self.now) (haystack_of self.now) place.old ≡ []) × (left_of (searched self.now) (haystack_of self.now) place.new ≡ [])) }
        ensures over { IfNone result (place.new.over ≡ true) }
        ensures some { IfSome result (λ m. left_of (searched self.now) (haystack_of self.now) place.old ≡ m ∷ left_of (searched self.now) (haystack_of self.now) place.new) }
        ensures behind { IfSome result (λ m. IsBehind (searched self.now) (haystack_of self.now) m place.new) }
    {
        let at = place.at;
        let after = place.after;
        let Some(found) = self.pass_first(place) else {
            return None;
        };
        if self.leaves_out(found, at, after) {
            return self.pass_first(place);
        }
        Some(found)
    }

    /// Whether the match is an empty leftmost one right after a nonempty one, which is left out.
    fn leaves_out(&self, found: Match<u32>, at: usize, after: bool) -> bool
        ensures { IsTrue result ↔ ((after ≡ true) × (found.end ≡ at) × (kind_of (searched self.now) ≢ Standard)) }
    {
        after && found.end == at && !self.match_kind().is_standard()
    }

    /// Does this as if no match ended at the place.
    fn pass_first(&self, place: &mut Place) -> Option<Match<u32>>
        requires { IsPlaceIn (searched self.now) (haystack_of self.now) place.old.at }
        ensures within { IsPlaceIn (searched self.now) (haystack_of self.now) place.new.at }
        ensures none { IfNone result ((left_of (searched self.now) (haystack_of self.now) (afresh place.old) ≡ []) × (place.new.over ≡ true)) }
        ensures some { IfSome result (λ m. left_of (searched self.now) (haystack_of self.now) (afresh place.old) ≡ m ∷ left_of (searched self.now) (haystack_of self.now) place.new) }
        ensures behind { IfSome result (λ m. IsBehind (searched self.now) (haystack_of self.now) m place.new) }
        ensures end { IfSome result (λ m. place.old.at ≤ m.end) }
        ensures clear { IfSome result (λ m. m.end ≡ place.old.at → place.new.after ≡ false) }
    {
        if place.over {
            return None;
        }
        let Some(found) = self.first_from(place.at) else {
            place.over = true;
            return None;
        };
        let len = self.len();
        let step = self.unit_len(place.at + found.end);
        Some(place.pass(found, step, len))
    }

    /// Returns the first match in what comes from a place on, where offsets count from there.
    fn first_from(&self, at: usize) -> Option<Match<u32>>
        requires { IsPlaceIn (searched self.now) (haystack_of self.now) at }
        ensures { result ≡ slice_get (non_overlapping (kind_of (searched self.now)) (width_of (searched self.now)) (dictionary_of (searched self.now)) (text_read (searched self.now) (drop at (haystack_of self.now)))) 0 }
    {
        match self.part(at) {
            Some(rest) => rest.first(),
            None => None,
        }
    }

    /// The number of bytes of the unit at a place, or 0 if there is none.
    fn unit_len(&self, at: usize) -> usize
        requires { IsPlaceIn (searched self.now) (haystack_of self.now) at }
        ensures { IsStep (searched self.now) (haystack_of self.now) at result }
    {
        match self.part(at) {
            Some(rest) => rest.first_len(),
            None => 0,
        }
    }
}
