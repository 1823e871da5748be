//! The leftmost search in a haystack that is known as a whole.
//!
//! An open filter moves the haystack on before each scan. The scan stops where no match is pending,
//! so that the filter is asked again. No match depends on the filter.

ghost use Rattle.std.specs.Prelude.{◌≡◌, ◌+◌, ◌*◌, ◌^◌, ◌<◌, ◌≤◌, ◌++◌, ℕ, true, List, [], length, count_by, IsTrue};
ghost use Rattle.daachorse_model.specs.Units.{size};
ghost use Rattle.daachorse_model.specs.Leftmost.{leftmost};
ghost use Rattle.daachorse_search.specs.BestScans.{HasNoLongerKey};
ghost use Rattle.daachorse_haystack.specs.Filters.{IsSoundFor, PassesNowhere, count_passing};
ghost use Rattle.daachorse_search.specs.LeftmostSearches.{SkipsUnit, StandsBehind, IsSkipped};
ghost use Rattle.daachorse_search.specs.Matches.{GivesFirst};
ghost use Rattle.daachorse_search.specs.Views.{IsLeftmostView};

use crate::automaton::Automaton;
use crate::best::{Scanned, scan_best};
use daachorse_core::Match;
use daachorse_core::edge_label::EdgeLabel;
use daachorse_core::turns::{Seen, Turns};
use daachorse_haystack::filter::Filter;
use daachorse_haystack::haystack::Haystack;
use std::marker::{Model, PhantomData};
use std::snapshot::Snapshot;

/// The leftmost matches in a haystack, which do not overlap, in order.
///
/// A call of `next` may read past its match, and the next call reads those units again.
#[derive(Drop)]
pub struct LeftmostMatches<V: Copy, A: Automaton<V>, H: Haystack<A::Unit>, F: Filter<A::Unit, H>> {
    automaton: A,
    filter: F,
    // The filter and the whole haystack at the beginning, for contracts alone.
    first_filter: Snapshot<F>,
    whole: Snapshot<H>,
    // The haystack from where the search goes on.
    rest: H,
    // The number of bytes of the whole haystack.
    size: usize,
    // Whether a nonempty match ends where the rest begins.
    after: bool,
    // Whether the search is over.
    done: bool,
    turns: Turns,
    seen: Seen,
    of: PhantomData<V>,
}

impl<V: Copy, A: Automaton<V>, H: Haystack<A::Unit>, F: Filter<A::Unit, H>> Model
    for LeftmostMatches<V, A, H, F> {
    ghost use Rattle.std.specs.Prelude.{◌≡◌, ℕ, List, []};
    ghost use Rattle.daachorse_search.specs.Matches.{Progress};
    ghost use Rattle.daachorse_search.specs.LeftmostSearches.{before_rest, leftmost_left, place_at, IsResting, Spans};

    ghost Value = { Progress V A F };

    ghost view = { λ s. record {
      automaton = s.automaton;
      filter = s.first_filter.value;
      haystack = H.rest s.whole.value;
      left = leftmost_left A.Unit.width (A.sees s.automaton).content (place_at A.Unit.width s.size (H.rest s.rest)) (H.rest s.rest) s.after s.done;
      passed = before_rest (H.rest s.whole.value) (H.rest s.rest);
      since = [];
      turns = s.turns;
      given = s.seen.given;
    } };

    ghost invariant = { λ s. ((w : List ℕ) → F.passes s.filter w ≡ F.passes s.first_filter.value w)
        × IsResting A.Unit.width (A.sees s.automaton) (F.passes s.first_filter.value) (F.opened s.first_filter.value)
        (F.opened s.filter) (H.rest s.whole.value) (H.rest s.rest) (place_at A.Unit.width s.size (H.rest s.rest)) s.after s.done s.turns s.seen.given
        × Spans A.Unit.width s.size (H.rest s.whole.value) };
}

impl<V: Copy, A: Automaton<V>, H: Haystack<A::Unit>, F: Filter<A::Unit, H>> LeftmostMatches<
    V,
    A,
    H,
    F,
> {
    /// A search from the beginning of the haystack, which asks the filter before each scan.
    #[inline(always)]
    pub fn with_filter(automaton: A, haystack: H, filter: F) -> Self
        requires kind { IsLeftmostView (A.sees automaton) }
        requires fits { size A.Unit.width (H.rest haystack) < 2 ^ 64 }
        requires sound { IsSoundFor (F.passes filter) (A.sees automaton).content }
        ensures automaton { result.automaton ≡ automaton }
        ensures filter { result.filter ≡ filter }
        ensures haystack { result.haystack ≡ H.rest haystack }
        ensures left { result.left ≡ leftmost A.Unit.width (A.sees automaton).content (H.rest haystack) }
        ensures passed { result.passed ≡ [] }
        ensures turns { result.turns ≡ 0 }
        ensures given { result.given ≡ 0 }
    {
        let size = haystack.left();
        LeftmostMatches {
            automaton,
            first_filter: Snapshot::of(&filter),
            filter,
            whole: Snapshot::of(&haystack),
            rest: haystack,
            size,
            after: false,
            done: false,
            turns: Turns::new(),
            seen: Seen::new(),
            of: PhantomData,
        }
    }

    /// Does nothing. Its contract bounds the turns.
    #[inline(always)]
    pub fn turns_are_bounded(&self)
        ensures most { (m : ℕ) → HasNoLongerKey (A.sees self.now.automaton).content m
            → self.now.turns ≤ 2 * length self.now.passed + 4 * (m * self.now.given) }
        ensures passing { count_passing (F.passes self.now.filter) (A.sees self.now.automaton).has_label self.now.haystack self.now.passed ≤ self.now.turns }
        ensures least { ((w : List ℕ) → F.passes self.now.filter w ≡ true)
            → count_by (A.sees self.now.automaton).has_label self.now.passed ≤ self.now.turns }
        ensures idle { F.opened self.now.filter → PassesNowhere (F.passes self.now.filter) self.now.haystack → self.now.turns ≡ 0 }
        ensures passed { (rest : List ℕ) × (self.now.haystack ≡ self.now.passed ++ rest) }
    {
        let _ = &self.size;
    }

    /// Does the work of `next`. `FOLDED` only makes a second copy of the loops.
    #[inline(always)]
    fn next_match<const FOLDED: bool>(&mut self) -> Option<Match<V>>
        ensures { GivesFirst (StandsBehind A.Unit.width) self.old result self.new }
    {
        'scans: loop {
            if self.done {
                return None;
            }
            let may_stop = skip_places(&mut self.filter, &mut self.rest);
            let turns = &mut self.turns;
            match scan_best::<V, A, H, FOLDED>(&self.automaton, &self.rest, may_stop, turns) {
                Scanned::Clear(end) => {
                    self.rest = self.rest.after(end);
                    self.done = self.rest.left() == 0;
                }
                Scanned::Best(found) => {
                    let output = self.automaton.output(found.position);
                    let place = self.size - self.rest.left();
                    let best = output.to_match(place + found.end);
                    // An empty match ends where the scan began, and any other after it.
                    if found.end > 0 {
                        self.rest = self.rest.after(found.end);
                        self.after = true;
                        self.seen.give();
                        return Some(best);
                    }
                    // An empty match right after a nonempty one is not reported.
                    let passed_over = self.after;
                    self.after = false;
                    self.done = skip_unit(&mut self.rest);
                    if !passed_over {
                        self.seen.give();
                        return Some(best);
                    }
                }
            }
        }
    }
}

impl<V: Copy, A: Automaton<V>, H: Haystack<A::Unit>, F: Filter<A::Unit, H>> Iterator
    for LeftmostMatches<V, A, H, F> {
    ghost use Rattle.std.specs.Iterator.{item_count};

    type Item = Match<V>;

    ghost next_gives = { GivesFirst (StandsBehind A.Unit.width) };

    ghost remaining = { item_count (λ s. s.left) };

    #[inline(always)]
    fn next(&mut self) -> Option<Match<V>> {
        // Asked before the loops. The const parameter keeps their two copies from being merged.
        if self.rest.is_folded() {
            return self.next_match::<true>();
        }
        self.next_match::<false>()
    }
}

/// Advances to the first place that passes if the filter is open, and returns whether it is.
#[inline(always)]
fn skip_places<U: EdgeLabel, H: Haystack<U>, F: Filter<U, H>>(filter: &mut F, rest: &mut H) -> bool
    ensures passes { (w : List ℕ) → F.passes filter.new w ≡ F.passes filter.old w }
    ensures skipped { IsSkipped (F.passes filter.old) (F.opened filter.old) (H.rest rest.old) (H.rest rest.new) }
{
    if !filter.is_open() {
        return false;
    }
    filter.skip(rest);
    true
}

/// Takes one unit off the haystack, and returns whether there was none.
#[inline(always)]
fn skip_unit<U: EdgeLabel, H: Haystack<U>>(rest: &mut H) -> bool
    ensures { SkipsUnit (H.rest rest.old) (H.rest rest.new) result }
{
    rest.next().is_none()
}
