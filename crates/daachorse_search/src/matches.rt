//! Standard searches in a haystack that is known as a whole.
//!
//! At the root an open filter moves the haystack on, and the walk begins again there. No match
//! depends on the filter.

ghost use Rattle.std.specs.Prelude.{◌≡◌, ◌≢◌, ◌+◌, ◌*◌, ◌^◌, ◌<◌, ◌≤◌, ◌++◌, ℕ, true, IfNone, IfSome, None, List, [], length};
ghost use Rattle.daachorse_core.specs.Outputs.{number};
ghost use Rattle.daachorse_model.specs.Units.{size};
ghost use Rattle.daachorse_model.specs.Matches.{at_each_end};
ghost use Rattle.daachorse_haystack.specs.Filters.{IsSoundFor, PassesNowhere, count_passing};
ghost use Rattle.daachorse_search.specs.Matches.{AreBoundedBehind, ReadsOn};
ghost use Rattle.daachorse_search.specs.Skipping.{next_position, ComesTo, HasNoPlace, SkipsTo};

use crate::stepwise::Stepwise;
use daachorse_core::Match;
use daachorse_core::turns::{Seen, Turns};
use daachorse_haystack::filter::Filter;
use daachorse_haystack::haystack::Haystack;
use std::marker::{Model, PhantomData};
use std::num::NonZeroU32;
use std::snapshot::Snapshot;

/// The matches in a haystack of a search that goes one unit at a time, in order.
///
/// A call of `next` reads to the end of its match and no further.
#[derive(Drop)]
pub struct Matches<V: Copy, W: Stepwise<V>, H: Haystack<W::Unit>, F: Filter<W::Unit, H>> {
    walk: W,
    filter: F,
    // The filter and the whole haystack at the beginning, for contracts alone.
    first_filter: Snapshot<F>,
    whole: Snapshot<H>,
    // What the walk has not read.
    rest: H,
    // The number of bytes of the whole haystack.
    size: usize,
    // The next output to report where the rest begins.
    output: Option<NonZeroU32>,
    // The output of the empty pattern at offset 0, until it is reported. Not in `output`: that is
    // then always `None` on entry if the search reports one match an end, and the compiler drops
    // the check.
    first: Option<NonZeroU32>,
    // A copy of the walk's automaton, so that a field's type names what is borrowed.
    automaton: W::Automaton,
    // The turns that the walk took up to where it last began.
    taken: Turns,
    // Counts the matches given.
    seen: Seen,
    of: PhantomData<V>,
}

impl<V: Copy, W: Stepwise<V>, H: Haystack<W::Unit>, F: Filter<W::Unit, H>> Model
    for Matches<V, W, H, F> {
    ghost use Rattle.std.specs.Prelude.{◌≡◌, ◌+◌, ◌++◌, ℕ, List, IfSome, None};
    ghost use Rattle.daachorse_search.specs.LeftmostSearches.{before_rest};
    ghost use Rattle.daachorse_search.specs.Matches.{Progress};
    ghost use Rattle.daachorse_search.specs.Skipping.{matches_behind, next_position, IsReading};

    ghost Value = { Progress V W.Automaton F };

    ghost view = { λ s. record {
      automaton = W.sees.automaton s.walk;
      filter = s.first_filter.value;
      haystack = H.rest s.whole.value;
      left = matches_behind W.Unit.width W.sees (H.rest s.whole.value) s.walk (H.rest s.rest) (next_position s.first s.output);
      passed = before_rest (H.rest s.whole.value) (H.rest s.rest);
      since = W.sees.read s.walk;
      turns = s.taken + W.sees.turns s.walk;
      given = s.seen.given;
    } };

    ghost invariant = { λ s. ((w : List ℕ) → F.passes s.filter w ≡ F.passes s.first_filter.value w)
        × IsReading W.Unit.width W.sees (F.passes s.first_filter.value) (F.opened s.first_filter.value) (H.rest s.whole.value) s.size
        (F.opened s.filter) s.walk (H.rest s.rest) (next_position s.first s.output) s.taken
        × IfSome s.first (λ _. W.sees.everywhere s.walk × (s.output ≡ None)) };
}

impl<V: Copy, W: Stepwise<V>, H: Haystack<W::Unit>, F: Filter<W::Unit, H>> Matches<V, W, H, F> {
    /// A search from the beginning of the haystack, which asks the filter at the root.
    #[inline(always)]
    pub fn with_filter(walk: W, haystack: H, filter: F) -> Self
        requires begins { W.sees.read walk ≡ [] }
        requires fits { size W.Unit.width (H.rest haystack) < 2 ^ 64 }
        requires sound { IsSoundFor (F.passes filter) (W.sees.content (W.sees.automaton walk)) }
        ensures automaton { result.automaton ≡ W.sees.automaton walk }
        ensures filter { result.filter ≡ filter }
        ensures haystack { result.haystack ≡ H.rest haystack }
        ensures left { result.left ≡ at_each_end (W.sees.found (W.sees.automaton walk)) [] (H.rest haystack) }
        ensures passed { result.passed ≡ [] }
        ensures turns { result.turns ≡ W.sees.turns walk }
        ensures given { result.given ≡ 0 }
    {
        walk.turns_are_bounded();
        let size = haystack.left();
        let (first, output) = place_first(&walk);
        let automaton = walk.walked();
        Matches {
            walk,
            first_filter: Snapshot::of(&filter),
            filter,
            whole: Snapshot::of(&haystack),
            rest: haystack,
            size,
            output,
            first,
            automaton,
            taken: Turns::new(),
            seen: Seen::new(),
            of: PhantomData,
        }
    }

    /// Does nothing. Its contract bounds the turns.
    #[inline(always)]
    pub fn turns_are_bounded(&self)
        ensures most { self.now.turns ≤ 2 * length self.now.passed }
        ensures single { W.sees.ends_at_once self.now.automaton → self.now.turns ≤ length self.now.passed }
        ensures passing { count_passing (F.passes self.now.filter) (W.sees.looks_at self.now.automaton) self.now.haystack self.now.passed ≤ self.now.turns }
        ensures behind { AreBoundedBehind W.sees.bounds self.now.automaton self.now.passed self.now.since self.now.turns }
        ensures bounds { ((w : List ℕ) → F.passes self.now.filter w ≡ true)
            → W.sees.bounds self.now.automaton self.now.passed self.now.turns }
        ensures keyed { W.sees.content self.now.automaton [] ≢ [] → W.sees.bounds self.now.automaton self.now.passed self.now.turns }
        ensures idle { F.opened self.now.filter → PassesNowhere (F.passes self.now.filter) self.now.haystack → self.now.turns ≡ 0 }
        ensures passed { (rest : List ℕ) × (self.now.haystack ≡ self.now.passed ++ rest) }
    {
        self.walk.turns_are_bounded();
    }
}

impl<V: Copy, W: Stepwise<V>, H: Haystack<W::Unit>, F: Filter<W::Unit, H>> Iterator
    for Matches<V, W, H, F> {
    ghost use Rattle.std.specs.Iterator.{item_count};
    ghost use Rattle.daachorse_search.specs.Matches.{GivesFirst, StandsAtEnd};

    type Item = Match<V>;

    ghost next_gives = { GivesFirst (StandsAtEnd W.Unit.width) };

    ghost remaining = { item_count (λ s. s.left) };

    #[inline(always)]
    fn next(&mut self) -> Option<Match<V>> {
        let position = match self.output {
            Some(position) => position,
            None => go_on(
                &mut self.walk,
                &mut self.taken,
                &mut self.rest,
                &mut self.filter,
                &mut self.first,
            )?,
        };
        let place = self.size - self.rest.left();
        let (found, next) = self.walk.give(position, place);
        self.output = next;
        self.seen.give();
        Some(found)
    }
}

/// The initial `first` and `output`. The first output, if any, is `first` if something is found at
/// every boundary.
#[inline(always)]
fn place_first<V: Copy, W: Stepwise<V>>(walk: &W) -> (Option<NonZeroU32>, Option<NonZeroU32>)
    requires { W.sees.read walk.now ≡ [] }
    ensures stops { W.sees.found (W.sees.automaton walk.now) (W.sees.read walk.now) ≡ W.sees.given_from walk.now (next_position result.0 result.1) }
    ensures place { W.sees.has_output walk.now (next_position result.0 result.1) }
    ensures apart { IfSome result.0 (λ _. W.sees.everywhere walk.now × (result.1 ≡ None)) }
{
    let output = walk.begin();
    if walk.finds_everywhere() {
        return (output, None);
    }
    (None, output)
}

/// Advances to the next output, and returns its position, or `None` at the end of the haystack. An
/// output in `first` is taken from there.
// Not `inline(always)`, nor is `read_past`: `next` would grow so that its own mark is ignored.
fn go_on<V: Copy, W: Stepwise<V>, H: Haystack<W::Unit>, F: Filter<W::Unit, H>>(
    walk: &mut W,
    taken: &mut Turns,
    rest: &mut H,
    filter: &mut F,
    first: &mut Option<NonZeroU32>,
) -> Option<NonZeroU32>
    requires sound { IsSoundFor (F.passes filter.old) (W.sees.content (W.sees.automaton walk.old)) }
    requires apart { IfSome first.old (λ _. W.sees.everywhere walk.old) }
    requires place { W.sees.has_output walk.old (number first.old) }
    ensures passes { (w : List ℕ) → F.passes filter.new w ≡ F.passes filter.old w }
    ensures comes { ComesTo W.Unit.width W.sees (F.passes filter.old) first.old walk.old (H.rest rest.old) taken.old (number result) (W.sees.given_from walk.new (number result)) walk.new (H.rest rest.new) taken.new }
    ensures output { W.sees.has_output walk.new (number result) }
    ensures ended { IfNone result (H.rest rest.new ≡ []) }
    ensures idle { IfNone first.old (HasNoPlace (F.passes filter.old) (F.opened filter.old) (W.sees.read walk.old) (H.rest rest.old)
        → (taken.new + W.sees.turns walk.new ≡ taken.old + W.sees.turns walk.old) × (H.rest rest.new ≡ [])) }
    ensures kept { IfSome first.old (λ _. filter.new ≡ filter.old) }
    ensures first { first.new ≡ None }
{
    if walk.finds_everywhere() {
        return match first.take() {
            Some(position) => Some(position),
            None => pass_one(walk, rest),
        };
    }
    read_past(walk, taken, rest, filter)
}

/// Reads on to the next output, and returns its position, or `None` at the end of the haystack. The
/// filter is asked at the root until it closes.
fn read_past<V: Copy, W: Stepwise<V>, H: Haystack<W::Unit>, F: Filter<W::Unit, H>>(
    walk: &mut W,
    taken: &mut Turns,
    rest: &mut H,
    filter: &mut F,
) -> Option<NonZeroU32>
    requires { IsSoundFor (F.passes filter.old) (W.sees.content (W.sees.automaton walk.old)) }
    ensures passes { (w : List ℕ) → F.passes filter.new w ≡ F.passes filter.old w }
    ensures reads { SkipsTo W.Unit.width W.sees (F.passes filter.old) walk.old (H.rest rest.old) taken.old (W.sees.given_from walk.new (number result)) walk.new (H.rest rest.new) taken.new }
    ensures output { W.sees.has_output walk.new (number result) }
    ensures ended { IfNone result (H.rest rest.new ≡ []) }
    ensures idle { HasNoPlace (F.passes filter.old) (F.opened filter.old) (W.sees.read walk.old) (H.rest rest.old)
        → (taken.new + W.sees.turns walk.new ≡ taken.old + W.sees.turns walk.old) × (H.rest rest.new ≡ []) }
{
    'units: loop {
        if !filter.is_open() {
            return read_on(walk, rest);
        }
        skip_at_root(walk, taken, rest, filter);
        let Some(unit) = rest.next() else {
            return None;
        };
        if let Some(position) = walk.advance(unit) {
            return Some(position);
        }
    }
}

/// At the root, advances to the first place that passes, or to the end, and begins again there.
#[inline(always)]
fn skip_at_root<V: Copy, W: Stepwise<V>, H: Haystack<W::Unit>, F: Filter<W::Unit, H>>(
    walk: &mut W,
    taken: &mut Turns,
    rest: &mut H,
    filter: &mut F,
)
    requires sound { IsSoundFor (F.passes filter.old) (W.sees.content (W.sees.automaton walk.old)) }
    requires asked { F.may_ask filter.old }
    ensures passes { (w : List ℕ) → F.passes filter.new w ≡ F.passes filter.old w }
    ensures skips { SkipsTo W.Unit.width W.sees (F.passes filter.old) walk.old (H.rest rest.old) taken.old [] walk.new (H.rest rest.new) taken.new }
    ensures turns { taken.new + W.sees.turns walk.new ≡ taken.old + W.sees.turns walk.old }
    ensures idle { W.sees.read walk.old ≡ [] → PassesNowhere (F.passes filter.old) (H.rest rest.old) → H.rest rest.new ≡ [] }
{
    if !walk.is_at_root() {
        return;
    }
    walk.turns_are_bounded();
    let before = rest.left();
    filter.skip(rest);
    if before <= rest.left() {
        return;
    }
    walk.begin_again(taken);
}

/// Reads on to the next output without the filter, and returns its position, or `None` at the end
/// of the haystack.
#[inline(always)]
fn read_on<V: Copy, W: Stepwise<V>, H: Haystack<W::Unit>>(
    walk: &mut W,
    rest: &mut H,
) -> Option<NonZeroU32>
    ensures { ReadsOn W.sees walk.old (H.rest rest.old) result walk.new (H.rest rest.new) }
{
    // Asked before the loop. The const parameter keeps the two copies of it from being merged.
    if !rest.is_folded() {
        return read_units::<V, W, H, false>(walk, rest);
    }
    read_units::<V, W, H, true>(walk, rest)
}

/// Reads one unit with no look if something is found at every boundary.
#[inline(always)]
fn pass_one<V: Copy, W: Stepwise<V>, H: Haystack<W::Unit>>(
    walk: &mut W,
    rest: &mut H,
) -> Option<NonZeroU32>
    requires { W.sees.everywhere walk.old }
    ensures { ReadsOn W.sees walk.old (H.rest rest.old) result walk.new (H.rest rest.new) }
{
    let Some(unit) = rest.next() else {
        return None;
    };
    walk.pass(unit)
}

/// Does the work of [`read_on`]. `FOLDED` only makes a second copy of the loop.
#[inline(always)]
fn read_units<V: Copy, W: Stepwise<V>, H: Haystack<W::Unit>, const FOLDED: bool>(
    walk: &mut W,
    rest: &mut H,
) -> Option<NonZeroU32>
    ensures { ReadsOn W.sees walk.old (H.rest rest.old) result walk.new (H.rest rest.new) }
{
    'units: loop {
        let Some(unit) = rest.next() else {
            return None;
        };
        if let Some(position) = walk.advance(unit) {
            return Some(position);
        }
    }
}
