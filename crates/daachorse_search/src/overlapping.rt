//! The searches for all matches, which may overlap, and for the longest at each end.

ghost use Rattle.std.specs.Prelude.{◌≡◌, ◌≢◌, Some, None, length, ◌<◌, ◌^◌, ◌↔◌, ℕ, List, [], IsTrue};
ghost use Rattle.daachorse_model.specs.Matches.{no_suffix, overlapping};
ghost use Rattle.daachorse_model.specs.Prefixes.{IsLong};
ghost use Rattle.daachorse_model.specs.Units.{size};
ghost use Rattle.daachorse_haystack.specs.Filters.{IsSoundFor};
ghost use Rattle.daachorse_search.specs.Views.{HasDepths, IsStandard};
ghost use Rattle.daachorse_search.specs.Walks.{IsFresh, IsWalking};
ghost use Rattle.daachorse_search.specs.Nothing.{HasPlace-none, matches_from-none, first_from-none};

use crate::automaton::Automaton;
use crate::matches::Matches;
use crate::stepwise::Stepwise;
use crate::walk::{Standing, Walk};
use daachorse_core::Match;
use daachorse_core::turns::Turns;
use daachorse_haystack::filter::Filter;
use daachorse_haystack::haystack::Haystack;
use std::alloc::AllocError;
use std::marker::Model;
use std::num::NonZeroU32;

/// A walk that finds all matches that end where it stands: the longest first, equal patterns in
/// order of registration.
#[derive(Drop)]
pub struct OverlappingWalk<V: Copy, A: Automaton<V>> {
    walk: Walk<V, A>,
}

impl<V: Copy, A: Automaton<V>> Model for OverlappingWalk<V, A> {
    ghost use Rattle.daachorse_search.specs.Walks.{Walked, IsFresh};

    ghost Value = { Walked A };

    ghost view = { λ s. s.walk };

    ghost invariant = { λ s. IsFresh s.walk.seen };
}

impl<V: Copy, A: Automaton<V>> OverlappingWalk<V, A> {
    ghost use Rattle.daachorse_core.specs.Seen.{unread, units};

    /// A walk that has read nothing.
    #[inline(always)]
    pub fn new(automaton: A) -> Self
        requires { IsStandard (A.sees automaton) }
        ensures automaton { result.automaton ≡ automaton }
        ensures seen { result.seen ≡ unread }
        ensures turns { result.turns ≡ 0 }
    {
        OverlappingWalk {
            walk: Walk::new(automaton),
        }
    }

    /// Whether the walk is at the root, so that no pattern has begun.
    #[inline(always)]
    pub fn stands_at_root(&self) -> bool
        ensures { IsTrue result ↔ IsLong (A.sees self.now.automaton).content (units self.now.seen) [] }
    {
        self.walk.is_at_root()
    }

    /// How many of the last units read begin a pattern: the depth of the state. `None` if no depths
    /// are kept.
    #[inline(always)]
    pub fn depth(&self, depths: &[u32]) -> Option<u32>
        requires { HasDepths (A.sees self.now.automaton) depths.now }
        ensures none { depths.now ≡ [] → result ≡ None }
        ensures depth { depths.now ≢ [] → (s : List ℕ) → IsLong (A.sees self.now.automaton).content (units self.now.seen) s → result ≡ Some (length s) }
    {
        self.walk.depth(depths)
    }

    /// Where the walk stands, for [`Self::resume`].
    #[inline(always)]
    pub fn into_standing(self) -> Standing
        ensures walks { IsWalking (A.sees self.automaton) result.seen result.state result.turns }
        ensures fresh { IsFresh result.seen }
        ensures seen { result.seen ≡ self.seen }
        ensures turns { result.turns ≡ self.turns }
    {
        let OverlappingWalk { walk } = self;
        walk.into_standing()
    }

    /// A walk that goes on from where another over the same automaton stood.
    #[inline(always)]
    pub fn resume(automaton: A, standing: Standing) -> Self
        requires walks { IsWalking (A.sees automaton) standing.seen standing.state standing.turns }
        requires fresh { IsFresh standing.seen }
        ensures automaton { result.automaton ≡ automaton }
        ensures seen { result.seen ≡ standing.seen }
        ensures turns { result.turns ≡ standing.turns }
    {
        OverlappingWalk {
            walk: Walk::resume(automaton, standing),
        }
    }
}

impl<V: Copy, A: Automaton<V>> Stepwise<V> for OverlappingWalk<V, A> {
    ghost use Rattle.daachorse_search.specs.SearchViews.{all_view};

    type Unit = A::Unit;

    type Automaton = A;

    ghost sees = { all_view A.Unit.width A.sees };

    ghost everywhere_keyed = { λ s never. absurd never };

    ghost cloned = { λ s t same. same };

    ghost clones = { λ s. tt };

    ghost no_output = { λ s. (HasPlace-none A.Unit.width (A.sees s.automaton) s.seen (A.no_output s.automaton), matches_from-none A.Unit.width (A.sees s.automaton) s.seen (A.no_output s.automaton)) };

    #[inline(always)]
    fn begin(&self) -> Option<NonZeroU32> {
        self.walk.outputs()
    }

    #[inline(always)]
    fn advance(&mut self, unit: A::Unit) -> Option<NonZeroU32> {
        self.walk.consume(unit)
    }

    #[inline(always)]
    fn finds_everywhere(&self) -> bool {
        false
    }

    #[inline(always)]
    fn pass(&mut self, _unit: A::Unit) -> Option<NonZeroU32> {
        None
    }

    #[inline(always)]
    fn is_at_root(&self) -> bool {
        self.stands_at_root()
    }

    #[inline(always)]
    fn begin_again(&mut self, taken: &mut Turns) {
        self.walk.begin_again(taken);
    }

    #[inline(always)]
    fn give(&self, position: NonZeroU32, place: usize) -> (Match<V>, Option<NonZeroU32>) {
        self.walk.give(position, place)
    }

    #[inline(always)]
    fn walked(&self) -> A {
        self.walk.automaton()
    }

    #[inline(always)]
    fn turns_are_bounded(&self) {
        self.walk.turns_are_bounded();
    }
}

impl<V: Copy, A: Automaton<V>> Clone for OverlappingWalk<V, A> {
    ghost is_clone = { λ s t. t ≡ s };

    ghost is_infallible = { λ _. Unit {0} };

    #[inline(always)]
    fn clone(&self) -> Result<Self, AllocError> {
        Ok(OverlappingWalk {
            walk: self.walk.clone()?,
        })
    }
}

/// A walk that finds the longest match that ends where it stands; of equal patterns the first
/// registered.
#[derive(Drop)]
pub struct NoSuffixWalk<V: Copy, A: Automaton<V>> {
    all: OverlappingWalk<V, A>,
}

impl<V: Copy, A: Automaton<V>> Model for NoSuffixWalk<V, A> {
    ghost use Rattle.daachorse_search.specs.Walks.{Walked};

    ghost Value = { Walked A };

    ghost view = { λ s. s.all };
}

impl<V: Copy, A: Automaton<V>> NoSuffixWalk<V, A> {
    ghost use Rattle.daachorse_core.specs.Seen.{unread};

    /// A walk that has read nothing.
    #[inline(always)]
    pub fn new(automaton: A) -> Self
        requires { IsStandard (A.sees automaton) }
        ensures automaton { result.automaton ≡ automaton }
        ensures seen { result.seen ≡ unread }
        ensures turns { result.turns ≡ 0 }
    {
        NoSuffixWalk {
            all: OverlappingWalk::new(automaton),
        }
    }
}

impl<V: Copy, A: Automaton<V>> Stepwise<V> for NoSuffixWalk<V, A> {
    ghost use Rattle.daachorse_search.specs.SearchViews.{first_view};

    type Unit = A::Unit;

    type Automaton = A;

    ghost sees = { first_view A.Unit.width A.sees };

    ghost everywhere_keyed = { λ s never. absurd never };

    ghost cloned = { λ s t same. same };

    ghost clones = { λ s. tt };

    ghost no_output = { λ s. (HasPlace-none A.Unit.width (A.sees s.automaton) s.seen (A.no_output s.automaton), first_from-none A.Unit.width (A.sees s.automaton) s.seen (A.no_output s.automaton)) };

    #[inline(always)]
    fn begin(&self) -> Option<NonZeroU32> {
        self.all.begin()
    }

    #[inline(always)]
    fn advance(&mut self, unit: A::Unit) -> Option<NonZeroU32> {
        self.all.advance(unit)
    }

    #[inline(always)]
    fn finds_everywhere(&self) -> bool {
        false
    }

    #[inline(always)]
    fn pass(&mut self, _unit: A::Unit) -> Option<NonZeroU32> {
        None
    }

    #[inline(always)]
    fn is_at_root(&self) -> bool {
        self.all.stands_at_root()
    }

    #[inline(always)]
    fn begin_again(&mut self, taken: &mut Turns) {
        self.all.begin_again(taken);
    }

    #[inline(always)]
    fn give(&self, position: NonZeroU32, place: usize) -> (Match<V>, Option<NonZeroU32>) {
        (self.all.give(position, place).0, None)
    }

    #[inline(always)]
    fn walked(&self) -> A {
        self.all.walked()
    }

    #[inline(always)]
    fn turns_are_bounded(&self) {
        self.all.turns_are_bounded();
    }
}

impl<V: Copy, A: Automaton<V>> Clone for NoSuffixWalk<V, A> {
    ghost is_clone = { λ s t. t ≡ s };

    ghost is_infallible = { λ _. Unit {0} };

    #[inline(always)]
    fn clone(&self) -> Result<Self, AllocError> {
        Ok(NoSuffixWalk {
            all: self.all.clone()?,
        })
    }
}

/// All matches in a haystack, also those that overlap. The filter is asked at the root.
#[inline(always)]
pub fn find_overlapping_in<V: Copy, A: Automaton<V>, H: Haystack<A::Unit>, F: Filter<A::Unit, H>>(
    automaton: A,
    haystack: H,
    filter: F,
) -> Matches<V, OverlappingWalk<V, A>, H, F>
    requires alive { IsStandard (A.sees automaton) }
    requires fits { size A.Unit.width (H.rest haystack) < 2 ^ 64 }
    requires sound { IsSoundFor (F.passes filter) (A.sees automaton).content }
    ensures automaton { result.automaton ≡ automaton }
    ensures filter { result.filter ≡ filter }
    ensures haystack { result.haystack ≡ H.rest haystack }
    ensures left { result.left ≡ overlapping A.Unit.width (A.sees automaton).content (H.rest haystack) }
    ensures passed { result.passed ≡ [] }
    ensures turns { result.turns ≡ 0 }
    ensures given { result.given ≡ 0 }
{
    Matches::with_filter(OverlappingWalk::new(automaton), haystack, filter)
}

/// The longest match at each end in a haystack. The filter is asked at the root.
#[inline(always)]
pub fn find_overlapping_no_suffix_in<
    V: Copy,
    A: Automaton<V>,
    H: Haystack<A::Unit>,
    F: Filter<A::Unit, H>,
>(automaton: A, haystack: H, filter: F) -> Matches<V, NoSuffixWalk<V, A>, H, F>
    requires alive { IsStandard (A.sees automaton) }
    requires fits { size A.Unit.width (H.rest haystack) < 2 ^ 64 }
    requires sound { IsSoundFor (F.passes filter) (A.sees automaton).content }
    ensures automaton { result.automaton ≡ automaton }
    ensures filter { result.filter ≡ filter }
    ensures haystack { result.haystack ≡ H.rest haystack }
    ensures left { result.left ≡ no_suffix A.Unit.width (A.sees automaton).content (H.rest haystack) }
    ensures passed { result.passed ≡ [] }
    ensures turns { result.turns ≡ 0 }
    ensures given { result.given ≡ 0 }
{
    Matches::with_filter(NoSuffixWalk::new(automaton), haystack, filter)
}
