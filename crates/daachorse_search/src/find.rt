//! The standard search: matches that do not overlap, each as early as it can end.

ghost use Rattle.std.specs.Prelude.{◌≡◌, ◌≢◌, Some, None, length, ◌<◌, ◌^◌, ℕ, List, [], ◌∷◌};
ghost use Rattle.daachorse_core.specs.Outputs.{value_of, length_of, parent_of};
ghost use Rattle.daachorse_model.specs.Matches.{IsSinceMatch, standard};
ghost use Rattle.daachorse_model.specs.Prefixes.{IsLong};
ghost use Rattle.daachorse_model.specs.Units.{size};
ghost use Rattle.daachorse_haystack.specs.Filters.{IsSoundFor};
ghost use Rattle.daachorse_search.specs.Finds.{IsFinding};
ghost use Rattle.daachorse_search.specs.Views.{HasDepths, IsStandard};
ghost use Rattle.daachorse_search.specs.Walks.{IsWalking};
ghost use Rattle.daachorse_search.specs.Nothing.{HasPlace-none, first_from-none};

use crate::automaton::Automaton;
use crate::matches::Matches;
use crate::stepwise::Stepwise;
use crate::walk::{Standing, Walk};
use daachorse_core::turns::Turns;
use daachorse_core::{Match, Output};
use daachorse_haystack::filter::Filter;
use daachorse_haystack::haystack::Haystack;
use std::alloc::AllocError;
use std::marker::Model;
use std::num::NonZeroU32;

/// A walk that begins again at the root after each match.
#[derive(Drop)]
pub struct FindWalk<V: Copy, A: Automaton<V>> {
    walk: Walk<V, A>,
    // The output of the empty pattern, if there is one. It matches at every boundary, with no look.
    everywhere: Option<NonZeroU32>,
}

impl<V: Copy, A: Automaton<V>> Model for FindWalk<V, A> {
    ghost use Rattle.daachorse_search.specs.Finds.{IsFinding};
    ghost use Rattle.daachorse_search.specs.Walks.{Walked};

    ghost Value = { Walked A };

    ghost view = { λ s. s.walk };

    ghost invariant = { λ s. IsFinding A.Unit.width (A.sees s.walk.automaton) s.walk.seen s.walk.turns s.everywhere };
}

impl<V: Copy, A: Automaton<V>> FindWalk<V, A> {
    ghost use Rattle.daachorse_core.specs.Seen.{unread, units};

    /// A walk that has read nothing.
    #[inline(always)]
    pub fn new(automaton: A) -> Self
        requires { IsStandard (A.sees automaton) }
        ensures automaton { result.automaton ≡ automaton }
        ensures seen { result.seen ≡ unread }
        ensures turns { result.turns ≡ 0 }
    {
        let walk = Walk::new(automaton);
        let everywhere = walk.outputs();
        FindWalk { walk, everywhere }
    }

    /// How many of the last units read begin a pattern: the depth of the state. Units up to the
    /// last match do not count. It is 0 with an empty pattern, and `None` if no depths are kept.
    #[inline(always)]
    pub fn depth(&self, depths: &[u32]) -> Option<u32>
        requires { HasDepths (A.sees self.now.automaton) depths.now }
        ensures none { depths.now ≡ [] → result ≡ None }
        ensures depth { depths.now ≢ [] → (since s : List ℕ) → IsSinceMatch A.Unit.width (A.sees self.now.automaton).content (units self.now.seen) since
            → IsLong (A.sees self.now.automaton).content since s → result ≡ Some (length s) }
    {
        self.walk.depth(depths)
    }

    /// The output at a position.
    #[inline(always)]
    pub fn output(&self, position: NonZeroU32) -> Output<V>
        requires { (A.sees self.now.automaton).has_output position.value }
        ensures { let view = A.sees self.now.automaton in view.outputs position.value ≡ (value_of result, length_of result) ∷ view.outputs (parent_of result) }
    {
        self.walk.output(position)
    }

    /// Where the walk stands, and the output of the empty pattern, for [`Self::resume`].
    #[inline(always)]
    pub fn into_standing(self) -> (Standing, Option<NonZeroU32>)
        ensures walks { IsWalking (A.sees self.automaton) result.0.seen result.0.state result.0.turns }
        ensures finds { IsFinding A.Unit.width (A.sees self.automaton) result.0.seen result.0.turns result.1 }
        ensures seen { result.0.seen ≡ self.seen }
        ensures turns { result.0.turns ≡ self.turns }
    {
        let FindWalk { walk, everywhere } = self;
        (walk.into_standing(), everywhere)
    }

    /// A walk that goes on from where another over the same automaton stood.
    #[inline(always)]
    pub fn resume(automaton: A, standing: Standing, everywhere: Option<NonZeroU32>) -> Self
        requires walks { IsWalking (A.sees automaton) standing.seen standing.state standing.turns }
        requires finds { IsFinding A.Unit.width (A.sees automaton) standing.seen standing.turns everywhere }
        ensures automaton { result.automaton ≡ automaton }
        ensures seen { result.seen ≡ standing.seen }
        ensures turns { result.turns ≡ standing.turns }
    {
        let walk = Walk::resume(automaton, standing);
        FindWalk { walk, everywhere }
    }
}

impl<V: Copy, A: Automaton<V>> Stepwise<V> for FindWalk<V, A> {
    ghost use Rattle.daachorse_search.specs.SearchViews.{standard_view};

    type Unit = A::Unit;

    type Automaton = A;

    ghost sees = { standard_view A.Unit.width A.sees };

    #[inline(always)]
    fn begin(&self) -> Option<NonZeroU32> {
        self.everywhere
    }

    #[inline(always)]
    fn advance(&mut self, unit: A::Unit) -> Option<NonZeroU32> {
        if self.everywhere.is_some() {
            self.walk.skip(unit);
            return self.everywhere;
        }
        let found = self.walk.consume(unit);
        if found.is_some() {
            self.walk.restart();
        }
        found
    }

    #[inline(always)]
    fn finds_everywhere(&self) -> bool {
        self.everywhere.is_some()
    }

    #[inline(always)]
    fn pass(&mut self, unit: A::Unit) -> Option<NonZeroU32> {
        if self.everywhere.is_some() {
            self.walk.skip(unit);
            return self.everywhere;
        }
        None
    }

    #[inline(always)]
    fn overlaps(&self) -> bool {
        false
    }

    #[inline(always)]
    fn is_at_root(&self) -> bool {
        self.walk.is_at_root()
    }

    #[inline(always)]
    fn begin_again(&mut self, taken: &mut Turns) {
        self.walk.begin_again(taken);
    }

    #[inline(always)]
    fn give(&self, position: NonZeroU32, place: usize) -> (Match<V>, Option<NonZeroU32>) {
        (self.walk.give(position, place).0, None)
    }

    #[inline(always)]
    fn walked(&self) -> A {
        self.walk.automaton()
    }

    #[inline(always)]
    fn turns_are_bounded(&self) {
        self.walk.turns_are_bounded();
    }

    ghost everywhere_keyed = { λ s keyed. keyed };

    ghost cloned = { λ s t same. same };

    ghost clones = { λ s. tt };

    ghost no_output = { λ s. (HasPlace-none A.Unit.width (A.sees s.automaton) s.seen (A.no_output s.automaton), first_from-none A.Unit.width (A.sees s.automaton) s.seen (A.no_output s.automaton)) };
}

impl<V: Copy, A: Automaton<V>> Clone for FindWalk<V, A> {
    ghost is_clone = { λ s t. t ≡ s };

    ghost is_infallible = { λ _. Unit {0} };

    #[inline(always)]
    fn clone(&self) -> Result<Self, AllocError> {
        Ok(FindWalk {
            walk: self.walk.clone()?,
            everywhere: self.everywhere,
        })
    }
}

/// The matches of the standard search in a haystack. The filter is asked at the root.
#[inline(always)]
pub fn find_in<V: Copy, A: Automaton<V>, H: Haystack<A::Unit>, F: Filter<A::Unit, H>>(
    automaton: A,
    haystack: H,
    filter: F,
) -> Matches<V, FindWalk<V, A>, H, F>
    requires alive { IsStandard (A.sees automaton) }
    requires fits { size A.Unit.width (H.rest haystack) < 2 ^ 64 }
    requires sound { IsSoundFor (F.passes filter) (A.sees automaton).content }
    ensures automaton { result.automaton ≡ automaton }
    ensures filter { result.filter ≡ filter }
    ensures haystack { result.haystack ≡ H.rest haystack }
    ensures left { result.left ≡ standard A.Unit.width (A.sees automaton).content (H.rest haystack) }
    ensures passed { result.passed ≡ [] }
    ensures turns { result.turns ≡ 0 }
    ensures given { result.given ≡ 0 }
{
    Matches::with_filter(FindWalk::new(automaton), haystack, filter)
}
