//! The search for all matches, one unit at a time.

ghost use Rattle.std.specs.Prelude.{◌≡◌, ◌≢◌, ℕ, List, [], length, Some, None};
ghost use Rattle.daachorse_model.specs.Matches.{matches_after, overlapping};
ghost use Rattle.daachorse_model.specs.Prefixes.{IsLong};
ghost use Rattle.daachorse_core.specs.Seen.{units};
ghost use Rattle.daachorse_search.specs.Standings.{IsOverlappingStanding};
ghost use Rattle.daachorse_search.specs.Views.{HasDepths};

use crate::automaton::Automaton;
use crate::ending_here::EndingHere;
use crate::overlapping::OverlappingWalk;
use crate::stepper::{Resumable, Stepper};
use crate::stepwise::Stepwise;
use crate::walk::Standing;
use std::marker::{Model, PhantomData};
use std::num::NonZeroU32;

/// The search for all matches, one unit at a time.
pub type FindOverlappingStepper<'a, V, A> = Stepper<'a, V, OverlappingWalk<V, A>>;

/// Where a stepper stands, without the automaton. It borrows nothing.
#[derive(Drop)]
pub struct OverlappingStanding {
    walk: Standing,
    // The number of bytes consumed.
    place: usize,
    // The first output of the matches that end there.
    found: Option<NonZeroU32>,
}

impl Model for OverlappingStanding {
    ghost use Rattle.daachorse_search.specs.Standings.{OverlappingStood};

    ghost Value = { OverlappingStood };

    ghost view = { λ s. record { walk = s.walk; place = s.place; found = s.found } };
}

impl OverlappingStanding {
    /// The number of bytes consumed.
    #[inline(always)]
    pub fn place(&self) -> usize
        ensures { result ≡ self.now.place }
    {
        self.place
    }
}

impl<V: Copy, A: Automaton<V>> Resumable<V> for OverlappingWalk<V, A> {
    type Standing = OverlappingStanding;

    ghost stands = { λ a s. IsOverlappingStanding A.Unit.width A.sees a s };

    ghost consumed = { λ s. units s.walk.seen };

    ghost taken = { λ s. s.walk.turns };

    ghost given = { λ a s. length (overlapping A.Unit.width (A.sees a).content (units s.walk.seen)) };

    #[inline(always)]
    fn stand(self, place: usize, found: Option<NonZeroU32>) -> OverlappingStanding {
        let walk = self.into_standing();
        OverlappingStanding { walk, place, found }
    }
}

impl<'a, V: Copy, A: Automaton<V>> FindOverlappingStepper<'a, V, A> {
    /// The matches that end after the units consumed: the longest first, equal patterns in order of
    /// registration. They stay what they are while the stepper goes on.
    #[inline(always)]
    pub fn matches(&self) -> EndingHere<V, A>
        ensures { result ≡ matches_after A.Unit.width (A.sees self.now.automaton).content self.now.read }
    {
        EndingHere::new(self.walk.walked(), self.place, self.found)
    }

    /// How many of the last units consumed begin a pattern, at most. `None` if the automaton keeps
    /// no depths.
    #[inline(always)]
    pub fn depth(&self) -> Option<u32>
        ensures none { self.now.depths ≡ [] → result ≡ None }
        ensures depth { self.now.depths ≢ [] → (s : List ℕ) → IsLong (A.sees self.now.automaton).content self.now.read s → result ≡ Some (length s) }
    {
        self.walk.depth(self.depths)
    }

    /// A stepper that goes on from where another over the same automaton stood. `depths` has the
    /// depth of each state, or is empty if none are kept. What was consumed stays as it was read.
    #[inline(always)]
    pub fn resume(
        automaton: A,
        depths: &'a [u32],
        standing: OverlappingStanding,
        folds: bool,
    ) -> Self
        requires stands { IsOverlappingStanding A.Unit.width A.sees automaton standing }
        requires depths { HasDepths (A.sees automaton) depths.now }
        ensures automaton { result.automaton ≡ automaton }
        ensures depths { result.depths ≡ depths.entry.now }
        ensures folds { result.folds ≡ folds }
        ensures read { result.read ≡ units standing.walk.seen }
        ensures turns { result.turns ≡ standing.walk.turns }
        ensures given { result.given ≡ length (overlapping A.Unit.width (A.sees automaton).content (units standing.walk.seen)) }
    {
        let OverlappingStanding { walk, place, found } = standing;
        let walk = OverlappingWalk::resume(automaton, walk);
        let automaton = walk.walked();
        Stepper {
            walk,
            automaton,
            place,
            depths,
            folds,
            found,
            of: PhantomData,
        }
    }
}
