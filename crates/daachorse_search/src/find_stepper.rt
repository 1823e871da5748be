//! The standard search, one unit at a time.

ghost use Rattle.std.specs.Prelude.{◌≡◌, ◌≢◌, ℕ, List, [], length, Some, None};
ghost use Rattle.daachorse_model.specs.Matches.{standard, standard_after, IsSinceMatch};
ghost use Rattle.daachorse_model.specs.Prefixes.{IsLong};
ghost use Rattle.daachorse_core.specs.Seen.{units};
ghost use Rattle.daachorse_search.specs.Standings.{IsFindStanding};
ghost use Rattle.daachorse_search.specs.Views.{HasDepths};

use crate::automaton::Automaton;
use crate::find::FindWalk;
use crate::stepper::{Resumable, Stepper};
use crate::stepwise::Stepwise;
use crate::walk::Standing;
use daachorse_core::Match;
use std::marker::{Model, PhantomData};
use std::num::NonZeroU32;

/// The search for matches that do not overlap, one unit at a time.
pub type FindStepper<'a, V, A> = Stepper<'a, V, FindWalk<V, A>>;

/// Where a stepper stands, without the automaton. It borrows nothing.
#[derive(Drop)]
pub struct FindStanding {
    walk: Standing,
    // The output of the empty pattern, if there is one.
    everywhere: Option<NonZeroU32>,
    // The number of bytes consumed.
    place: usize,
    // The output of the match that ends there.
    found: Option<NonZeroU32>,
}

impl Model for FindStanding {
    ghost use Rattle.daachorse_search.specs.Standings.{FindStood};

    ghost Value = { FindStood };

    ghost view = { λ s. record { walk = s.walk; everywhere = s.everywhere; place = s.place; found = s.found } };
}

impl FindStanding {
    /// The number of bytes consumed.
    #[inline(always)]
    pub fn place(&self) -> usize
        ensures { result ≡ self.now.place }
    {
        self.place
    }
}

impl<V: Copy, A: Automaton<V>> Resumable<V> for FindWalk<V, A> {
    type Standing = FindStanding;

    ghost stands = { λ a s. IsFindStanding A.Unit.width A.sees a s };

    ghost consumed = { λ s. units s.walk.seen };

    ghost taken = { λ s. s.walk.turns };

    ghost given = { λ a s. length (standard A.Unit.width (A.sees a).content (units s.walk.seen)) };

    #[inline(always)]
    fn stand(self, place: usize, found: Option<NonZeroU32>) -> FindStanding {
        let (walk, everywhere) = self.into_standing();
        FindStanding {
            walk,
            everywhere,
            place,
            found,
        }
    }
}

impl<'a, V: Copy, A: Automaton<V>> FindStepper<'a, V, A> {
    /// The match of the standard search that ends after the units consumed, if there is one.
    #[inline(always)]
    pub fn matches(&self) -> Option<Match<V>>
        ensures { result ≡ standard_after A.Unit.width (A.sees self.now.automaton).content self.now.read }
    {
        // Not `?`: with it the restart becomes a conditional move, and the next look waits for it.
        match self.found {
            Some(position) => Some(self.walk.output(position).to_match(self.place)),
            None => None,
        }
    }

    /// How many of the last units consumed begin a pattern, at most. Units up to the last match do
    /// not count. It is 0 with an empty pattern, and `None` if the automaton keeps no depths.
    #[inline(always)]
    pub fn depth(&self) -> Option<u32>
        ensures none { self.now.depths ≡ [] → result ≡ None }
        ensures depth { self.now.depths ≢ [] → (since s : List ℕ) → IsSinceMatch A.Unit.width (A.sees self.now.automaton).content self.now.read since
            → IsLong (A.sees self.now.automaton).content since s → result ≡ Some (length s) }
    {
        self.walk.depth(self.depths)
    }

    /// A stepper that goes on from where another over the same automaton stood. `depths` has the
    /// depth of each state, or is empty if none are kept. What was consumed stays as it was read.
    #[inline(always)]
    pub fn resume(automaton: A, depths: &'a [u32], standing: FindStanding, folds: bool) -> Self
        requires stands { IsFindStanding A.Unit.width A.sees automaton standing }
        requires depths { HasDepths (A.sees automaton) depths.now }
        ensures automaton { result.automaton ≡ automaton }
        ensures depths { result.depths ≡ depths.entry.now }
        ensures folds { result.folds ≡ folds }
        ensures read { result.read ≡ units standing.walk.seen }
        ensures turns { result.turns ≡ standing.walk.turns }
        ensures given { result.given ≡ length (standard A.Unit.width (A.sees automaton).content (units standing.walk.seen)) }
    {
        let FindStanding {
            walk,
            everywhere,
            place,
            found,
        } = standing;
        let walk = FindWalk::resume(automaton, walk, everywhere);
        let automaton = walk.walked();
        Stepper {
            walk,
            automaton,
            place,
            depths,
            folds,
            found,
            of: PhantomData,
        }
    }
}
