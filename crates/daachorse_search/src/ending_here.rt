//! The matches that end at one place.

ghost use Rattle.std.specs.Prelude.{◌≡◌};
ghost use Rattle.daachorse_core.specs.Outputs.{number};
ghost use Rattle.daachorse_model.specs.Outputs.{AllWithin, matches_of_outputs};

use crate::automaton::Automaton;
use daachorse_core::Match;
use std::marker::{Model, PhantomData};
use std::num::NonZeroU32;

/// The matches that end at one place, the longest first.
///
/// They borrow the automaton, and not the stepper that returned them.
#[derive(Drop)]
pub struct EndingHere<V: Copy, A: Automaton<V>> {
    automaton: A,
    place: usize,
    output: Option<NonZeroU32>,
    of: PhantomData<V>,
}

impl<V: Copy, A: Automaton<V>> Model for EndingHere<V, A> {
    ghost use Rattle.std.specs.Prelude.{List};
    ghost use Rattle.daachorse_core.specs.Outputs.{number};
    ghost use Rattle.daachorse_model.specs.declared.Match.{Match};
    ghost use Rattle.daachorse_model.specs.Outputs.{matches_of_outputs};
    ghost use Rattle.daachorse_search.specs.Walks.{MayEndAt};

    ghost Value = { List (Match V) };

    ghost view = { λ s. matches_of_outputs s.place ((A.sees s.automaton).outputs (number s.output)) };

    ghost invariant = { λ s. MayEndAt (A.sees s.automaton) s.place (number s.output) };
}

impl<V: Copy, A: Automaton<V>> EndingHere<V, A> {
    /// The matches of the outputs from `output` on.
    #[inline(always)]
    pub fn new(automaton: A, place: usize, output: Option<NonZeroU32>) -> Self
        requires place { (A.sees automaton).has_output (number output) }
        requires fits { AllWithin place ((A.sees automaton).outputs (number output)) }
        ensures { result ≡ matches_of_outputs place ((A.sees automaton).outputs (number output)) }
    {
        EndingHere {
            automaton,
            place,
            output,
            of: PhantomData,
        }
    }
}

impl<V: Copy, A: Automaton<V>> Iterator for EndingHere<V, A> {
    ghost use Rattle.std.specs.Iterator.{YieldsFirst, item_count};

    type Item = Match<V>;

    ghost next_gives = { YieldsFirst (λ s. s) };

    ghost remaining = { item_count (λ s. s) };

    #[inline(always)]
    fn next(&mut self) -> Option<Match<V>> {
        let position = self.output?;
        let output = self.automaton.output(position);
        self.output = output.parent();
        Some(output.to_match(self.place))
    }
}
