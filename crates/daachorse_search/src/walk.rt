//! The step from state to state, and a walk of such steps through an automaton.

ghost use Rattle.std.specs.Prelude.{◌≡◌, ◌≢◌, Some, None, false, ◌+◌, ◌*◌, ◌↔◌, ◌^◌, ◌<◌, ◌≤◌, ℕ, List, [], ◌∷◌, ◌++◌, IfSome, IsTrue, if◌then◌else◌, length, map, count_by};
ghost use Rattle.daachorse_model.specs.Units.{size};
ghost use Rattle.daachorse_model.specs.Best.{IsSteady, LeftSteps};
ghost use Rattle.daachorse_model.specs.Prefixes.{IsCut, IsLong};
ghost use Rattle.daachorse_core.specs.Outputs.{number, value_of, length_of, parent_of};
ghost use Rattle.daachorse_model.specs.Outputs.{AllWithin, matches_of_outputs};
ghost use Rattle.daachorse_model.specs.Matches.{shifted};
ghost use Rattle.daachorse_core.specs.Seen.{units, unread};
ghost use Rattle.daachorse_search.specs.Views.{HasDepths, HasFirst, IsLeftmostView, IsStandard, Steps};
ghost use Rattle.daachorse_search.specs.Walks.{read_on, skip_on, begin_on, HasOutputs, IsWalking};

use crate::automaton::Automaton;
use daachorse_core::edge_label::EdgeLabel;
use daachorse_core::turns::{Look, Seen, Turns};
use daachorse_core::{Match, Output};
use std::alloc::AllocError;
use std::marker::{Model, PhantomData};
use std::num::NonZeroU32;

/// A walk through an automaton with no dead link. It counts no bytes.
#[derive(Drop)]
pub struct Walk<V: Copy, A: Automaton<V>> {
    automaton: A,
    state: u32,
    turns: Turns,
    seen: Seen,
    of: PhantomData<V>,
}

/// Where a walk stands, without the automaton. It borrows nothing.
#[derive(Drop)]
pub struct Standing {
    state: u32,
    turns: Turns,
    seen: Seen,
}

impl Model for Standing {
    ghost use Rattle.daachorse_search.specs.Walks.{Stood};

    ghost Value = { Stood };

    ghost view = { λ s. record { state = s.state; turns = s.turns; seen = s.seen } };
}

impl<V: Copy, A: Automaton<V>> Model for Walk<V, A> {
    ghost use Rattle.daachorse_search.specs.Walks.{Walked, IsWalking};

    ghost Value = { Walked A };

    ghost view = { λ s. record { automaton = s.automaton; seen = s.seen; turns = s.turns } };

    ghost invariant = { λ s. IsWalking (A.sees s.automaton) s.seen s.state s.turns };
}

impl<V: Copy, A: Automaton<V>> Walk<V, A> {
    /// A walk that stands at the root and has read nothing.
    #[inline(always)]
    pub fn new(automaton: A) -> Self
        requires { IsStandard (A.sees automaton) }
        ensures automaton { result.automaton ≡ automaton }
        ensures seen { result.seen ≡ unread }
        ensures turns { result.turns ≡ 0 }
    {
        let state = automaton.root();
        Walk {
            automaton,
            state,
            turns: Turns::new(),
            seen: Seen::new(),
            of: PhantomData,
        }
    }

    /// Reads one unit, and returns the position of the first output after it.
    #[inline(always)]
    pub fn consume(&mut self, unit: A::Unit) -> Option<NonZeroU32>
        ensures automaton { self.new.automaton ≡ self.old.automaton }
        ensures seen { self.new.seen ≡ read_on self.old.seen (A.Unit.unit unit ∷ []) }
        ensures outputs { HasOutputs A.Unit.width (A.sees self.new.automaton) self.new.seen (number result) }
        ensures some { IfSome result (λ position. 0 < length ((A.sees self.new.automaton).outputs position.value)) }
    {
        let (state, position) = step(&self.automaton, self.state, unit, &mut self.turns);
        self.state = state;
        self.seen.push(unit.code());
        position
    }

    /// Reads one unit with no look, and begins again at the root after it.
    #[inline(always)]
    pub fn skip(&mut self, unit: A::Unit)
        ensures automaton { self.new.automaton ≡ self.old.automaton }
        ensures seen { self.new.seen ≡ skip_on self.old.seen (A.Unit.unit unit) }
        ensures turns { self.new.turns ≡ self.old.turns }
    {
        self.state = self.automaton.root();
        self.seen.skip(unit.code());
    }

    /// Begins again at the root: no pattern that began before is followed from here on.
    #[inline(always)]
    pub fn restart(&mut self)
        ensures automaton { self.new.automaton ≡ self.old.automaton }
        ensures seen { self.new.seen ≡ begin_on self.old.seen }
        ensures turns { self.new.turns ≡ self.old.turns }
    {
        self.state = self.automaton.root();
        self.seen.restart();
    }

    /// Begins again at the root with nothing read, and adds its turns to `taken`.
    #[inline(always)]
    pub fn begin_again(&mut self, taken: &mut Turns)
        ensures automaton { self.new.automaton ≡ self.old.automaton }
        ensures seen { self.new.seen ≡ unread }
        ensures turns { self.new.turns ≡ 0 }
        ensures counted { taken.new ≡ taken.old + self.old.turns }
    {
        taken.add(&self.turns);
        self.turns = Turns::new();
        self.seen = Seen::new();
        self.state = self.automaton.root();
    }

    /// Whether the walk is at the root, so that no pattern has begun.
    #[inline(always)]
    pub fn is_at_root(&self) -> bool
        ensures { IsTrue result ↔ IsLong (A.sees self.now.automaton).content self.now.seen.since [] }
    {
        self.automaton.is_root(self.state)
    }

    /// The automaton that is walked through.
    #[inline(always)]
    pub fn automaton(&self) -> A
        ensures { result ≡ self.now.automaton }
    {
        self.automaton.again()
    }

    /// The position of the first output of the matches that end here.
    #[inline(always)]
    pub fn outputs(&self) -> Option<NonZeroU32>
        ensures outputs { HasOutputs A.Unit.width (A.sees self.now.automaton) self.now.seen (number result) }
        ensures some { IfSome result (λ position. 0 < length ((A.sees self.now.automaton).outputs position.value)) }
    {
        self.automaton.output_pos(self.state)
    }

    /// The depth of the state, from a table of all depths; `None` if the table is empty.
    #[inline(always)]
    pub fn depth(&self, depths: &[u32]) -> Option<u32>
        requires { HasDepths (A.sees self.now.automaton) depths.now }
        ensures none { depths.now ≡ [] → result ≡ None }
        ensures depth { depths.now ≢ [] → (s : List ℕ) → IsLong (A.sees self.now.automaton).content self.now.seen.since s → result ≡ Some (length s) }
    {
        if depths.is_empty() {
            return None;
        }
        Some(depths[self.state as usize])
    }

    /// The output at a position.
    #[inline(always)]
    pub fn output(&self, position: NonZeroU32) -> Output<V>
        requires { (A.sees self.now.automaton).has_output position.value }
        ensures { let view = A.sees self.now.automaton in view.outputs position.value ≡ (value_of result, length_of result) ∷ view.outputs (parent_of result) }
    {
        self.automaton.output(position)
    }

    /// The match of the output at a position, and the position of the next output to report.
    /// `place` is the end of the match in bytes, and may count from before the first unit.
    #[inline(always)]
    pub fn give(&self, position: NonZeroU32, place: usize) -> (Match<V>, Option<NonZeroU32>)
        requires here { size A.Unit.width (units self.now.seen) ≤ place }
        requires place { (A.sees self.now.automaton).has_output position.value }
        requires fits { AllWithin (size A.Unit.width (units self.now.seen)) ((A.sees self.now.automaton).outputs position.value) }
        ensures place { (A.sees self.now.automaton).has_output (number result.1) }
        ensures matches { let end = size A.Unit.width (units self.now.seen) in let view = A.sees self.now.automaton in (before : ℕ) → place ≡ before + end
            → map (shifted before) (matches_of_outputs end (view.outputs position.value)) ≡ result.0 ∷ map (shifted before) (matches_of_outputs end (view.outputs (number result.1))) }
        ensures fits { AllWithin (size A.Unit.width (units self.now.seen)) ((A.sees self.now.automaton).outputs (number result.1)) }
        ensures ends { result.0.end ≡ place }
    {
        let output = self.automaton.output(position);
        (output.to_match(place), output.parent())
    }

    /// Where the walk stands, for [`Self::resume`].
    #[inline(always)]
    pub fn into_standing(self) -> Standing
        ensures walks { IsWalking (A.sees self.automaton) result.seen result.state result.turns }
        ensures seen { result.seen ≡ self.seen }
        ensures turns { result.turns ≡ self.turns }
    {
        let Walk {
            automaton: _automaton,
            state,
            turns,
            seen,
            of: _of,
        } = self;
        Standing { state, turns, seen }
    }

    /// A walk that goes on from where another over the same automaton stood.
    #[inline(always)]
    pub fn resume(automaton: A, standing: Standing) -> Self
        requires { IsWalking (A.sees automaton) standing.seen standing.state standing.turns }
        ensures automaton { result.automaton ≡ automaton }
        ensures seen { result.seen ≡ standing.seen }
        ensures turns { result.turns ≡ standing.turns }
    {
        let Standing { state, turns, seen } = standing;
        Walk {
            automaton,
            state,
            turns,
            seen,
            of: PhantomData,
        }
    }

    /// Does nothing. Its contract bounds the turns.
    #[inline(always)]
    pub fn turns_are_bounded(&self)
        ensures most { self.now.turns ≤ 2 * length (units self.now.seen) }
        ensures deep { (s : List ℕ) → IsLong (A.sees self.now.automaton).content self.now.seen.since s
            → self.now.turns + length s ≤ 2 * length (units self.now.seen) }
        ensures single { (A.sees self.now.automaton).ends_at_once → self.now.turns ≤ length (units self.now.seen) }
        ensures least { count_by (A.sees self.now.automaton).has_label self.now.seen.looked ≤ self.now.turns }
    {
        let _ = &self.state;
    }
}

impl<V: Copy, A: Automaton<V>> Clone for Walk<V, A> {
    ghost use Rattle.std.specs.Prelude.{◌≡◌};

    ghost is_clone = { λ s t. t ≡ s };

    ghost is_infallible = { λ _. Unit {0} };

    #[inline(always)]
    fn clone(&self) -> Result<Self, AllocError> {
        Ok(Walk {
            automaton: self.automaton.again(),
            state: self.state,
            turns: self.turns.clone()?,
            seen: self.seen.clone()?,
            of: PhantomData,
        })
    }
}

/// The state after one more unit, and the position of its first output. A unit with no label leads
/// to the root with no turn, and a dead link leads there too.
#[inline(always)]
pub fn step<V: Copy, A: Automaton<V>>(
    automaton: &A,
    state: u32,
    unit: A::Unit,
    turns: &mut Turns,
) -> (u32, Option<NonZeroU32>)
    requires { (A.sees automaton.now).reached state }
    ensures reached { (A.sees automaton.now).reached result.0 }
    ensures output { HasFirst A.Unit.width (A.sees automaton.now) result.0 result.1 }
    ensures ends { Steps (A.sees automaton.now) state (A.Unit.unit unit) result.0 }
    ensures standard { let view = A.sees automaton.now in IsStandard view → IsLong view.content (view.text state ++ A.Unit.unit unit ∷ []) (view.text result.0) }
    ensures leftmost { let view = A.sees automaton.now in IsLeftmostView view → (w : List ℕ) → IsSteady view.content w (view.text state)
        → LeftSteps view.content w (A.Unit.unit unit) (view.text result.0) }
    ensures cut { let view = A.sees automaton.now in IsLeftmostView view → (w : List ℕ) → IsSteady view.content w (view.text state)
        → IsCut view.content (w ++ A.Unit.unit unit ∷ []) (view.text result.0) }
    ensures most { let view = A.sees automaton.now in turns.new + length (view.text result.0) ≤ turns.old + length (view.text state) + 2 }
    ensures single { (A.sees automaton.now).ends_at_once → turns.new ≤ turns.old + 1 }
    ensures least { turns.old + (if (A.sees automaton.now).has_label (A.Unit.unit unit) then 1 else 0) ≤ turns.new }
    ensures no_label { (A.sees automaton.now).has_label (A.Unit.unit unit) ≡ false → (turns.new ≡ turns.old) × ((A.sees automaton.now).text result.0 ≡ []) }
{
    let Some(label) = automaton.label(unit) else {
        let root = automaton.root();
        return (root, automaton.output_pos(root));
    };
    follow(automaton, state, label, turns)
}

/// Does the work of [`step`] for a label: follows the failure links to the end of the step.
#[inline(always)]
pub fn follow<V: Copy, A: Automaton<V>>(
    automaton: &A,
    state: u32,
    label: A::Label,
    turns: &mut Turns,
) -> (u32, Option<NonZeroU32>)
    requires reached { (A.sees automaton.now).reached state }
    requires unit { (unit : ℕ) × A.labels automaton.now label unit }
    ensures reached { (A.sees automaton.now).reached result.0 }
    ensures output { HasFirst A.Unit.width (A.sees automaton.now) result.0 result.1 }
    ensures ends { (unit : ℕ) → A.labels automaton.now label unit → Steps (A.sees automaton.now) state unit result.0 }
    ensures most { let view = A.sees automaton.now in turns.new + length (view.text result.0) ≤ turns.old + length (view.text state) + 2 }
    ensures single { (A.sees automaton.now).ends_at_once → turns.new ≤ turns.old + 1 }
    ensures least { turns.old + 1 ≤ turns.new }
{
    let mut at = state;
    if automaton.looks_ahead() {
        match automaton.turn(state, label, turns) {
            Look::Next(next, position) => return (next, position),
            Look::Fail(link) => at = link,
        }
    }
    'links: loop {
        match automaton.turn(at, label, turns) {
            Look::Next(next, position) => return (next, position),
            Look::Fail(link) => at = link,
        }
    }
}
