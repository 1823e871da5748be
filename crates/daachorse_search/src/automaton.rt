//! Automata as searches see them.

ghost use Rattle.std.specs.Prelude.{◌≡◌, ◌≢◌, ◌↔◌, ◌+◌, ℕ, false, true, [], ◌∷◌, MatchOption, IsTrue};
ghost use Rattle.daachorse_core.specs.Outputs.{value_of, length_of, parent_of};
ghost use Rattle.daachorse_core.specs.declared.turns.Look.TheVariants.{Fail};
ghost use Rattle.daachorse_core.specs.Looks.{IsForeign};
ghost use Rattle.daachorse_search.specs.Views.{AutomatonView, HasFirst, HasNone, SeesLook, TellsFirst};

use daachorse_core::Output;
use daachorse_core::edge_label::EdgeLabel;
use daachorse_core::turns::{Look, Turns};
use std::num::NonZeroU32;

/// An automaton as searches see it: one look at a state at a time, and outputs.
///
/// A search holds it by value, so it is a few references to tables.
pub trait Automaton<V: Copy>: Drop {
    /// The units of patterns and haystacks: bytes or characters.
    type Unit: EdgeLabel;

    /// What an edge is looked up by: a byte, or the code of a character.
    type Label: Copy + Drop;

    /// What a search sees of it.
    ghost sees: { Self → AutomatonView V };

    /// The label stands for the unit.
    ghost labels: { Self → Self.Label → ℕ → Type 0 };

    /// The state of the empty text.
    fn root(&self) -> u32
        ensures reached { (sees self.now).reached result }
        ensures text { (sees self.now).text result ≡ [] };

    /// Whether the state is the root.
    fn is_root(&self, state: u32) -> bool
        requires { (sees self.now).reached state }
        ensures { IsTrue result ↔ ((sees self.now).text state ≡ []) };

    /// The label of a unit, if it has one.
    fn label(&self, unit: Self::Unit) -> Option<Self::Label>
        ensures { MatchOption result (((sees self.now).has_label (Self.Unit.unit unit) ≡ false) × IsForeign (sees self.now).content (Self.Unit.unit unit))
            (λ label. labels self.now label (Self.Unit.unit unit) × ((sees self.now).has_label (Self.Unit.unit unit) ≡ true)) };

    /// Looks at one state. Returns the end of the step, however many links lead there, with the
    /// first output at that state; or the failure link to look at next.
    fn turn(&self, state: u32, label: Self::Label, turns: &mut Turns) -> Look
        requires { (sees self.now).reached state }
        ensures look { (unit : ℕ) → labels self.now label unit → SeesLook (sees self.now) state unit result }
        ensures output { (unit : ℕ) → labels self.now label unit → TellsFirst Self.Unit.width (sees self.now) result }
        ensures counted { turns.new ≡ turns.old + 1 }
        ensures single { (sees self.now).ends_at_once → (unit link : ℕ) → labels self.now label unit → result ≢ Fail link };

    /// Whether a step takes its first look before its loop along failure links, for speed.
    #[inline(always)]
    fn looks_ahead(&self) -> bool {
        true
    }

    /// The position of the state's first output.
    fn output_pos(&self, state: u32) -> Option<NonZeroU32>
        requires { (sees self.now).reached state }
        ensures { HasFirst Self.Unit.width (sees self.now) state result };

    /// The output at a position.
    fn output(&self, position: NonZeroU32) -> Output<V>
        requires { (sees self.now).has_output position.value }
        ensures parent { (sees self.now).has_output (parent_of result) }
        ensures value { (sees self.now).outputs position.value ≡ (value_of result, length_of result) ∷ (sees self.now).outputs (parent_of result) };

    /// The same automaton for another search. It borrows the same tables.
    fn again(&self) -> Self
        ensures { result ≡ self.now };

    // Position 0 stands for no output.
    ghost no_output: { (a : Self) → HasNone (sees a) };
}
