//! What a search sees of the states.

ghost use Rattle.std.specs.Prelude.{◌≡◌, ◌<◌, ℕ, Some};
ghost use Rattle.daachorse_charwise_states.specs.Parts.{char_code};
ghost use Rattle.daachorse_charwise_states.specs.Views.{IsFor, parts_of};

use crate::mapper::{CodeMapper, code_in};
use crate::state::State;
use daachorse_core::turns::{Look, Turns};
use daachorse_core::{DEAD_STATE_IDX, MatchKind, Output, ROOT_STATE_IDX};
use daachorse_search::automaton::Automaton;
use daachorse_search::view::{ForLeftmost, ForStandard, Searches};
use std::alloc::Allocator;
use std::marker::{Model, PhantomData};
use std::num::NonZeroU32;

/// The states as standard searches see them.
pub type Standard<'a, V> = View<'a, V, ForStandard>;

/// The states as leftmost searches see them.
pub type Leftmost<'a, V> = View<'a, V, ForLeftmost>;

/// The states as the searches `S` see them.
#[derive(Drop)]
pub struct View<'a, V: Copy, S: Searches> {
    states: &'a [State],
    // The code of each code point.
    table: &'a [u32],
    outputs: &'a [Output<V>],
    // The position of the root's first output, read once ahead of the search.
    root_output: Option<NonZeroU32>,
    // For contracts alone, as are the two numbers.
    kind: MatchKind,
    alphabet_size: u32,
    num_states: u32,
    searches: PhantomData<S>,
}

impl<'a, V: Copy, S: Searches> Model for View<'a, V, S> {
    ghost use Rattle.daachorse_charwise_states.specs.Parts.{Parts};
    ghost use Rattle.daachorse_charwise_states.specs.Views.{IsFor, IsRootOutput, coding_with, parts_of};

    ghost Value = { Parts V };

    ghost view = { λ s. parts_of s.kind s.states.now (coding_with s.table.now s.alphabet_size) s.outputs.now s.num_states };

    ghost invariant = { λ s. IsFor S.leftmost (parts_of s.kind s.states.now (coding_with s.table.now s.alphabet_size) s.outputs.now s.num_states)
        × IsRootOutput s.states.now s.root_output };
}

impl<'a, V: Copy, S: Searches> View<'a, V, S> {
    /// A view of these elements with the codes of a mapper.
    #[inline(always)]
    pub(crate) fn new<A: Allocator>(
        kind: MatchKind,
        states: &'a [State],
        mapper: &'a CodeMapper<A>,
        outputs: &'a [Output<V>],
        num_states: u32,
    ) -> Self
        requires { IsFor S.leftmost (parts_of kind states.now mapper.now outputs.now num_states) }
        ensures { result ≡ parts_of kind states.entry.now mapper.entry.now outputs.entry.now num_states }
    {
        let root_output = states[ROOT_STATE_IDX as usize].output_pos();
        Self {
            states,
            table: mapper.table(),
            outputs,
            root_output,
            kind,
            alphabet_size: mapper.alphabet_size(),
            num_states,
            searches: PhantomData,
        }
    }

    /// Does nothing. Its contract says that each code is at most 2,147,483,647.
    #[inline(always)]
    pub(crate) fn codes_fit(&self)
        ensures { (unit code : ℕ) → char_code self.now.coding unit ≡ Some code → code < 2147483648 }
    {
        let _ = &self.states;
    }
}

impl<'a, V: Copy, S: Searches> Automaton<V> for View<'a, V, S> {
    ghost use Rattle.std.specs.Prelude.{◌≡◌, ◌≢◌, ◌+◌, ℕ, Some};
    ghost use Rattle.daachorse_core.specs.Looks.{LooksOnce};
    ghost use Rattle.daachorse_core.specs.declared.turns.Look.TheVariants.{Fail};
    ghost use Rattle.daachorse_model.specs.Units.{char_width};
    ghost use Rattle.daachorse_search.specs.Views.{SeesLook, TellsFirst};
    ghost use Rattle.daachorse_charwise_states.specs.Parts.{char_code, content};
    ghost use Rattle.daachorse_charwise_states.specs.Valid.{IsState, dead, no_output, sees, text};

    type Unit = char;

    type Label = u32;

    ghost sees = { sees };

    ghost labels = { λ p code unit. char_code p.coding unit ≡ Some code };

    #[inline(always)]
    fn root(&self) -> u32 {
        // A field is read, so that the type's invariant is known here.
        let _ = &self.states;
        ROOT_STATE_IDX
    }

    #[inline(always)]
    fn is_root(&self, state: u32) -> bool {
        // A field is read, so that the type's invariant is known here.
        let _ = &self.states;
        state == ROOT_STATE_IDX
    }

    #[inline(always)]
    fn label(&self, unit: char) -> Option<u32> {
        code_in(self.table, unit)
    }

    #[inline(always)]
    fn turn(&self, state: u32, code: u32, turns: &mut Turns) -> Look
        requires { IsState self.now state }
        ensures once { (unit : ℕ) → char_code self.now.coding unit ≡ Some code
            → LooksOnce (content self.now) (IsState self.now) (text self.now) (dead self.now) (text self.now state) unit result }
        ensures look { (unit : ℕ) → char_code self.now.coding unit ≡ Some code → SeesLook (sees self.now) state unit result }
        ensures output { (unit : ℕ) → char_code self.now.coding unit ≡ Some code → TellsFirst char_width (sees self.now) result }
        ensures counted { turns.new ≡ turns.old + 1 }
        ensures single { (sees self.now).ends_at_once → (unit link : ℕ) → char_code self.now.coding unit ≡ Some code → result ≢ Fail link }
    {
        turns.tick();
        let element = &self.states[state as usize];
        if let Some((child, position)) = element.child_and_output(state, code, self.states) {
            return Look::Next(child, position);
        }
        if state == ROOT_STATE_IDX {
            if self.root_output.is_none() {
                return Look::Next(ROOT_STATE_IDX, None);
            }
            // Read as a child's is, so that both ways meet in one number, which is tested once.
            return Look::Next(ROOT_STATE_IDX, element.output_pos());
        }
        let link = element.fail();
        if S::are_leftmost() && link == DEAD_STATE_IDX {
            return Look::Next(ROOT_STATE_IDX, self.root_output);
        }
        Look::Fail(link)
    }

    #[inline(always)]
    fn output_pos(&self, state: u32) -> Option<NonZeroU32> {
        // Known for the root, which speeds up a loop that asks for the root's alone.
        if state == ROOT_STATE_IDX {
            return self.root_output;
        }
        self.states[state as usize].output_pos()
    }

    #[inline(always)]
    fn output(&self, position: NonZeroU32) -> Output<V> {
        let outputs = self.outputs;
        outputs[position.get() as usize - 1]
    }

    #[inline(always)]
    fn again(&self) -> Self {
        Self {
            states: self.states,
            table: self.table,
            outputs: self.outputs,
            root_output: self.root_output,
            kind: self.kind,
            alphabet_size: self.alphabet_size,
            num_states: self.num_states,
            searches: PhantomData,
        }
    }

    ghost no_output = { no_output };
}
