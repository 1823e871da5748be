//! What a search sees of the states.

ghost use Rattle.std.specs.Prelude.{◌≡◌, ◌<◌, ◌/◌, ℕ, true, false, List, [], length, slice_index, slice_index_or, IfSome};
ghost use Rattle.daachorse_core.specs.Outputs.{number};
ghost use Rattle.daachorse_bytewise_states.specs.declared.state.State.{State};
ghost use Rattle.daachorse_bytewise_states.specs.Elements.{fail_in};
ghost use Rattle.daachorse_bytewise_states.specs.Views.{IsSeen, ElementLists, seen_parts};

use crate::state::State;
use daachorse_core::turns::{Look, Turns};
use daachorse_core::{DEAD_STATE_IDX, Empty, MatchKind, Output, ROOT_STATE_IDX};
use daachorse_search::automaton::Automaton;
use daachorse_search::view::{ForLeftmost, ForStandard, Searches};
use std::marker::{Model, PhantomData};
use std::num::NonZeroU32;

/// What standard and leftmost searches read in different ways.
pub trait Reads: Searches {
    /// The type of the link that an element has.
    type Link: Copy;

    /// The type of what stands beside the elements.
    type Beside: Copy;

    /// The lists of the parts, of which some are empty.
    ghost lists: { List (State Self.Link) → List Self.Beside → ElementLists };

    /// The table of the root.
    ghost root: { List Self.Beside → List (ℕ × ℕ) };

    /// The link of the element at an index.
    ghost link: { State Self.Link → List Self.Beside → ℕ → ℕ };

    /// The element that a byte leads to from the root, and that element's word, if a table has
    /// them.
    fn from_root(beside: &[Self::Beside], label: u8) -> Option<(u32, u32)>
        requires { Self.leftmost ≡ false → length beside.now ≡ 256 }
        ensures { IfSome result (λ to. (Self.leftmost ≡ false) × (to ≡ slice_index_or (root beside.now) label (0, 0))) };

    /// The link of a state's element.
    fn link(element: &State<Self::Link>, beside: &[Self::Beside], state: u32) -> u32
        requires { Self.leftmost ≡ true → state < length beside.now }
        ensures { result ≡ link element.now beside.now state };
}

/// An element has its link, and a table has the element that each byte leads to from the root.
impl Reads for ForStandard {
    type Link = u32;

    type Beside = (u32, u32);

    ghost lists = { λ elements table. (elements, [], []) };

    ghost root = { λ table. table };

    ghost link = { λ element table state. fail_in element };

    #[inline(always)]
    fn from_root(beside: &[(u32, u32)], label: u8) -> Option<(u32, u32)> {
        Some(beside[label as usize])
    }

    #[inline(always)]
    fn link(element: &State<u32>, _beside: &[(u32, u32)], _state: u32) -> u32
        ensures { result ≡ fail_in element.now }
    {
        element.fail()
    }
}

/// The links stand beside the elements, and the root is read as any state is.
impl Reads for ForLeftmost {
    type Link = Empty;

    type Beside = u32;

    ghost lists = { λ elements links. ([], elements, links) };

    ghost root = { λ links. [] };

    ghost link = { λ element links state. slice_index links state };

    #[inline(always)]
    fn from_root(_beside: &[u32], _label: u8) -> Option<(u32, u32)> {
        None
    }

    #[inline(always)]
    fn link(_element: &State<Empty>, beside: &[u32], state: u32) -> u32
        requires { state < length beside.now }
        ensures { result ≡ slice_index beside.now state }
    {
        beside[state as usize]
    }
}

/// The states as standard searches see them.
pub type Standard<'a, V> = View<'a, V, ForStandard>;

/// The states as leftmost searches see them.
pub type Leftmost<'a, V> = View<'a, V, ForLeftmost>;

/// The states as the searches `S` see them.
#[derive(Drop)]
pub struct View<'a, V: Copy, S: Reads> {
    states: &'a [State<S::Link>],
    beside: &'a [S::Beside],
    outputs: &'a [Output<V>],
    // For contracts alone, as is the number of states.
    kind: MatchKind,
    num_states: u32,
    searches: PhantomData<S>,
}

impl<'a, V: Copy, S: Reads> Model for View<'a, V, S> {
    ghost use Rattle.daachorse_bytewise_states.specs.Parts.{Parts};
    ghost use Rattle.daachorse_bytewise_states.specs.Views.{IsSeen, seen_parts};

    ghost Value = { Parts V };

    ghost view = { λ s. seen_parts s.kind (S.lists s.states.now s.beside.now) s.outputs.now s.num_states };

    ghost invariant = { λ s. IsSeen S.leftmost S.link s.states.now s.beside.now (S.root s.beside.now)
        (seen_parts s.kind (S.lists s.states.now s.beside.now) s.outputs.now s.num_states) };
}

impl<'a, V: Copy, S: Reads> View<'a, V, S> {
    /// A view of these elements and of what stands beside them.
    #[inline(always)]
    pub(crate) fn new(
        kind: MatchKind,
        states: &'a [State<S::Link>],
        beside: &'a [S::Beside],
        outputs: &'a [Output<V>],
        num_states: u32,
    ) -> Self
        requires { IsSeen S.leftmost S.link states.now beside.now (S.root beside.now) (seen_parts kind (S.lists states.now beside.now) outputs.now num_states) }
        ensures { result ≡ seen_parts kind (S.lists states.entry.now beside.entry.now) outputs.entry.now num_states }
    {
        Self {
            states,
            beside,
            outputs,
            kind,
            num_states,
            searches: PhantomData,
        }
    }
}

impl<'a, V: Copy, S: Reads> Automaton<V> for View<'a, V, S> {
    ghost use Rattle.std.specs.Prelude.{◌≡◌, ◌≢◌, ◌+◌, ℕ};
    ghost use Rattle.daachorse_core.specs.Looks.{LooksOnce};
    ghost use Rattle.daachorse_core.specs.declared.turns.Look.TheVariants.{Fail};
    ghost use Rattle.daachorse_model.specs.Units.{byte_width};
    ghost use Rattle.daachorse_search.specs.Views.{SeesLook, TellsFirst};
    ghost use Rattle.daachorse_bytewise_states.specs.Parts.{content};
    ghost use Rattle.daachorse_bytewise_states.specs.Valid.{IsState, dead, no_output, sees, text};

    type Unit = u8;

    type Label = u8;

    ghost sees = { sees };

    ghost labels = { λ p label unit. label ≡ unit };

    #[inline(always)]
    fn root(&self) -> u32 {
        // A field is read, so that the type's invariant is known here.
        let _ = &self.states;
        ROOT_STATE_IDX
    }

    #[inline(always)]
    fn is_root(&self, state: u32) -> bool {
        // A field is read, so that the type's invariant is known here.
        let _ = &self.states;
        state == ROOT_STATE_IDX
    }

    #[inline(always)]
    fn label(&self, unit: u8) -> Option<u8> {
        Some(unit)
    }

    #[inline(always)]
    fn turn(&self, state: u32, label: u8, turns: &mut Turns) -> Look
        requires { IsState self.now state }
        ensures once { LooksOnce (content self.now) (IsState self.now) (text self.now) (dead self.now) (text self.now state) label result }
        ensures look { (unit : ℕ) → label ≡ unit → SeesLook (sees self.now) state unit result }
        ensures output { (unit : ℕ) → label ≡ unit → TellsFirst byte_width (sees self.now) result }
        ensures counted { turns.new ≡ turns.old + 1 }
        ensures single { (sees self.now).ends_at_once → (unit link : ℕ) → label ≡ unit → result ≢ Fail link }
    {
        turns.tick();
        if state == ROOT_STATE_IDX {
            if let Some((child, word)) = S::from_root(self.beside, label) {
                return Look::Next(child, position_in(word));
            }
        }
        // A copy, so that base and link are loaded together and the index is not needed again.
        let states = self.states;
        let element = states[state as usize];
        if let Some((child, word)) = element.child_and_word(label, states) {
            return Look::Next(child, position_in(word));
        }
        if state == ROOT_STATE_IDX {
            return Look::Next(ROOT_STATE_IDX, self.output_pos(ROOT_STATE_IDX));
        }
        let link = S::link(&element, self.beside, state);
        if S::are_leftmost() && link == DEAD_STATE_IDX {
            return Look::Next(ROOT_STATE_IDX, self.output_pos(ROOT_STATE_IDX));
        }
        Look::Fail(link)
    }

    #[inline(always)]
    fn looks_ahead(&self) -> bool {
        // A field is read, so that the type's invariant is known here.
        let _ = &self.states;
        S::are_leftmost()
    }

    #[inline(always)]
    fn output_pos(&self, state: u32) -> Option<NonZeroU32> {
        let states = self.states;
        states[state as usize].output_pos()
    }

    #[inline(always)]
    fn output(&self, position: NonZeroU32) -> Output<V> {
        let outputs = self.outputs;
        outputs[position.get() as usize - 1]
    }

    #[inline(always)]
    fn again(&self) -> Self {
        Self {
            states: self.states,
            beside: self.beside,
            outputs: self.outputs,
            kind: self.kind,
            num_states: self.num_states,
            searches: PhantomData,
        }
    }

    ghost no_output = { no_output };
}

/// The position of the first output in an element's word.
#[inline(always)]
fn position_in(word: u32) -> Option<NonZeroU32>
    ensures { number result ≡ word / 256 }
{
    NonZeroU32::new(word / 256)
}
