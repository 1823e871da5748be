//! What a search with rows sees of the states.
//!
//! An ASCII character is its own label, in a pattern or not, so that its slot is found without the
//! table of codes. The label of any other character is 128 plus its code.

ghost use Rattle.std.specs.Prelude.{◌≡◌};

use crate::view::View;
use daachorse_core::Output;
use daachorse_core::turns::{Look, Turns};
use daachorse_search::automaton::Automaton;
use daachorse_search::view::{ForLeftmost, ForStandard, Searches};
use std::marker::Model;
use std::num::NonZeroU32;

/// The number of ASCII characters.
pub(crate) const ASCII: u32 = 128;

/// The states as standard searches with rows see them.
pub type StandardForRows<'a, V> = ForRows<'a, V, ForStandard>;

/// The states as leftmost searches with rows see them.
pub type LeftmostForRows<'a, V> = ForRows<'a, V, ForLeftmost>;

/// The states as the searches `S` with rows see them.
#[derive(Drop)]
pub struct ForRows<'a, V: Copy, S: Searches> {
    view: View<'a, V, S>,
}

impl<'a, V: Copy, S: Searches> Model for ForRows<'a, V, S> {
    ghost use Rattle.daachorse_charwise_states.specs.Parts.{Parts};

    ghost Value = { Parts V };

    ghost view = { λ s. s.view };
}

impl<'a, V: Copy, S: Searches> ForRows<'a, V, S> {
    /// A view with labels for rows.
    #[inline(always)]
    pub fn new(view: View<'a, V, S>) -> Self
        ensures { result ≡ view.entry }
    {
        Self { view }
    }
}

impl<'a, V: Copy, S: Searches> Automaton<V> for ForRows<'a, V, S> {
    ghost use Rattle.daachorse_charwise_states.specs.StateRows.{sees_ascii, stands_for};
    ghost use Rattle.daachorse_charwise_states.specs.Valid.{no_output};

    type Unit = char;

    type Label = u32;

    ghost sees = { sees_ascii };

    ghost labels = { stands_for };

    #[inline(always)]
    fn root(&self) -> u32 {
        self.view.root()
    }

    #[inline(always)]
    fn is_root(&self, state: u32) -> bool {
        self.view.is_root(state)
    }

    #[inline(always)]
    fn label(&self, unit: char) -> Option<u32> {
        let code_point = unit as u32;
        if code_point < ASCII {
            return Some(code_point);
        }
        let code = self.view.label(unit)?;
        self.view.codes_fit();
        Some(ASCII + code)
    }

    #[inline(always)]
    fn turn(&self, state: u32, label: u32, turns: &mut Turns) -> Look {
        if label >= ASCII {
            return self.view.turn(state, label - ASCII, turns);
        }
        // A character of no pattern leads to the root.
        match self.view.label(char::from(label as u8)) {
            Some(code) => self.view.turn(state, code, turns),
            None => {
                turns.tick();
                let root = self.view.root();
                Look::Next(root, self.view.output_pos(root))
            }
        }
    }

    #[inline(always)]
    fn output_pos(&self, state: u32) -> Option<NonZeroU32> {
        self.view.output_pos(state)
    }

    #[inline(always)]
    fn output(&self, position: NonZeroU32) -> Output<V> {
        self.view.output(position)
    }

    #[inline(always)]
    fn again(&self) -> Self {
        Self {
            view: self.view.again(),
        }
    }

    ghost no_output = { no_output };
}
