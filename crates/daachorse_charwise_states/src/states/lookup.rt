//! The states as lookups see them.

use super::States;
use daachorse_array::lookup::Lookup;
use daachorse_core::{Output, ROOT_STATE_IDX};
use std::alloc::Allocator;
use std::num::NonZeroU32;

/// A unit is a character.
impl<V: Copy, A: Allocator> Lookup<V> for States<V, A> {
    ghost use Rattle.daachorse_charwise_states.specs.Parts.{count, machine};

    type Unit = char;

    ghost machine = { machine };

    ghost count = { count };

    #[inline(always)]
    fn root(&self) -> u32 {
        // A field is read, so that the type's invariant is known here.
        let _ = &self.kind;
        ROOT_STATE_IDX
    }

    #[inline(always)]
    fn child(&self, element: u32, unit: char) -> Option<u32> {
        let code = self.mapper.get(unit)?;
        let states = self.states.as_slice();
        states[element as usize].child(element, code, states)
    }

    #[inline(always)]
    fn first(&self, element: u32) -> Option<NonZeroU32> {
        self.states[element as usize].output_pos()
    }

    #[inline(always)]
    fn outputs(&self) -> &[Output<V>] {
        self.outputs.as_slice()
    }
}
