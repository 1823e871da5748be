//! The states as lookups see them.

use super::States;
use daachorse_array::array::Array;
use daachorse_array::lookup::Lookup;
use daachorse_core::{Output, ROOT_STATE_IDX};
use std::alloc::Allocator;
use std::num::NonZeroU32;

/// A unit is a byte.
impl<V: Copy, A: Allocator> Lookup<V> for States<V, A> {
    ghost use Rattle.daachorse_bytewise_states.specs.Parts.{count, machine};

    type Unit = u8;

    ghost machine = { machine };

    ghost count = { count };

    #[inline(always)]
    fn root(&self) -> u32 {
        // A field is read, so that the type's invariant is known here.
        let _ = &self.kind;
        ROOT_STATE_IDX
    }

    #[inline(always)]
    fn child(&self, element: u32, unit: u8) -> Option<u32> {
        let elements = self.elements();
        let base = elements.base_at(element as usize)?;
        let child = base.get() ^ u32::from(unit);
        if elements.check_at(child as usize) == unit {
            return Some(child);
        }
        None
    }

    #[inline(always)]
    fn first(&self, element: u32) -> Option<NonZeroU32> {
        NonZeroU32::new(self.elements().first(element as usize))
    }

    #[inline(always)]
    fn outputs(&self) -> &[Output<V>] {
        self.outputs.as_slice()
    }
}
