//! What is kept of the bytes that a stream consumes.

ghost use Rattle.std.specs.Prelude.{List, ℕ, OnOk};

use daachorse_search::step_unit::StepUnit;
use std::alloc::{AllocError, Allocator};
use std::convert::Infallible;

/// What keeps the bytes of the units that a stream consumes, or none of them.
pub trait Keep {
    /// Why bytes could not be kept.
    type Error;

    /// The bytes are kept behind those that were.
    ghost keeps: { Self → List ℕ → Self → Type 0 };

    /// How many more bytes are kept with no allocation.
    fn room(&self) -> usize;

    /// Keeps bytes.
    fn keep(&mut self, bytes: &[u8]) -> Result<(), Self::Error>
        ensures { OnOk result (keeps self.old bytes.now self.new) };

    /// Keeps the bytes of a unit.
    fn keep_unit<U: StepUnit>(&mut self, unit: U) -> Result<(), Self::Error>
        ensures { OnOk result (keeps self.old (U.EdgeLabel.form unit) self.new) };
}

impl<C: Allocator> Keep for Vec<u8, C> {
    ghost use Rattle.std.specs.Prelude.{◌≡◌, ◌++◌};

    type Error = AllocError;

    ghost keeps = { λ s bytes t. t.items ≡ s.items ++ bytes };

    #[inline(always)]
    fn room(&self) -> usize {
        self.capacity() - self.len()
    }

    #[inline(always)]
    fn keep(&mut self, bytes: &[u8]) -> Result<(), AllocError> {
        self.extend_from_slice(bytes)
    }

    #[inline(always)]
    fn keep_unit<U: StepUnit>(&mut self, unit: U) -> Result<(), AllocError> {
        unit.append_to(self)
    }
}

/// Keeps no bytes.
#[derive(Drop)]
pub(crate) struct Unkept;

impl Keep for Unkept {
    ghost use Rattle.std.specs.Prelude.{⊤};

    type Error = Infallible;

    ghost keeps = { λ s bytes t. ⊤ };

    #[inline(always)]
    fn room(&self) -> usize {
        usize::MAX
    }

    #[inline(always)]
    fn keep(&mut self, _bytes: &[u8]) -> Result<(), Infallible> {
        Ok(())
    }

    #[inline(always)]
    fn keep_unit<U: StepUnit>(&mut self, _unit: U) -> Result<(), Infallible> {
        Ok(())
    }
}
