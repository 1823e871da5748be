//! Units that steppers consume.

ghost use Rattle.std.specs.Prelude.{◌≡◌, ◌++◌, OnOk};

use daachorse_core::ascii_fold::AsciiFold;
use std::alloc::{AllocError, Allocator};

/// A unit that steppers consume: a byte or a character.
pub trait StepUnit: AsciiFold {
    /// Whether looks at folded units are compiled apart, which pays if the caller's loop is small
    /// enough to be compiled twice. `overlaps` tells the search for all matches from that for
    /// matches that do not overlap. No result depends on it.
    fn folds_apart(&self, overlaps: bool) -> bool;

    /// Appends the bytes of the unit.
    fn append_to<A: Allocator>(self, bytes: &mut Vec<u8, A>) -> Result<(), AllocError>
        ensures { OnOk result (bytes.new.items ≡ bytes.old.items ++ Self.EdgeLabel.form self) };
}

impl StepUnit for u8 {
    #[inline(always)]
    fn folds_apart(&self, overlaps: bool) -> bool {
        overlaps
    }

    #[inline(always)]
    fn append_to<A: Allocator>(self, bytes: &mut Vec<u8, A>) -> Result<(), AllocError> {
        bytes.push(self)?;
        Ok(())
    }
}

impl StepUnit for char {
    #[inline(always)]
    fn folds_apart(&self, overlaps: bool) -> bool {
        !overlaps
    }

    #[inline(always)]
    fn append_to<A: Allocator>(self, bytes: &mut Vec<u8, A>) -> Result<(), AllocError> {
        let mut buffer = [0; 4];
        bytes.extend_from_slice(self.encode_utf8(&mut buffer).as_bytes())
    }
}
