//! The traits of values that have a written form: the bytes of a value, and the value that is read
//! back from bytes.
#![tactic(auto, using(daachorse_core::proofs::Failures::failures))]

ghost use Rattle.std.specs.Prelude.{◌≡◌, ℕ, ◌+◌, ◌-◌, ◌^◌, ◌++◌, List, Option, length, min, IfErr, IfOk, OnOk};
ghost use Rattle.daachorse_core.specs.Refusals.{IsOutOfMemory};
ghost use Rattle.daachorse_core.specs.declared.errors.DaachorseError.{DaachorseError};
ghost use Rattle.daachorse_serializer.specs.Forms.{Begins, Gives, GivesView, IsForm, IsReadRefusal};

pub use crate::lists::Table;
use daachorse_core::errors::Result;
use std::alloc::Allocator;

/// Values with a written form. Reading one takes no allocator.
///
/// Integers, [`bool`], [`char`], [`Option<NonZeroU32>`](std::num::NonZeroU32),
/// [`Empty`](daachorse_core::Empty), [`MatchKind`](daachorse_core::MatchKind),
/// [`Output`](daachorse_core::Output), and options, pairs and triples of such values have one. A
/// number is written by its bytes, the lowest first: 0x01234567 is `67 45 23 01`. Any type that
/// proves the laws can be the value type of a written automaton.
pub trait Serializable: Sized + Drop {
    /// Which values are of the type.
    ghost is_value: { Self → Type 0 };

    /// The bytes of a value.
    ghost form: { Self → List ℕ };

    /// What bytes are read as: nothing, or a value and the bytes after it.
    ghost taken: { List ℕ → Option (Self × List ℕ) };

    /// The greatest length of a form.
    ghost form_len: { ℕ };

    /// The errors of a read of these bytes besides an invalid automaton and out of memory.
    ghost own_refusal: { List ℕ → DaachorseError → Type 0 } = { λ _ _. ⊥ };

    /// Appends the bytes of the value.
    ///
    /// # Errors
    /// Out of memory; `dst` then still begins with what it held.
    fn serialize_to_vec<A: Allocator>(&self, dst: &mut Vec<u8, A>) -> Result<()>
        ensures written { OnOk result (dst.new.items ≡ dst.old.items ++ form self.now) }
        ensures kept { Begins dst.old.items dst.new.items }
        ensures err { IfErr result IsOutOfMemory };

    /// Reads a value, and returns it with the bytes after it.
    ///
    /// # Errors
    /// Bytes that hold no value, or out of memory.
    fn deserialize_from_slice(src: &[u8]) -> Result<(Self, &[u8])>
        ensures given { Gives result (taken src.now) }
        ensures err { IfErr result (IsReadRefusal (own_refusal src.now)) };

    /// The greatest length of a form, in bytes, capped at `usize::MAX`.
    fn serialized_bytes() -> usize
        ensures { result ≡ min form_len (2 ^ 64 - 1) };

    /// Does nothing. Its contract says that a value in hand is of the type.
    fn in_range(&self)
        ensures { is_value self.now };

    // What was written is read back, a read leaves a suffix, and no form is longer than `form_len`.
    ghost law: { IsForm is_value form taken (λ _. form_len) };
}

/// Values with a written form, of which contracts see the shape: vectors, tables and prefilters.
///
/// If the items of a list have empty forms, four bytes may hold 4,294,967,295 of them.
pub trait SerializableVec: Sized {
    /// The allocator of a value that is read.
    type Alloc: Allocator;

    /// What contracts see of a value.
    ghost Shape: { Type 0 };

    ghost shape: { Self → Shape };

    /// Which values are of the type.
    ghost is_value: { Shape → Type 0 };

    /// Which values may be written.
    ghost can_write: { Shape → Type 0 };

    /// The bytes of a value.
    ghost form: { Shape → List ℕ };

    /// What bytes are read as: nothing, or a value and the bytes after it.
    ghost taken: { List ℕ → Option (Shape × List ℕ) };

    /// The greatest length of a form of this value.
    ghost form_len: { Shape → ℕ };

    /// The errors of a read of these bytes besides an invalid automaton and out of memory.
    ghost own_refusal: { List ℕ → DaachorseError → Type 0 } = { λ _ _. ⊥ };

    /// Appends the bytes of the value.
    ///
    /// # Errors
    /// Out of memory; `dst` then still begins with what it held.
    fn serialize_to_vec<B: Allocator>(&self, dst: &mut Vec<u8, B>) -> Result<()>
        requires { can_write (shape self.now) }
        ensures written { OnOk result (dst.new.items ≡ dst.old.items ++ form (shape self.now)) }
        ensures kept { Begins dst.old.items dst.new.items }
        ensures err { IfErr result IsOutOfMemory };

    /// Reads a value, and returns it with the bytes after it. What was read may be written.
    ///
    /// # Errors
    /// Bytes that hold no value, or out of memory.
    fn deserialize_from_slice<'a>(alloc: Self::Alloc, src: &'a [u8]) -> Result<(Self, &'a [u8])>
        ensures given { GivesView shape result (taken src.now) }
        ensures again { IfOk result (λ r. can_write (shape r.0)) }
        ensures err { IfErr result (IsReadRefusal (own_refusal src.now)) };

    /// The greatest length of the value's form, in bytes, capped at `usize::MAX`.
    fn serialized_bytes(&self) -> usize
        ensures { result ≡ min (form_len (shape self.now)) (2 ^ 64 - 1) };

    /// Does nothing. Its contract says that a value in hand is of the type.
    fn in_range(&self)
        ensures { is_value (shape self.now) };

    // What was written is read back, a read leaves a suffix, and no form is longer than `form_len`.
    ghost law: { IsForm (λ v. can_write v × is_value v) form taken form_len };
}

/// Appends these bytes.
///
/// # Errors
/// Out of memory; `dst` then still begins with what it held.
#[inline(always)]
pub fn append<A: Allocator>(dst: &mut Vec<u8, A>, bytes: &[u8]) -> Result<()>
    ensures written { OnOk result (dst.new.items ≡ dst.old.items ++ bytes.now) }
    ensures kept { Begins dst.old.items dst.new.items }
    ensures err { IfErr result IsOutOfMemory }
{
    dst.extend_from_slice(bytes)?;
    Ok(())
}
