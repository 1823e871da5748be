//! What the written forms of both automata end with: the outputs, how it searches, the number of
//! states, and the prefilter, if there is one.
#![tactic(auto, using(daachorse_core::proofs::Failures::failures))]

ghost use Rattle.std.specs.Prelude.{◌≡◌, ◌+◌, ◌-◌, ◌<◌, ◌^◌, ◌++◌, length, min, vec_len, IfErr, IfOk, IfSome, OnOk};
ghost use Rattle.daachorse_core.specs.Refusals.{IsOutOfMemory};
ghost use Rattle.daachorse_serializer.specs.Endings.{IsOfEnding, ending_form, ending_most, take_ending};
ghost use Rattle.daachorse_serializer.specs.Forms.{Begins, GivesView, IsReadRefusal, option_shape};

use crate::mode::SearchMode;
use crate::serializer::{Serializable, SerializableVec};
use daachorse_core::Output;
use daachorse_core::errors::Result;
use std::alloc::{Allocator, Global};

/// The end of an automaton's written form.
#[derive(Drop)]
pub struct Ending<V, F, A: Allocator = Global> {
    /// The outputs.
    pub outputs: Vec<Output<V>, A>,
    /// How the automaton searches.
    pub mode: SearchMode,
    /// The number of states.
    pub num_states: u32,
    /// The prefilter, if there is one.
    pub filter: Option<F>,
}

/// Appends an ending.
///
/// # Conditions
/// There are at most 4,294,967,295 outputs, and the prefilter may be written.
///
/// # Errors
/// Out of memory; `dst` then still begins with what it held.
pub fn write_ending<V: Serializable + Copy, F: SerializableVec + Drop, A: Allocator, B: Allocator>(
    outputs: &Vec<Output<V>, A>,
    mode: SearchMode,
    num_states: u32,
    filter: &Option<F>,
    dst: &mut Vec<u8, B>,
) -> Result<()>
    requires few { vec_len outputs.now < 2 ^ 32 }
    requires filter { IfSome (option_shape F.shape filter.now) F.can_write }
    ensures written { OnOk result (dst.new.items ≡ dst.old.items
        ++ ending_form V.form F.form (outputs.now.items, (mode, (num_states, option_shape F.shape filter.now)))) }
    ensures kept { Begins dst.old.items dst.new.items }
    ensures err { IfErr result IsOutOfMemory }
{
    outputs.serialize_to_vec(dst)?;
    mode.serialize_to_vec(dst)?;
    num_states.serialize_to_vec(dst)?;
    filter.serialize_to_vec(dst)
}

/// Reads an ending, and returns it with the bytes after it. What was read may be written.
///
/// # Errors
/// Bytes that hold no ending, or out of memory.
pub fn read_ending<
    V: Serializable + Copy,
    F: SerializableVec<Alloc = A> + Drop,
    A: Allocator + Copy,
>(alloc: A, src: &[u8]) -> Result<(Ending<V, F, A>, &[u8])>
    ensures given { GivesView (λ e. (e.outputs.items, (e.mode, (e.num_states, option_shape F.shape e.filter))))
        result (take_ending V.taken F.taken src.now) }
    ensures few { IfOk result (λ r. vec_len r.0.outputs < 2 ^ 32) }
    ensures again { IfOk result (λ r. IfSome (option_shape F.shape r.0.filter) F.can_write) }
    ensures err { IfErr result (IsReadRefusal (IsOfEnding V.taken V.own_refusal F.own_refusal src.now)) }
{
    let (outputs, rest) = <Vec<Output<V>, A>>::deserialize_from_slice(alloc, src)?;
    let (mode, rest) = SearchMode::deserialize_from_slice(rest)?;
    let (num_states, rest) = u32::deserialize_from_slice(rest)?;
    let (filter, rest) = <Option<F>>::deserialize_from_slice(alloc, rest)?;
    let ending = Ending {
        outputs,
        mode,
        num_states,
        filter,
    };
    Ok((ending, rest))
}

/// How many bytes are reserved for a value's form at most: those of the greatest number, with a
/// flag. A longer form makes the vector grow.
pub const VALUE_ROOM: usize = 17;

/// The greatest length of an ending, in bytes, if no value takes more than [`VALUE_ROOM`]; capped
/// at `usize::MAX`.
#[tactic(auto, using(crate::proofs::Sizes::product_saturates))]
pub fn ending_room<V: Serializable + Copy, F: SerializableVec + Drop, A: Allocator>(
    outputs: &Vec<Output<V>, A>,
    filter: &Option<F>,
) -> usize
    ensures { result ≡ min (ending_most (min V.form_len VALUE_ROOM) F.form_len outputs.now.items (option_shape F.shape filter.now)) (2 ^ 64 - 1) }
{
    (V::serialized_bytes().min(VALUE_ROOM) + 8)
        .saturating_mul(outputs.len())
        .saturating_add(9)
        .saturating_add(filter.serialized_bytes())
}
