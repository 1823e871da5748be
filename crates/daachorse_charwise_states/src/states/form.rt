//! The written form of the states, with the option and the prefilter of the automaton.

ghost use Rattle.std.specs.Prelude.{◌≡◌, ◌↔◌, ◌⊎◌, ◌++◌, ◌-◌, ◌^◌, Bool, List, ℕ, IsTrue, Option, Some, min, IfOk, IfErr};
ghost use Rattle.daachorse_core.specs.Refusals.{IsOutOfMemory};
ghost use Rattle.daachorse_checker.specs.Reads.{HasNoParts};
ghost use Rattle.daachorse_prefilter.specs.Filters.{Filter};
ghost use Rattle.daachorse_serializer.specs.Forms.{GivesView, IsReadRefusal};
ghost use Rattle.daachorse_charwise_states.specs.PartForms.{AreCounted, AreNumbers, BeginsWithAutomaton, IsAutomaton, IsOfParts, parts_form, parts_in, parts_most, take_parts};
ghost use Rattle.daachorse_charwise_states.specs.Parts.{Parts};
ghost use Rattle.daachorse_charwise_states.specs.Valid.{IsValid};

use super::States;
use crate::edges::Elements;
use crate::mapper::CodeMapper;
use crate::state::State;
use crate::unchecked::are_grouped;
use daachorse_core::errors::{DaachorseError, Result};
use daachorse_prefilter::prefilter::Prefilter;
use daachorse_serializer::ending::{Ending, VALUE_ROOM, ending_room, read_ending, write_ending};
use daachorse_serializer::mode::SearchMode;
use daachorse_serializer::serializer::{Serializable, SerializableVec};
use std::alloc::Allocator;

/// The parts of an automaton as they were read, not yet checked.
#[derive(Drop)]
struct Lists<V: Copy, A: Allocator> {
    states: Vec<State, A>,
    mapper: CodeMapper<A>,
    ending: Ending<V, Prefilter<A>, A>,
}

/// Reads parts, and returns them with the bytes after them.
///
/// # Errors
/// Bytes that give no parts, or out of memory.
#[tactic(auto, unfolding(crate::specs::PartForms::take_parts))]
fn read_lists<V: Serializable + Copy, A: Allocator + Copy>(
    alloc: A,
    src: &[u8],
) -> Result<(Lists<V, A>, &[u8])>
    ensures given { GivesView parts_in result (take_parts V.taken src.now) }
    ensures again { IfOk result (λ r. AreCounted (parts_in r.0).0) }
    ensures err { IfErr result (IsReadRefusal (IsOfParts V.taken V.own_refusal src.now)) }
{
    let (states, rest) = <Vec<State, A>>::deserialize_from_slice(alloc, src)?;
    let (mapper, rest) = <CodeMapper<A>>::deserialize_from_slice(alloc, rest)?;
    let (ending, rest) = read_ending(alloc, rest)?;
    let lists = Lists {
        states,
        mapper,
        ending,
    };
    Ok((lists, rest))
}

impl<V: Copy, A: Allocator + Copy> Lists<V, A> {
    /// Whether the lists are an automaton's.
    fn is_valid(&self, alloc: A) -> Result<bool>
        requires { AreCounted (parts_in self.now).0 }
        ensures ok { IfOk result (λ valid. IsTrue valid ↔ IsValid (parts_in self.now).0) }
        ensures err { IfErr result IsOutOfMemory }
    {
        if !are_grouped(alloc, self.states.as_slice(), &self.mapper)? {
            return Ok(false);
        }
        let elements = Elements::new(
            alloc,
            self.ending.mode.kind,
            self.states.as_slice(),
            &self.mapper,
            self.ending.outputs.as_slice(),
            self.ending.num_states,
        )?;
        let valid = elements.are_valid(alloc)?;
        Ok(valid)
    }
}

impl<V: Serializable + Copy, A: Allocator> States<V, A> {
    /// The written form of the states, of whether ASCII case is ignored, and of the prefilter, if
    /// there is one.
    ///
    /// # Errors
    /// Out of memory.
    pub fn serialize<B: Allocator>(
        &self,
        alloc: B,
        folds: bool,
        filter: &Option<Prefilter<A>>,
    ) -> Result<Vec<u8, B>>
        ensures ok { IfOk result (λ bytes. bytes.items ≡ parts_form V.form self.now folds filter.now) }
        ensures automaton { IsAutomaton V.is_value self.now filter.now }
        ensures err { IfErr result IsOutOfMemory }
    {
        self.in_range();
        filter.in_range();
        let mut bytes = Vec::with_capacity(alloc, self.room(filter))?;
        self.write(folds, filter, &mut bytes)?;
        Ok(bytes)
    }

    /// The greatest length of the form, in bytes, if no value takes more than [`VALUE_ROOM`];
    /// capped at `usize::MAX`.
    fn room(&self, filter: &Option<Prefilter<A>>) -> usize
        ensures { result ≡ min (parts_most (min V.form_len VALUE_ROOM) self.now filter.now) (2 ^ 64 - 1) }
    {
        self.states
            .serialized_bytes()
            .saturating_add(self.mapper.serialized_bytes())
            .saturating_add(ending_room(&self.outputs, filter))
    }

    /// Appends the form.
    #[tactic(auto, unfolding(crate::specs::PartForms::parts_form))]
    fn write<B: Allocator>(
        &self,
        folds: bool,
        filter: &Option<Prefilter<A>>,
        dst: &mut Vec<u8, B>,
    ) -> Result<()>
        ensures written { IfOk result (λ done. dst.new.items ≡ dst.old.items ++ parts_form V.form self.now folds filter.now) }
        ensures err { IfErr result IsOutOfMemory }
    {
        self.states.serialize_to_vec(dst)?;
        self.mapper.serialize_to_vec(dst)?;
        let mode = SearchMode {
            kind: self.kind,
            folds,
        };
        write_ending(&self.outputs, mode, self.num_states, filter, dst)
    }

    /// Does nothing. Its contract says that the states are an automaton's.
    fn in_range(&self)
        ensures valid { IsValid self.now }
        ensures numbers { AreNumbers V.is_value self.now }
    {
        self.states.in_range();
        self.mapper.in_range();
        self.outputs.in_range();
        self.num_states.in_range();
    }
}

impl<V: Serializable + Copy, A: Allocator + Copy> States<V, A> {
    /// The states, the option and the prefilter that `src` begins with, and the bytes after them.
    ///
    /// # Conditions
    /// `src` begins with the written form of an automaton.
    ///
    /// # Errors
    /// Out of memory.
    pub fn deserialize_unchecked(
        alloc: A,
        src: &[u8],
    ) -> Result<((Self, bool, Option<Prefilter<A>>), &[u8])>
        requires { BeginsWithAutomaton V.is_value V.form src.now }
        ensures ok { IfOk result (λ r. (p : Parts V) (folds : Bool) (filter : Option Filter) (rest : List ℕ) → IsAutomaton V.is_value p filter
            → src.now ≡ parts_form V.form p folds filter ++ rest → (r.0.0 ≡ p) × (r.0.1 ≡ folds) × (r.0.2 ≡ filter) × (r.1.now ≡ rest)) }
        ensures err { IfErr result IsOutOfMemory }
    {
        let (lists, rest) = read_lists(alloc, src)?;
        Ok((Self::of_lists(lists), rest))
    }

    /// As [`Self::deserialize_unchecked`], for untrusted bytes. The states are checked, the option
    /// and the prefilter are not.
    ///
    /// # Errors
    /// [`InvalidAutomaton`](daachorse_core::errors::DaachorseError::InvalidAutomaton) if the bytes
    /// give no valid parts, a value's own error, or out of memory.
    pub fn deserialize(alloc: A, src: &[u8]) -> Result<((Self, bool, Option<Prefilter<A>>), &[u8])>
        ensures given { IfOk result (λ r. take_parts V.taken src.now ≡ Some ((r.0.0, (r.0.1, r.0.2)), r.1.now)) }
        ensures valid { IfOk result (λ r. IsValid r.0.0) }
        ensures err { IfErr result (λ e. IsOutOfMemory e ⊎ HasNoParts IsValid (take_parts V.taken src.now)) }
        ensures cause { IfErr result (IsReadRefusal (IsOfParts V.taken V.own_refusal src.now)) }
    {
        let (lists, rest) = read_lists(alloc, src)?;
        if !lists.is_valid(alloc)? {
            return Err(DaachorseError::invalid_automaton());
        }
        Ok((Self::of_lists(lists), rest))
    }

    /// The states of these lists, the option and the prefilter.
    fn of_lists(lists: Lists<V, A>) -> (Self, bool, Option<Prefilter<A>>)
        requires { IsValid (parts_in lists).0 }
        ensures states { result.0 ≡ (parts_in lists).0 }
        ensures folds { result.1 ≡ (parts_in lists).1.0 }
        ensures filter { result.2 ≡ (parts_in lists).1.1 }
    {
        let Lists {
            states,
            mapper,
            ending,
        } = lists;
        let Ending {
            outputs,
            mode,
            num_states,
            filter,
        } = ending;
        let SearchMode { kind, folds } = mode;
        let states = Self {
            kind,
            states,
            mapper,
            outputs,
            num_states,
        };
        (states, folds, filter)
    }
}
