//! The written form of the states, with the option and the prefilter of the automaton.

ghost use Rattle.std.specs.Prelude.{◌≡◌, ◌↔◌, ◌⊎◌, ◌++◌, ◌-◌, ◌^◌, Bool, List, ℕ, IsTrue, Option, Some, min, IfOk, IfErr};
ghost use Rattle.daachorse_core.specs.Refusals.{IsOutOfMemory};
ghost use Rattle.daachorse_prefilter.specs.Filters.{Filter};
ghost use Rattle.daachorse_serializer.specs.Forms.{GivesView, IsReadRefusal};
ghost use Rattle.daachorse_checker.specs.Reads.{HasNoParts};
ghost use Rattle.daachorse_bytewise_states.specs.PartForms.{AreCounted, AreNumbers, BeginsWithAutomaton, IsAutomaton, IsOfParts, parts_form, parts_in, parts_most, take_parts};
ghost use Rattle.daachorse_bytewise_states.specs.Parts.{Parts};
ghost use Rattle.daachorse_bytewise_states.specs.Valid.{IsValid};

use super::{States, root_table};
use crate::edges::Elements;
use crate::state::State;
use crate::unchecked::are_lists;
use daachorse_core::Empty;
use daachorse_core::errors::{DaachorseError, Result};
use daachorse_prefilter::prefilter::Prefilter;
use daachorse_serializer::ending::{Ending, VALUE_ROOM, ending_room, read_ending, write_ending};
use daachorse_serializer::mode::SearchMode;
use daachorse_serializer::serializer::{Serializable, SerializableVec};
use std::alloc::Allocator;

/// The parts of an automaton as they were read, not yet checked.
#[derive(Drop)]
struct Lists<V: Copy, A: Allocator> {
    standard: Vec<State<u32>, A>,
    leftmost: Vec<State<Empty>, A>,
    fails: Vec<u32, A>,
    ending: Ending<V, Prefilter<A>, A>,
}

/// Reads parts, and returns them with the bytes after them.
///
/// # Errors
/// Bytes that give no parts, or out of memory.
#[tactic(auto, unfolding(crate::specs::PartForms::take_parts))]
fn read_lists<V: Serializable + Copy, A: Allocator + Copy>(
    alloc: A,
    src: &[u8],
) -> Result<(Lists<V, A>, &[u8])>
    ensures given { GivesView parts_in result (take_parts V.taken src.now) }
    ensures again { IfOk result (λ r. AreCounted (parts_in r.0).0) }
    ensures err { IfErr result (IsReadRefusal (IsOfParts V.taken V.own_refusal src.now)) }
{
    let (standard, rest) = <Vec<State<u32>, A>>::deserialize_from_slice(alloc, src)?;
    let (leftmost, rest) = <Vec<State<Empty>, A>>::deserialize_from_slice(alloc, rest)?;
    let (fails, rest) = <Vec<u32, A>>::deserialize_from_slice(alloc, rest)?;
    let (ending, rest) = read_ending(alloc, rest)?;
    let lists = Lists {
        standard,
        leftmost,
        fails,
        ending,
    };
    Ok((lists, rest))
}

impl<V: Copy, A: Allocator + Copy> Lists<V, A> {
    /// Whether the lists are an automaton's.
    fn is_valid(&self, alloc: A) -> Result<bool>
        requires { AreCounted (parts_in self.now).0 }
        ensures ok { IfOk result (λ valid. IsTrue valid ↔ IsValid (parts_in self.now).0) }
        ensures err { IfErr result IsOutOfMemory }
    {
        let kind = self.ending.mode.kind;
        if !are_lists(kind, &self.standard, &self.leftmost, &self.fails) {
            return Ok(false);
        }
        let elements: Elements<'_, V> = Elements::new(
            kind,
            self.standard.as_slice(),
            self.leftmost.as_slice(),
            self.fails.as_slice(),
            self.ending.outputs.as_slice(),
            self.ending.num_states,
        );
        let valid = elements.are_valid(alloc)?;
        Ok(valid)
    }
}

impl<V: Serializable + Copy, A: Allocator> States<V, A> {
    /// The written form of the states, of whether ASCII case is ignored, and of the prefilter, if
    /// there is one.
    ///
    /// # Errors
    /// Out of memory.
    pub fn serialize<B: Allocator>(
        &self,
        alloc: B,
        folds: bool,
        filter: &Option<Prefilter<A>>,
    ) -> Result<Vec<u8, B>>
        ensures ok { IfOk result (λ bytes. bytes.items ≡ parts_form V.form self.now folds filter.now) }
        ensures automaton { IsAutomaton V.is_value self.now filter.now }
        ensures err { IfErr result IsOutOfMemory }
    {
        self.in_range();
        filter.in_range();
        let mut bytes = Vec::with_capacity(alloc, self.room(filter))?;
        self.write(folds, filter, &mut bytes)?;
        Ok(bytes)
    }

    /// The greatest length of the form, in bytes, if no value takes more than [`VALUE_ROOM`];
    /// capped at `usize::MAX`.
    fn room(&self, filter: &Option<Prefilter<A>>) -> usize
        ensures { result ≡ min (parts_most (min V.form_len VALUE_ROOM) self.now filter.now) (2 ^ 64 - 1) }
    {
        self.standard
            .serialized_bytes()
            .saturating_add(self.leftmost.serialized_bytes())
            .saturating_add(self.fails.serialized_bytes())
            .saturating_add(ending_room(&self.outputs, filter))
    }

    /// Appends the form.
    #[tactic(auto, unfolding(crate::specs::PartForms::parts_form))]
    fn write<B: Allocator>(
        &self,
        folds: bool,
        filter: &Option<Prefilter<A>>,
        dst: &mut Vec<u8, B>,
    ) -> Result<()>
        ensures written { IfOk result (λ done. dst.new.items ≡ dst.old.items ++ parts_form V.form self.now folds filter.now) }
        ensures err { IfErr result IsOutOfMemory }
    {
        self.standard.serialize_to_vec(dst)?;
        self.leftmost.serialize_to_vec(dst)?;
        self.fails.serialize_to_vec(dst)?;
        let mode = SearchMode {
            kind: self.kind,
            folds,
        };
        write_ending(&self.outputs, mode, self.num_states, filter, dst)
    }

    /// Does nothing. Its contract says that the states are an automaton's.
    fn in_range(&self)
        ensures valid { IsValid self.now }
        ensures numbers { AreNumbers V.is_value self.now }
    {
        self.standard.in_range();
        self.leftmost.in_range();
        self.fails.in_range();
        self.outputs.in_range();
        self.num_states.in_range();
    }
}

impl<V: Serializable + Copy, A: Allocator + Copy> States<V, A> {
    /// The states, the option and the prefilter that `src` begins with, and the bytes after them.
    ///
    /// # Conditions
    /// `src` begins with the written form of an automaton.
    ///
    /// # Errors
    /// Out of memory.
    pub fn deserialize_unchecked(
        alloc: A,
        src: &[u8],
    ) -> Result<((Self, bool, Option<Prefilter<A>>), &[u8])>
        requires { BeginsWithAutomaton V.is_value V.form src.now }
        ensures ok { IfOk result (λ r. (p : Parts V) (folds : Bool) (filter : Option Filter) (rest : List ℕ) → IsAutomaton V.is_value p filter
            → src.now ≡ parts_form V.form p folds filter ++ rest → (r.0.0 ≡ p) × (r.0.1 ≡ folds) × (r.0.2 ≡ filter) × (r.1.now ≡ rest)) }
        ensures err { IfErr result IsOutOfMemory }
    {
        let (lists, rest) = read_lists(alloc, src)?;
        let read = Self::of_lists(alloc, lists)?;
        Ok((read, rest))
    }

    /// As [`Self::deserialize_unchecked`], for untrusted bytes. The states are checked, the option
    /// and the prefilter are not.
    ///
    /// # Errors
    /// [`InvalidAutomaton`](daachorse_core::errors::DaachorseError::InvalidAutomaton) if the bytes
    /// give no valid parts, a value's own error, or out of memory.
    pub fn deserialize(alloc: A, src: &[u8]) -> Result<((Self, bool, Option<Prefilter<A>>), &[u8])>
        ensures given { IfOk result (λ r. take_parts V.taken src.now ≡ Some ((r.0.0, (r.0.1, r.0.2)), r.1.now)) }
        ensures valid { IfOk result (λ r. IsValid r.0.0) }
        ensures err { IfErr result (λ e. IsOutOfMemory e ⊎ HasNoParts IsValid (take_parts V.taken src.now)) }
        ensures cause { IfErr result (IsReadRefusal (IsOfParts V.taken V.own_refusal src.now)) }
    {
        let (lists, rest) = read_lists(alloc, src)?;
        if !lists.is_valid(alloc)? {
            return Err(DaachorseError::invalid_automaton());
        }
        let states = Self::of_lists(alloc, lists)?;
        Ok((states, rest))
    }

    /// The states of these lists, the option and the prefilter.
    fn of_lists(alloc: A, lists: Lists<V, A>) -> Result<(Self, bool, Option<Prefilter<A>>)>
        requires { IsValid (parts_in lists).0 }
        ensures ok { IfOk result (λ r. r.0 ≡ (parts_in lists).0) }
        ensures folds { IfOk result (λ r. r.1 ≡ (parts_in lists).1.0) }
        ensures filter { IfOk result (λ r. r.2 ≡ (parts_in lists).1.1) }
        ensures err { IfErr result IsOutOfMemory }
    {
        let Lists {
            standard,
            leftmost,
            fails,
            ending,
        } = lists;
        let Ending {
            outputs,
            mode,
            num_states,
            filter,
        } = ending;
        let SearchMode { kind, folds } = mode;
        let root = if kind.is_leftmost() {
            Vec::new(alloc)
        } else {
            root_table(alloc, standard.as_slice())?
        };
        let states = Self {
            kind,
            standard,
            root,
            leftmost,
            fails,
            outputs,
            num_states,
        };
        Ok((states, folds, filter))
    }
}
