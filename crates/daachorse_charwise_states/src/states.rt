//! The states of an automaton over characters, as they are kept.

ghost use Rattle.std.specs.Prelude.{◌≡◌, ◌≢◌, ◌<◌, ◌≤◌, ◌^◌, ℕ, List, length, IfOk, IfErr};
ghost use Rattle.daachorse_core.specs.declared.errors.Limit.TheVariants.{NumElements};
ghost use Rattle.daachorse_core.specs.Refusals.{IsOutOfMemory, IsRefusal};
ghost use Rattle.daachorse_model.specs.declared.MatchKind.TheVariants.{Standard};
ghost use Rattle.daachorse_model.specs.Dictionary.{Dictionary};
ghost use Rattle.daachorse_model.specs.Kinds.{is_leftmost};
ghost use Rattle.daachorse_model.specs.Paths.{is_reached};
ghost use Rattle.daachorse_model.specs.Prefixes.{HasPrefixes, PassesAt};
ghost use Rattle.daachorse_build.specs.Builders.{states_of};
ghost use Rattle.daachorse_build.specs.Groups.{IsProfileOf};
ghost use Rattle.daachorse_charwise_states.specs.Codings.{IsCoding};
ghost use Rattle.daachorse_charwise_states.specs.Edges.{IsLettered};
ghost use Rattle.daachorse_charwise_states.specs.Packing.{AreCoded, IsBuiltFor, NeedsManyBlocks};
ghost use Rattle.daachorse_charwise_states.specs.Parts.{child, content, count};
ghost use Rattle.daachorse_charwise_states.specs.Valid.{IsValid};

mod form;
mod lookup;

use crate::edges::Elements;
use crate::mapper::CodeMapper;
use crate::packing::pack;
use crate::state::State;
use crate::view::{Leftmost, Standard, View};
use daachorse_build::nfa_builder::NfaBuilder;
use daachorse_core::errors::Result;
use daachorse_core::{MatchKind, Output};
use daachorse_placement::build_helper::Profile;
use daachorse_search::view::Searches;
use std::alloc::{Allocator, Global};
use std::hash::{Hash, Hasher};
use std::marker::Model;

/// The states and the outputs of an automaton over characters, with values of type `V`. The codes
/// of the characters and the outputs are lists of their own.
#[derive(Drop)]
pub struct States<V: Copy, A: Allocator = Global> {
    kind: MatchKind,
    states: Vec<State, A>,
    mapper: CodeMapper<A>,
    outputs: Vec<Output<V>, A>,
    pub(crate) num_states: u32,
}

impl<V: Copy, A: Allocator> Model for States<V, A> {
    ghost use Rattle.daachorse_charwise_states.specs.Parts.{Parts};
    ghost use Rattle.daachorse_charwise_states.specs.Valid.{IsValid};

    ghost Value = { Parts V };

    ghost view = { λ s. record {
      kind = s.kind;
      states = s.states.items;
      coding = s.mapper;
      outputs = s.outputs.items;
      num_states = s.num_states;
    } };

    ghost invariant = { λ s. IsValid (record {
      kind = s.kind;
      states = s.states.items;
      coding = s.mapper;
      outputs = s.outputs.items;
      num_states = s.num_states;
    }) };
}

impl<V: Copy, A: Allocator + Copy> States<V, A> {
    /// The automaton of a builder whose links and outputs are built, for searches of this kind. The
    /// mapper has a code for each character of a pattern. The profile, if it has counts, decides
    /// where the states stand, and nothing else.
    ///
    /// # Errors
    /// [`Limit::NumElements`](daachorse_core::errors::Limit::NumElements), only if more than
    /// 4,294,967,296 / b - 2 texts begin a longer pattern, for blocks of b elements; or out of
    /// memory.
    #[inline(always)]
    pub fn build(
        alloc: A,
        kind: MatchKind,
        nfa: NfaBuilder<char, V, A>,
        profile: &Profile<A>,
        mapper: CodeMapper<A>,
    ) -> Result<Self>
        requires built { (K : Dictionary V) × IsBuiltFor kind nfa K × AreCoded mapper K }
        requires profile { IsProfileOf (length (states_of nfa)) profile.now }
        requires coding { IsCoding mapper }
        requires block { mapper.alphabet_size ≤ 2 ^ 31 }
        ensures ok { IfOk result (λ s. (K : Dictionary V) → IsBuiltFor kind nfa K → (w : List ℕ) → content s w ≡ K w) }
        ensures kind { IfOk result (λ s. s.kind ≡ kind) }
        ensures mapper { IfOk result (λ s. s.coding ≡ mapper) }
        ensures err { IfErr result (IsRefusal ⊥ NumElements ((K : Dictionary V) → IsBuiltFor kind nfa K → NeedsManyBlocks mapper K)) }
    {
        let block_len = mapper.block_len().unwrap();
        let states = pack(alloc, &nfa, profile, &mapper, block_len)?;
        // All states but the dead one.
        let num_states = (nfa.states().len() - 1) as u32;
        let (_states, outputs) = nfa.into_parts();
        Ok(Self {
            kind,
            states,
            mapper,
            outputs,
            num_states,
        })
    }
}

impl<V: Copy, A: Allocator> States<V, A> {
    /// The kind of match that the automaton finds.
    #[inline(always)]
    pub fn kind(&self) -> MatchKind
        ensures { result ≡ self.now.kind }
    {
        self.kind
    }

    /// The number of elements, those that hold no state included.
    #[inline(always)]
    pub fn num_elements(&self) -> usize
        ensures all { result ≡ count self.now }
        ensures few { result < 2 ^ 32 }
    {
        self.states.len()
    }

    /// The number of texts that begin a pattern, the empty one included.
    #[inline(always)]
    pub fn num_states(&self) -> u32
        ensures reached { PassesAt (is_reached (child self.now)) result }
        ensures prefixes { HasPrefixes (content self.now) result }
    {
        self.num_states
    }

    /// The codes of the characters.
    #[inline(always)]
    pub fn mapper(&self) -> &CodeMapper<A>
        ensures { result.now ≡ self.now.coding }
    {
        &self.mapper
    }

    /// What standard searches see.
    #[inline(always)]
    pub fn standard(&self) -> Standard<'_, V>
        requires { self.now.kind ≡ Standard }
        ensures { result ≡ self.entry.now }
    {
        prove!(self.kind.is_standard());
        self.view()
    }

    /// What leftmost searches see.
    #[inline(always)]
    #[tactic(auto, using(daachorse_array::proofs::DeadLaws::leftmost_kind))]
    pub fn leftmost(&self) -> Leftmost<'_, V>
        requires { self.now.kind ≢ Standard }
        ensures { result ≡ self.entry.now }
    {
        prove!(self.kind.is_leftmost());
        self.view()
    }

    /// What the searches `S` see.
    #[inline(always)]
    fn view<S: Searches>(&self) -> View<'_, V, S>
        requires { is_leftmost self.now.kind ≡ S.leftmost }
        ensures { result ≡ self.entry.now }
    {
        View::new(
            self.kind,
            &self.states,
            &self.mapper,
            &self.outputs,
            self.num_states,
        )
    }
}

impl<V: Copy, A: Allocator + Copy> States<V, A> {
    /// The elements, with the character of each code.
    pub(crate) fn elements(&self, alloc: A) -> Result<Elements<'_, V, A>>
        ensures parts { IfOk result (λ elements. elements.parts ≡ self.entry.now) }
        ensures lettered { IfOk result (λ elements. IsLettered elements) }
        ensures valid { IfOk result (λ elements. IsValid elements.parts) }
        ensures few { IfOk result (λ elements. elements.parts.num_states < 2 ^ 32) }
        ensures err { IfErr result IsOutOfMemory }
    {
        Elements::new(
            alloc,
            self.kind,
            &self.states,
            &self.mapper,
            &self.outputs,
            self.num_states,
        )
    }

    /// The same states, in memory of their own.
    ///
    /// # Errors
    /// Out of memory.
    pub fn clone(&self) -> Result<Self>
        ensures same { IfOk result (λ s. s ≡ self.now) }
        ensures err { IfErr result IsOutOfMemory }
    {
        let states = Vec::from_slice(*self.states.allocator(), &self.states)?;
        let outputs = Vec::from_slice(*self.outputs.allocator(), &self.outputs)?;
        Ok(Self {
            kind: self.kind,
            states,
            mapper: self.mapper.clone()?,
            outputs,
            num_states: self.num_states,
        })
    }
}

/// States are equal if all that they store is.
impl<V: Copy + PartialEq, A: Allocator> PartialEq for States<V, A> {
    ghost use Rattle.daachorse_charwise_states.specs.Equality.{parts_eq, parts_per};

    ghost eq = { parts_eq V.eq };

    ghost laws = { parts_per V.laws };

    fn eq(&self, other: &Self) -> bool {
        self.kind == other.kind
            && (self.states == other.states
                && (self.mapper == other.mapper
                    && (self.outputs == other.outputs && self.num_states == other.num_states)))
    }
}

impl<V: Copy + Eq, A: Allocator> Eq for States<V, A> {
    ghost use Rattle.daachorse_charwise_states.specs.Equality.{parts_equiv};

    ghost laws = { parts_equiv V.Eq.laws };
}

impl<V: Copy + Hash, A: Allocator> Hash for States<V, A> {
    ghost use Rattle.daachorse_charwise_states.specs.Equality.{parts_alike, parts_input};

    ghost hash_input = { parts_input V.hash_input };

    ghost respects_eq = { parts_alike V.respects_eq };

    fn hash<H: Hasher>(&self, state: &mut H) {
        self.kind.hash(state);
        self.states.hash(state);
        self.mapper.hash(state);
        self.outputs.hash(state);
        self.num_states.hash(state);
    }
}
