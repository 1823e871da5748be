//! The states of an automaton over bytes, as they are kept.

ghost use Rattle.std.specs.Prelude.{◌≡◌, ◌≢◌, ◌<◌, ◌%◌, ◌^◌, ℕ, List, length, map, slice_index_or, IfOk, IfErr};
ghost use Rattle.daachorse_core.specs.declared.errors.Limit.TheVariants.{NumElements};
ghost use Rattle.daachorse_core.specs.Refusals.{IsOutOfMemory, IsRefusal};
ghost use Rattle.daachorse_model.specs.Dictionary.{Dictionary};
ghost use Rattle.daachorse_build.specs.Builders.{states_of};
ghost use Rattle.daachorse_build.specs.Groups.{IsProfileOf};
ghost use Rattle.daachorse_bytewise_states.specs.Packing.{IsBuiltFor};
ghost use Rattle.daachorse_patterns.specs.Prefixes.{HasMoreProperPrefixes};
ghost use Rattle.daachorse_model.specs.declared.MatchKind.TheVariants.{Standard};
ghost use Rattle.daachorse_model.specs.Paths.{is_reached};
ghost use Rattle.daachorse_model.specs.Prefixes.{HasPrefixes, PassesAt};
ghost use Rattle.daachorse_bytewise_states.specs.Elements.{base_in, fail_in, vacant, word_in};
ghost use Rattle.daachorse_bytewise_states.specs.Parts.{child, child_among, content, count, parts_of, without_link};
ghost use Rattle.daachorse_bytewise_states.specs.Valid.{IsRootTable, IsValid};

mod form;
mod lookup;

use crate::edges::Elements;
use crate::for_kinds::{ByKind, ForKinds};
use crate::packing::pack;
use crate::state::State;
use crate::view::{Leftmost, Standard, View};
use daachorse_array::array::Array;
use daachorse_build::nfa_builder::NfaBuilder;
use daachorse_core::errors::Result;
use daachorse_core::{Empty, MatchKind, Output, ROOT_STATE_IDX};
use daachorse_placement::build_helper::Profile;
use std::alloc::{Allocator, Global};
use std::hash::{Hash, Hasher};
use std::marker::Model;

/// The states and the outputs of an automaton over bytes, with values of type `V`.
///
/// For standard searches an element keeps its failure link, and a table has the element that each
/// byte leads to from the root. For leftmost searches the links stand beside the elements. The
/// outputs are a list of their own.
#[derive(Drop)]
pub struct States<V: Copy, A: Allocator = Global> {
    kind: MatchKind,
    standard: Vec<State<u32>, A>,
    root: Vec<(u32, u32), A>,
    leftmost: Vec<State<Empty>, A>,
    fails: Vec<u32, A>,
    outputs: Vec<Output<V>, A>,
    pub(crate) num_states: u32,
}

impl<V: Copy, A: Allocator> Model for States<V, A> {
    ghost use Rattle.daachorse_bytewise_states.specs.Parts.{Parts};
    ghost use Rattle.daachorse_bytewise_states.specs.Valid.{IsStored};

    ghost Value = { Parts V };

    ghost view = { λ s. record {
      kind = s.kind;
      standard = s.standard.items;
      leftmost = s.leftmost.items;
      fails = s.fails.items;
      outputs = s.outputs.items;
      num_states = s.num_states;
    } };

    ghost invariant = { λ s. IsStored (record {
      kind = s.kind;
      standard = s.standard.items;
      leftmost = s.leftmost.items;
      fails = s.fails.items;
      outputs = s.outputs.items;
      num_states = s.num_states;
    }) s.root.items };
}

impl<V: Copy, A: Allocator + Copy> States<V, A> {
    /// The automaton of a builder whose links and outputs are built, for searches of this kind. The
    /// profile, if it has counts, decides where the states stand, and nothing else.
    ///
    /// # Errors
    /// [`Limit::NumElements`](daachorse_core::errors::Limit::NumElements), only if more than
    /// 16,777,214 texts begin a longer pattern; or out of memory.
    pub fn build(
        alloc: A,
        kind: MatchKind,
        nfa: NfaBuilder<u8, V, A>,
        profile: &Profile<A>,
    ) -> Result<Self>
        requires built { (K : Dictionary V) × IsBuiltFor kind nfa K }
        requires profile { IsProfileOf (length (states_of nfa)) profile.now }
        ensures ok { IfOk result (λ s. (K : Dictionary V) → IsBuiltFor kind nfa K → (w : List ℕ) → content s w ≡ K w) }
        ensures kind { IfOk result (λ s. s.kind ≡ kind) }
        ensures err { IfErr result (IsRefusal ⊥ NumElements ((K : Dictionary V) → IsBuiltFor kind nfa K → HasMoreProperPrefixes K 16777214)) }
    {
        let elements = pack(alloc, &nfa, profile)?;
        // All states but the dead one.
        let num_states = (nfa.states().len() - 1) as u32;
        let (_states, outputs) = nfa.into_parts();
        Self::new(alloc, kind, elements, outputs, num_states)
    }

    /// The automaton of these elements and outputs.
    pub(crate) fn new(
        alloc: A,
        kind: MatchKind,
        elements: Vec<State<u32>, A>,
        outputs: Vec<Output<V>, A>,
        num_states: u32,
    ) -> Result<Self>
        requires { IsValid (parts_of kind elements.items outputs.items num_states) }
        ensures ok { IfOk result (λ s. s ≡ parts_of kind elements.items outputs.items num_states) }
        ensures err { IfErr result IsOutOfMemory }
    {
        if kind.is_leftmost() {
            let leftmost = without_links(alloc, elements.as_slice())?;
            let fails = links(alloc, elements.as_slice())?;
            return Ok(Self {
                kind,
                standard: Vec::new(alloc),
                root: Vec::new(alloc),
                leftmost,
                fails,
                outputs,
                num_states,
            });
        }
        let root = root_table(alloc, elements.as_slice())?;
        Ok(Self {
            kind,
            standard: elements,
            root,
            leftmost: Vec::new(alloc),
            fails: Vec::new(alloc),
            outputs,
            num_states,
        })
    }
}

impl<V: Copy, A: Allocator> States<V, A> {
    /// The kind of match that the automaton finds.
    #[inline(always)]
    pub fn kind(&self) -> MatchKind
        ensures { result ≡ self.now.kind }
    {
        self.kind
    }

    /// The number of elements, those that hold no state included.
    #[inline(always)]
    pub fn num_elements(&self) -> usize
        ensures all { result ≡ count self.now }
        ensures few { result < 2 ^ 32 }
    {
        self.elements().num_elements()
    }

    /// The elements, in whichever list they stand.
    pub(crate) fn elements(&self) -> Elements<'_, V>
        ensures parts { result ≡ self.entry.now }
        ensures valid { IsValid result }
        ensures few { result.num_states < 2 ^ 32 }
    {
        self.elements_in::<ByKind>()
    }

    /// The elements, with `K` to find their list.
    pub(crate) fn elements_in<K: ForKinds>(&self) -> Elements<'_, V, K>
        requires { K.fits self.now.kind }
        ensures parts { result ≡ self.entry.now }
        ensures valid { IsValid result }
        ensures few { result.num_states < 2 ^ 32 }
    {
        Elements::new(
            self.kind,
            self.standard.as_slice(),
            self.leftmost.as_slice(),
            self.fails.as_slice(),
            self.outputs.as_slice(),
            self.num_states,
        )
    }

    /// The number of texts that begin a pattern, the empty one included.
    #[inline(always)]
    pub fn num_states(&self) -> u32
        ensures reached { PassesAt (is_reached (child self.now)) result }
        ensures prefixes { HasPrefixes (content self.now) result }
    {
        self.num_states
    }

    /// What standard searches see.
    #[inline(always)]
    pub fn standard(&self) -> Standard<'_, V>
        requires { self.now.kind ≡ Standard }
        ensures { result ≡ self.entry.now }
    {
        prove!(self.kind.is_standard());
        View::new(
            self.kind,
            self.standard.as_slice(),
            self.root.as_slice(),
            self.outputs.as_slice(),
            self.num_states,
        )
    }

    /// What leftmost searches see.
    #[inline(always)]
    #[tactic(auto, using(daachorse_array::proofs::DeadLaws::leftmost_kind))]
    pub fn leftmost(&self) -> Leftmost<'_, V>
        requires { self.now.kind ≢ Standard }
        ensures { result ≡ self.entry.now }
    {
        prove!(self.kind.is_leftmost());
        View::new(
            self.kind,
            self.leftmost.as_slice(),
            self.fails.as_slice(),
            self.outputs.as_slice(),
            self.num_states,
        )
    }
}

impl<V: Copy, A: Allocator + Copy> States<V, A> {
    /// The same states, in memory of their own.
    ///
    /// # Errors
    /// Out of memory.
    pub fn clone(&self) -> Result<Self>
        ensures same { IfOk result (λ s. s ≡ self.now) }
        ensures err { IfErr result IsOutOfMemory }
    {
        Ok(Self {
            kind: self.kind,
            standard: copy_of(&self.standard)?,
            root: copy_of(&self.root)?,
            leftmost: copy_of(&self.leftmost)?,
            fails: copy_of(&self.fails)?,
            outputs: copy_of(&self.outputs)?,
            num_states: self.num_states,
        })
    }
}

/// States are equal if all that they store is.
impl<V: Copy + PartialEq, A: Allocator> PartialEq for States<V, A> {
    ghost use Rattle.daachorse_bytewise_states.specs.Equality.{parts_eq, parts_per};

    ghost eq = { parts_eq V.eq };

    ghost laws = { parts_per V.laws };

    fn eq(&self, other: &Self) -> bool {
        self.kind == other.kind
            && (self.standard == other.standard
                && (self.leftmost == other.leftmost
                    && (self.fails == other.fails
                        && (self.outputs == other.outputs && self.num_states == other.num_states))))
    }
}

impl<V: Copy + Eq, A: Allocator> Eq for States<V, A> {
    ghost use Rattle.daachorse_bytewise_states.specs.Equality.{parts_equiv};

    ghost laws = { parts_equiv V.Eq.laws };
}

impl<V: Copy + Hash, A: Allocator> Hash for States<V, A> {
    ghost use Rattle.daachorse_bytewise_states.specs.Equality.{parts_alike, parts_input};

    ghost hash_input = { parts_input V.hash_input };

    ghost respects_eq = { parts_alike V.respects_eq };

    fn hash<H: Hasher>(&self, state: &mut H) {
        self.kind.hash(state);
        self.standard.hash(state);
        self.leftmost.hash(state);
        self.fails.hash(state);
        self.outputs.hash(state);
        self.num_states.hash(state);
    }
}

/// A copy of a vector.
fn copy_of<T: Copy, A: Allocator + Copy>(items: &Vec<T, A>) -> Result<Vec<T, A>>
    ensures ok { IfOk result (λ v. v.items ≡ items.now.items) }
    ensures err { IfErr result IsOutOfMemory }
{
    Ok(Vec::from_slice(*items.allocator(), items.as_slice())?)
}

/// For each byte the root's child, the root itself if there is none, and that element's
/// [`State::word`].
fn root_table<A: Allocator>(alloc: A, states: &[State<u32>]) -> Result<Vec<(u32, u32), A>>
    requires blocks { length states.now % 256 ≡ 0 }
    requires some { 0 < length states.now }
    requires inside { base_in (slice_index_or states.now 0 vacant) < length states.now }
    ensures ok { IfOk result (λ table. IsRootTable (child_among vacant states.now 0) (λ i. word_in (slice_index_or states.now i vacant)) 256 table.items) }
    ensures err { IfErr result IsOutOfMemory }
{
    let root = &states[ROOT_STATE_IDX as usize];
    let mut table = Vec::with_capacity(alloc, 256)?;
    for label in 0..256u32 {
        let child = root.child(label as u8, states).unwrap_or(ROOT_STATE_IDX);
        table.push((child, states[child as usize].word()))?;
    }
    Ok(table)
}

/// The elements without their links.
fn without_links<A: Allocator>(alloc: A, states: &[State<u32>]) -> Result<Vec<State<Empty>, A>>
    ensures ok { IfOk result (λ v. v.items ≡ map without_link states.now) }
    ensures err { IfErr result IsOutOfMemory }
{
    let mut rest = Vec::with_capacity(alloc, states.len())?;
    for state in states {
        rest.push(state.without_link())?;
    }
    Ok(rest)
}

/// The links of the elements.
fn links<A: Allocator>(alloc: A, states: &[State<u32>]) -> Result<Vec<u32, A>>
    ensures ok { IfOk result (λ v. v.items ≡ map fail_in states.now) }
    ensures err { IfErr result IsOutOfMemory }
{
    let mut fails = Vec::with_capacity(alloc, states.len())?;
    for state in states {
        fails.push(state.fail())?;
    }
    Ok(fails)
}
