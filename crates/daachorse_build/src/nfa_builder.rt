//! The trie of the patterns, with its failure links and its lists of outputs.
#![tactic(auto, using(daachorse_core::proofs::Failures::failures))]

ghost use Rattle.std.specs.Prelude.{◌≡◌, true, false, Some, ◌+◌, ◌<◌, ◌≤◌, [], length, map, IfOk, IfErr, OnOk};
ghost use Rattle.daachorse_model.specs.Units.{size};
ghost use Rattle.daachorse_core.specs.Outputs.{ParentsFall, number};
ghost use Rattle.daachorse_core.specs.declared.errors.Limit.TheVariants.{Outputs, StateId};
ghost use Rattle.daachorse_build.specs.Tables.{fails_of, child_of, stops_of, HoldTrie, edge_map, own_outputs_of, link_of, position_of};
ghost use Rattle.daachorse_build.specs.Counts.{HasCounts, HasSameCounts, HasCountedMore, LinksLeadBack};
ghost use Rattle.daachorse_build.specs.Groups.{AreSiblingGroups, IsProfileOf};
ghost use Rattle.daachorse_build.specs.Builders.{states_of, outputs_of, count_of, kind_of, Registered};
ghost use Rattle.daachorse_build.specs.Steps.{KeepsPatterns, AddsPattern, IsOneTooMany, HasLinksOf, HoldEitherLinks, HasOutputsOf, KeepsMoreThan};
ghost use Rattle.daachorse_core.specs.Refusals.{IsRefusal, IsOutOfMemory};

mod adding;
mod links;
mod outputs;
mod profile;
mod root_children;
mod siblings;

use crate::edge_map::EdgeMap;
use crate::few::Few;
pub use daachorse_core::edge_label::EdgeLabel;
use daachorse_core::errors::{DaachorseError, OutOfMemoryError, Result};
use daachorse_core::{MatchKind, Output};
use daachorse_placement::build_helper::{Profile, SiblingGroup};
use std::alloc::{Allocator, Global};
use std::cmp::Reverse;
use std::marker::Model;
use std::num::NonZeroU32;

/// The id of the root, the state of the empty text.
pub const ROOT_STATE_ID: u32 = 0;

/// The id of the dead state, which no text leads to.
pub const DEAD_STATE_ID: u32 = 1;

/// A state of the trie. It takes memory of its own from its second edge or its second output on.
#[derive(Drop)]
pub struct NfaBuilderState<L: EdgeLabel, V: Copy, A: Allocator = Global> {
    edges: EdgeMap<L, A>,
    output: Few<(V, u32), A>,
    // The two numbers stand together, since fields are laid out in order.
    fail: u32,
    // 0 stands for none: an `Option<NonZeroU32>` would take twice the bytes.
    output_pos: u32,
}

impl<L: EdgeLabel, V: Copy, A: Allocator> NfaBuilderState<L, V, A> {
    /// The edges: for each label the id of the child.
    pub fn edges(&self) -> &EdgeMap<L, A>
        ensures { result.now ≡ edge_map self.now }
    {
        &self.edges
    }

    /// The id of the state that the failure link leads to, the root until the links are built.
    pub fn fail(&self) -> u32
        ensures { result ≡ link_of self.now }
    {
        self.fail
    }

    /// The position of the state's list of outputs, if it has one.
    pub fn output_pos(&self) -> Option<NonZeroU32>
        ensures { number result ≡ position_of self.now }
    {
        NonZeroU32::new(self.output_pos)
    }
}

impl<L: EdgeLabel, V: Copy, A: Allocator + Copy> NfaBuilderState<L, V, A> {
    /// A state with no edges and no outputs.
    pub fn new(alloc: A) -> Self
        ensures edges { edge_map result ≡ [] }
        ensures fail { link_of result ≡ 0 }
        ensures outputs { own_outputs_of result ≡ [] }
        ensures position { position_of result ≡ 0 }
    {
        Self {
            edges: EdgeMap::default(),
            output: Few::Empty,
            fail: ROOT_STATE_ID,
            output_pos: 0,
        }
    }

    /// Copies the state. Fails if an allocation does.
    pub fn clone(&self) -> Result<Self>
        ensures edges { IfOk result (λ state. edge_map state ≡ edge_map self.now) }
        ensures fail { IfOk result (λ state. link_of state ≡ link_of self.now) }
        ensures outputs { IfOk result (λ state. own_outputs_of state ≡ own_outputs_of self.now) }
        ensures position { IfOk result (λ state. position_of state ≡ position_of self.now) }
        ensures err { IfErr result IsOutOfMemory }
    {
        Ok(Self {
            edges: self.edges.clone()?,
            output: self.output.clone()?,
            fail: self.fail,
            output_pos: self.output_pos,
        })
    }
}

/// A trie of patterns, from which an automaton is made.
///
/// It is that of Aho and Corasick (1975). `add` makes the states, then `build_fails` or
/// `build_fails_leftmost` the links, and then `build_outputs` the outputs.
#[derive(Drop)]
pub struct NfaBuilder<L: EdgeLabel, V: Copy, A: Allocator = Global> {
    states: Vec<NfaBuilderState<L, V, A>, A>,
    outputs: Vec<Output<V>, A>,
    len: usize,
    kind: MatchKind,
}

impl<L: EdgeLabel, V: Copy, A: Allocator> Model for NfaBuilder<L, V, A> {
    ghost use Rattle.daachorse_build.specs.Builders.{Builder};
    ghost use Rattle.daachorse_build.specs.Tables.{HoldTrie};

    ghost Value = { Builder L V A };

    ghost view = { λ b. record { states = b.states.items; outputs = b.outputs.items; count = b.len; kind = b.kind } };

    ghost invariant = { λ b. HoldTrie L.cmp b.states.items };
}

impl<L: EdgeLabel, V: Copy, A: Allocator> NfaBuilder<L, V, A> {
    /// The states: the root, the dead state, and one for each nonempty prefix of a kept pattern.
    pub fn states(&self) -> &[NfaBuilderState<L, V, A>]
        ensures { result.now ≡ states_of self.now }
    {
        self.states.as_slice()
    }

    /// The outputs, none until they are built.
    pub fn outputs(&self) -> &[Output<V>]
        ensures { result.now ≡ outputs_of self.now }
    {
        self.outputs.as_slice()
    }

    /// How many patterns are kept.
    pub fn num_patterns(&self) -> usize
        ensures { result ≡ count_of self.now }
    {
        self.len
    }

    /// The states and the outputs.
    pub fn into_parts(self) -> (Vec<NfaBuilderState<L, V, A>, A>, Vec<Output<V>, A>)
        ensures states { result.0.items ≡ states_of self }
        ensures trie { HoldTrie L.cmp result.0.items }
        ensures outputs { result.1.items ≡ outputs_of self }
    {
        (self.states, self.outputs)
    }
}

impl<L: EdgeLabel, V: Copy, A: Allocator + Copy> NfaBuilder<L, V, A> {
    /// A builder with no pattern. It takes memory for the root and the dead state, which may fail.
    pub fn new(alloc: A, kind: MatchKind) -> Result<Self>
        ensures kind { IfOk result (λ builder. kind_of builder ≡ kind) }
        ensures outputs { IfOk result (λ builder. outputs_of builder ≡ []) }
        ensures registered { IfOk result (λ builder. Registered L.cmp L.unit L.width builder []) }
        ensures fits { IfOk result (λ builder. length (states_of builder) ≤ 4294967296) }
        ensures err { IfErr result IsOutOfMemory }
    {
        let mut states = Vec::new(alloc);
        states.push(NfaBuilderState::new(alloc))?;
        states.push(NfaBuilderState::new(alloc))?;
        Ok(Self {
            states,
            outputs: Vec::new(alloc),
            len: 0,
            kind,
        })
    }

    /// Adds a pattern with its value. After an error the builder is of no use.
    ///
    /// Under `LeftmostFirst` a pattern that extends an earlier one can never be found: it is left
    /// out, and no state is made for it.
    ///
    /// # Errors
    /// A pattern of more than 4,294,967,295 bytes or one that needs the state id 4,294,967,296 is
    /// refused; or out of memory.
    pub fn add(&mut self, pattern: &[L], value: V) -> Result<()>
        ensures kind { kind_of self.new ≡ kind_of self.old }
        ensures outputs { outputs_of self.new ≡ outputs_of self.old }
        ensures added { OnOk result (AddsPattern L.cmp L.unit L.width self.old self.new pattern.now value) }
        ensures err { IfErr result (IsRefusal (4294967295 < size L.width (map L.unit pattern.now)) StateId (IsOneTooMany L.cmp L.unit L.width self.old pattern.now value)) }
    {
        let size = adding::pattern_size(pattern)?;
        if self.kind.is_leftmost_first() && adding::extends_key(&self.states, pattern) {
            return Ok(());
        }
        // Not reached: it takes centuries to add 2^64 patterns.
        let Some(len) = self.len.checked_add(1) else {
            return Err(DaachorseError::OutOfMemory(OutOfMemoryError));
        };
        adding::add_pattern(&mut self.states, pattern, value, size)?;
        self.len = len;
        Ok(())
    }

    /// Sets the failure links, and returns the ids of all states but the root, breadth-first.
    ///
    /// The link of a state leads to the state of the longest proper suffix of its text that is a
    /// prefix of a pattern (Aho and Corasick 1975); that of the root leads to the root. Fails if an
    /// allocation does.
    pub fn build_fails(&mut self, alloc: A) -> Result<Vec<u32, A>>
        ensures kept { KeepsPatterns self.old self.new }
        ensures outputs { outputs_of self.new ≡ outputs_of self.old }
        ensures links { IfOk result (λ order. HasLinksOf L.cmp L.unit L.width false self.old self.new order.items) }
        ensures err { IfErr result IsOutOfMemory }
    {
        self.find_links(alloc, false)
    }

    /// Sets the leftmost links, and returns the ids of all states but the root, breadth-first.
    ///
    /// A link is that of [`Self::build_fails`], but dead if a key in the state's text starts before
    /// the text of the link does. Fails if an allocation does.
    pub fn build_fails_leftmost(&mut self, alloc: A) -> Result<Vec<u32, A>>
        ensures kept { KeepsPatterns self.old self.new }
        ensures outputs { outputs_of self.new ≡ outputs_of self.old }
        ensures links { IfOk result (λ order. HasLinksOf L.cmp L.unit L.width true self.old self.new order.items) }
        ensures err { IfErr result IsOutOfMemory }
    {
        self.find_links(alloc, true)
    }

    fn find_links(&mut self, alloc: A, leftmost: bool) -> Result<Vec<u32, A>>
        ensures kept { KeepsPatterns self.old self.new }
        ensures outputs { outputs_of self.new ≡ outputs_of self.old }
        ensures links { IfOk result (λ order. HasLinksOf L.cmp L.unit L.width leftmost self.old self.new order.items) }
        ensures err { IfErr result IsOutOfMemory }
    {
        links::link_states(alloc, &mut self.states, leftmost)
    }

    /// Makes the lists of outputs, and drops those made before.
    ///
    /// The list of a state is its own outputs and then the list of its link, unless that is dead;
    /// the list of the root is its own outputs. There is one output, of 8 bytes and a value, for
    /// each kept pattern.
    ///
    /// # Conditions
    /// `order` is what [`Self::build_fails`] or [`Self::build_fails_leftmost`] returned.
    ///
    /// # Errors
    /// More than 4,294,967,295 outputs are refused; or out of memory.
    pub fn build_outputs(&mut self, order: &[u32]) -> Result<()>
        requires { HoldEitherLinks L.cmp (states_of self.old) order.now }
        ensures kept { KeepsPatterns self.old self.new }
        ensures links { fails_of (states_of self.new) ≡ fails_of (states_of self.old) }
        ensures parents { ParentsFall (outputs_of self.new) }
        ensures outputs { OnOk result (HasOutputsOf L.cmp L.unit L.width self.old self.new order.now) }
        ensures err { IfErr result (IsRefusal ⊥ Outputs (KeepsMoreThan L.cmp L.unit L.width 4294967295 self.old)) }
    {
        self.outputs.clear();
        outputs::put_lists(&mut self.states, &mut self.outputs, order)
    }

    /// Counts into the profile what a search over a document reads, from the root on.
    ///
    /// At each state that is looked at for a label a visit is counted, and then a visit of its
    /// child by the label; if it has edges but not this one, a probe. Without a child the label is
    /// looked up at the link next, until the root has no child or the link is dead. With
    /// `dense_root` nothing is counted at the root, and a label that `has_label` denies leads to
    /// the root uncounted.
    ///
    /// A leftmost search keeps the place after the last label that led to a state with outputs,
    /// other than the root. When a label leads to the root, it goes on from that place, and forgets
    /// it. Counts saturate.
    ///
    /// # Conditions
    /// The links are built, and the profile has both counts for each state.
    pub fn profile_haystack<H: Fn(L) -> bool + Drop>(
        &self,
        haystack: &[L],
        profile: &mut Profile<A>,
        dense_root: bool,
        has_label: H,
    )
        requires links { LinksLeadBack L.cmp (states_of self.now) }
        requires counts { HasCounts (length (states_of self.now)) profile.old }
        requires callable { H.IsAlwaysCallable has_label }
        ensures counted { HasCountedMore profile.old profile.new }
        ensures empty { haystack.now ≡ [] → HasSameCounts profile.old profile.new }
    {
        profile::count_document(
            &self.states,
            self.kind.is_leftmost(),
            haystack,
            profile,
            dense_root,
            &has_label,
        );
    }

    /// The groups of siblings: for each state with edges its children by rising labels, each as
    /// `map_label` of its label and its id. Fails if an allocation does.
    ///
    /// The weight of a group is the probes of the parent and the visits of the children, or 0 if
    /// the profile is empty. Groups come by falling weight. Those of one weight come in the order
    /// of a stack that begins with the root: popping a state pushes its children by rising labels.
    ///
    /// # Conditions
    /// The profile is of this builder's states, and `map_label` may be called with any label.
    pub fn sibling_groups<F: Fn(L) -> u32 + Drop>(
        &self,
        alloc: A,
        profile: &Profile<A>,
        map_label: F,
    ) -> Result<Vec<SiblingGroup<A>, A>>
        requires profile { IsProfileOf (length (states_of self.now)) profile.now }
        requires callable { F.IsAlwaysCallable map_label }
        ensures groups { IfOk result (λ groups. AreSiblingGroups L.cmp (F.post map_label) (states_of self.now) profile.now groups.items) }
        ensures err { IfErr result IsOutOfMemory }
    {
        let mut groups = siblings::groups_of(alloc, &self.states, profile, &map_label)?;
        if !profile.is_empty() {
            groups.sort_by_key(|group| Reverse(group.weight))?;
        }
        Ok(groups)
    }
}

/// The child of a state by a label.
fn child<L: EdgeLabel, V: Copy, A: Allocator>(
    states: &[NfaBuilderState<L, V, A>],
    id: u32,
    label: L,
) -> Option<u32>
    requires { id < length states.now }
    ensures { result ≡ child_of L.cmp states.now id label }
{
    states[id as usize].edges.get(&label).copied()
}

/// Whether links end at a state: with `leftmost`, at each with an output of its own.
fn stops<L: EdgeLabel, V: Copy, A: Allocator>(
    states: &[NfaBuilderState<L, V, A>],
    leftmost: bool,
    id: u32,
) -> bool
    requires { id < length states.now }
    ensures { result ≡ stops_of leftmost states.now id }
{
    leftmost && !states[id as usize].output.is_empty()
}
