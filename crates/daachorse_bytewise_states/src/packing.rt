//! A trie written into the elements of a double array.

ghost use Rattle.std.specs.Prelude.{◌≡◌, ◌≢◌, ◌+◌, ◌<◌, ◌≤◌, ◌^◌, ◌*◌, ℕ, length, slice_index, IfOk, IfErr, OnOk, Some};
ghost use Rattle.std.specs.Ordering.{nat_cmp};
ghost use Rattle.daachorse_core.specs.Outputs.{number};
ghost use Rattle.daachorse_core.specs.Refusals.{IsOutOfMemory, IsRefusal};
ghost use Rattle.daachorse_core.specs.declared.errors.Limit.TheVariants.{NumElements};
ghost use Rattle.daachorse_build.specs.Builders.{states_of};
ghost use Rattle.daachorse_bytewise_states.specs.Packing.{AreByteGroups, ArePackedOf, ElementsHoldTrie};
ghost use Rattle.daachorse_placement.specs.Placement.{HasSizes};
ghost use Rattle.daachorse_build.specs.EdgeMaps.{id_at};
ghost use Rattle.daachorse_build.specs.Groups.{IsProfileOf};
ghost use Rattle.daachorse_build.specs.Tables.{HoldTrie, edges_of, fails_of, positions_of};
ghost use Rattle.daachorse_bytewise_states.specs.Elements.{base_in, check_in, fail_in, output_in};
ghost use Rattle.daachorse_bytewise_states.specs.Writing.{AreLabelled, AreVacant, HasWritten, HasVacants};
ghost use Rattle.daachorse_patterns.specs.Settled.{HavePlaces, HasManyGroups};

use crate::state::State;
use daachorse_build::edge_map::EdgeMap;
use daachorse_build::nfa_builder::{NfaBuilder, NfaBuilderState};
use daachorse_core::DEAD_STATE_IDX;
use daachorse_core::errors::Result;
use daachorse_placement::build_helper::{BuildHelper, Profile, SiblingGroup};
use std::alloc::Allocator;

/// The length of a block: all bytes lead from one base into one block.
pub(crate) const BLOCK_LEN: u32 = 256;

/// The elements that hold a builder's trie, whose links and outputs are built. The groups of
/// siblings that the profile counted most are placed first.
///
/// # Errors
/// [`Limit::NumElements`](daachorse_core::errors::Limit::NumElements) if the groups need too many
/// blocks, or out of memory.
pub(crate) fn pack<V: Copy, A: Allocator + Copy>(
    alloc: A,
    nfa: &NfaBuilder<u8, V, A>,
    profile: &Profile<A>,
) -> Result<Vec<State<u32>, A>>
    requires trie { HoldTrie nat_cmp (states_of nfa.now) }
    requires count { length (states_of nfa.now) ≤ 2 ^ 32 }
    requires profile { IsProfileOf (length (states_of nfa.now)) profile.now }
    requires links { (t : ℕ) → t < length (states_of nfa.now) → t ≢ 1 → slice_index (fails_of (states_of nfa.now)) t < length (states_of nfa.now) }
    requires outputs { (t : ℕ) → t < length (states_of nfa.now) → t ≢ 1 → slice_index (positions_of (states_of nfa.now)) t < 2 ^ 24 }
    ensures ok { IfOk result (λ elements. ArePackedOf (states_of nfa.now) elements.items) }
    ensures few { IfOk result (λ elements. length elements.items < 2 ^ 32) }
    ensures err { IfErr result (IsRefusal ⊥ NumElements (HasManyGroups (λ b. b) 256 (states_of nfa.now))) }
{
    let groups = byte_groups(alloc, nfa, profile)?;
    let helper = BuildHelper::new(alloc, &groups, nfa.states().len(), BLOCK_LEN, true)?;
    write_states(alloc, nfa.states(), &helper)
}

/// The groups of siblings of a trie over bytes, the heaviest first.
fn byte_groups<V: Copy, A: Allocator + Copy>(
    alloc: A,
    nfa: &NfaBuilder<u8, V, A>,
    profile: &Profile<A>,
) -> Result<Vec<SiblingGroup<A>, A>>
    requires trie { HoldTrie nat_cmp (states_of nfa.now) }
    requires profile { IsProfileOf (length (states_of nfa.now)) profile.now }
    ensures ok { IfOk result (λ groups. AreByteGroups groups.items (edges_of (states_of nfa.now))) }
    ensures err { IfErr result IsOutOfMemory }
{
    let groups = nfa.sibling_groups(
        alloc,
        profile,
        |label: u8| -> u32
            ensures same { result ≡ label }
            ensures below { result < 256 }
        { u32::from(label) },
    )?;
    Ok(groups)
}

/// The elements of a placement, with each state written to its own.
fn write_states<V: Copy, A: Allocator + Copy>(
    alloc: A,
    states: &[NfaBuilderState<u8, V, A>],
    helper: &BuildHelper<A>,
) -> Result<Vec<State<u32>, A>>
    requires trie { HoldTrie nat_cmp states.now }
    requires sizes { HasSizes helper.now 256 (length states.now) }
    requires places { HavePlaces helper.now.idx (length states.now) (length helper.now.used) }
    requires links { (t : ℕ) → t < length states.now → t ≢ 1 → slice_index (fails_of states.now) t < length states.now }
    requires outputs { (t : ℕ) → t < length states.now → t ≢ 1 → slice_index (positions_of states.now) t < 2 ^ 24 }
    ensures ok { IfOk result (λ elements. ElementsHoldTrie helper.now (edges_of states.now) (fails_of states.now) (positions_of states.now) elements.items) }
    ensures few { IfOk result (λ elements. length elements.items < 2 ^ 32) }
    ensures err { IfErr result IsOutOfMemory }
{
    let labels = labels(alloc, states)?;
    let mut elements = vacant_elements(alloc, helper)?;
    place_states(
        &mut elements,
        states,
        &labels,
        helper.idx_map(),
        helper.bases(),
    );
    Ok(elements)
}

/// The byte that leads to each state, 0 for the root.
fn labels<V: Copy, A: Allocator + Copy>(
    alloc: A,
    states: &[NfaBuilderState<u8, V, A>],
) -> Result<Vec<u8, A>>
    requires { HoldTrie nat_cmp states.now }
    ensures ok { IfOk result (λ labels. AreLabelled (edges_of states.now) labels.items) }
    ensures err { IfErr result IsOutOfMemory }
{
    let mut labels = vec![in alloc; 0u8; states.len()]?;
    label_states(&mut labels, states);
    Ok(labels)
}

/// Sets the label of each state.
fn label_states<V: Copy, A: Allocator>(labels: &mut [u8], states: &[NfaBuilderState<u8, V, A>])
    requires trie { HoldTrie nat_cmp states.now }
    requires size { length labels.old ≡ length states.now }
    requires root { slice_index labels.old 0 ≡ 0 }
    ensures { AreLabelled (edges_of states.now) labels.new }
{
    for state in states {
        label_children(labels, state.edges());
    }
}

/// Sets the label of each child that the edges lead to.
fn label_children<A: Allocator>(labels: &mut [u8], edges: &EdgeMap<u8, A>)
    requires inside { (c t : ℕ) → id_at nat_cmp edges.now c ≡ Some t → t < length labels.old }
    requires apart { (c d t : ℕ) → id_at nat_cmp edges.now c ≡ Some t → id_at nat_cmp edges.now d ≡ Some t → c ≡ d }
    ensures size { length labels.new ≡ length labels.old }
    ensures set { (c t : ℕ) → id_at nat_cmp edges.now c ≡ Some t → slice_index labels.new t ≡ c }
    ensures kept { (t : ℕ) → ((c : ℕ) → id_at nat_cmp edges.now c ≢ Some t) → slice_index labels.new t ≡ slice_index labels.old t }
{
    for (label, child) in edges.iter() {
        labels[*child as usize] = *label;
    }
}

/// The elements of a placement while all are vacant. The check of each is what leads to it from the
/// least unused base of its block, so that it is nobody's child. A block without an unused base
/// keeps no vacant element.
fn vacant_elements<A: Allocator + Copy>(
    alloc: A,
    helper: &BuildHelper<A>,
) -> Result<Vec<State<u32>, A>>
    requires block { helper.now.block ≡ 256 }
    requires sizes { length helper.now.used ≡ helper.now.blocks * 256 }
    ensures ok { IfOk result (λ elements. AreVacant helper.now elements.items) }
    ensures few { IfOk result (λ elements. length elements.items < 2 ^ 32) }
    ensures err { IfErr result IsOutOfMemory }
{
    let num_elements = helper.num_elements();
    let mut elements = Vec::with_capacity(alloc, num_elements as usize)?;
    for block in 0..num_elements / BLOCK_LEN {
        let unused_base = helper.unused_base_in_block(block).unwrap_or(0);
        push_block(&mut elements, block * BLOCK_LEN, unused_base)?;
    }
    Ok(elements)
}

/// Appends a block of vacant elements.
fn push_block<A: Allocator>(
    elements: &mut Vec<State<u32>, A>,
    first: u32,
    unused_base: u32,
) -> Result<()>
    requires fits { first + 256 < 2 ^ 32 }
    requires first { length elements.old.items ≡ first }
    ensures block { OnOk result (HasVacants 256 unused_base elements.old.items elements.new.items) }
    ensures err { IfErr result IsOutOfMemory }
{
    for idx in first..first + BLOCK_LEN {
        let check = ((idx ^ unused_base) % BLOCK_LEN) as u8;
        elements.push(State::new(0, check, 0, None))?;
    }
    Ok(())
}

/// Writes each state but the dead one to its element.
fn place_states<V: Copy, A: Allocator>(
    elements: &mut [State<u32>],
    states: &[NfaBuilderState<u8, V, A>],
    labels: &[u8],
    idx_map: &[u32],
    bases: &[u32],
)
    requires labels { length labels.now ≡ length states.now }
    requires bases { length bases.now ≡ length states.now }
    requires places { HavePlaces idx_map.now (length states.now) (length elements.old) }
    requires links { (t : ℕ) → t < length states.now → t ≢ 1 → slice_index (fails_of states.now) t < length states.now }
    requires outputs { (t : ℕ) → t < length states.now → t ≢ 1 → slice_index (positions_of states.now) t < 2 ^ 24 }
    ensures { HasWritten (length states.now) idx_map.now bases.now labels.now (fails_of states.now) (positions_of states.now) elements.old elements.new }
{
    for (id, state) in states.iter().enumerate() {
        if id == DEAD_STATE_IDX as usize {
            continue;
        }
        let fail = idx_map[state.fail() as usize];
        let idx = idx_map[id] as usize;
        elements[idx] = State::new(bases[id], labels[id], fail, state.output_pos());
    }
}
