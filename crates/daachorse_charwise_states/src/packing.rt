//! A trie written into the elements of a double array.

ghost use Rattle.std.specs.Prelude.{◌≡◌, ◌≢◌, ◌<◌, ◌≤◌, ◌^◌, ℕ, length, false, slice_index, IfOk, IfErr};
ghost use Rattle.std.specs.Int.{IsPowerOfTwo};
ghost use Rattle.std.specs.Ordering.{nat_cmp};
ghost use Rattle.daachorse_core.specs.Outputs.{number};
ghost use Rattle.daachorse_core.specs.Refusals.{IsOutOfMemory, IsRefusal};
ghost use Rattle.daachorse_core.specs.declared.errors.Limit.TheVariants.{NumElements};
ghost use Rattle.daachorse_placement.specs.Placement.{AreIds, children_of, group_parent};
ghost use Rattle.daachorse_build.specs.Builders.{states_of};
ghost use Rattle.daachorse_build.specs.Groups.{IsProfileOf};
ghost use Rattle.daachorse_build.specs.Tables.{HoldTrie, edges_of, fails_of, positions_of};
ghost use Rattle.daachorse_charwise_states.specs.Codings.{IsCoding};
ghost use Rattle.daachorse_patterns.specs.Settled.{AreGroupsOf, HavePlaces, AreSettled, HasManyGroups};
ghost use Rattle.daachorse_charwise_states.specs.Elements.{base_in, check_in, fail_in, output_in, vacant};
ghost use Rattle.daachorse_charwise_states.specs.Packing.{AreEdgesCoded, ArePackedOf, HoldElements, code_in};
ghost use Rattle.daachorse_charwise_states.specs.Writing.{AreGroupsApart, HasWritten, HaveCheck, HaveChecks};

use crate::mapper::CodeMapper;
use crate::state::State;
use daachorse_build::nfa_builder::{EdgeLabel, NfaBuilder, NfaBuilderState};
use daachorse_core::DEAD_STATE_IDX;
use daachorse_core::errors::Result;
use daachorse_placement::build_helper::{BuildHelper, Profile, SiblingGroup};
use std::alloc::Allocator;

/// The elements that hold a builder's trie, whose links and outputs are built, in blocks of
/// `block_len`. The groups of siblings that the profile counted most are placed first.
///
/// # Errors
/// [`Limit::NumElements`](daachorse_core::errors::Limit::NumElements) if the groups need too many
/// blocks, or out of memory.
pub(crate) fn pack<V: Copy, A: Allocator + Copy>(
    alloc: A,
    nfa: &NfaBuilder<char, V, A>,
    profile: &Profile<A>,
    mapper: &CodeMapper<A>,
    block_len: u32,
) -> Result<Vec<State, A>>
    requires trie { HoldTrie nat_cmp (states_of nfa.now) }
    requires count { length (states_of nfa.now) ≤ 2 ^ 32 }
    requires profile { IsProfileOf (length (states_of nfa.now)) profile.now }
    requires links { (t : ℕ) → t < length (states_of nfa.now) → t ≢ 1 → slice_index (fails_of (states_of nfa.now)) t < length (states_of nfa.now) }
    requires coding { IsCoding mapper.now }
    requires coded { AreEdgesCoded mapper.now (edges_of (states_of nfa.now)) }
    requires power { IsPowerOfTwo block_len }
    requires block { (2 ≤ block_len) × (mapper.now.alphabet_size ≤ block_len) }
    ensures ok { IfOk result (λ elements. ArePackedOf mapper.now block_len (states_of nfa.now) elements.items) }
    ensures few { IfOk result (λ elements. length elements.items < 2 ^ 32) }
    ensures err { IfErr result (IsRefusal ⊥ NumElements (HasManyGroups (code_in mapper.now) block_len (states_of nfa.now))) }
{
    let groups = coded_groups(alloc, nfa, profile, mapper)?;
    let helper = BuildHelper::new(alloc, &groups, nfa.states().len(), block_len, false)?;
    write_states(alloc, nfa.states(), &groups, &helper)
}

/// The groups of siblings of a trie over characters, labelled by codes, the heaviest first.
fn coded_groups<V: Copy, A: Allocator + Copy>(
    alloc: A,
    nfa: &NfaBuilder<char, V, A>,
    profile: &Profile<A>,
    mapper: &CodeMapper<A>,
) -> Result<Vec<SiblingGroup<A>, A>>
    requires trie { HoldTrie nat_cmp (states_of nfa.now) }
    requires profile { IsProfileOf (length (states_of nfa.now)) profile.now }
    requires coding { IsCoding mapper.now }
    requires coded { AreEdgesCoded mapper.now (edges_of (states_of nfa.now)) }
    ensures ok { IfOk result (λ groups. (block : ℕ) → 2 ≤ block → mapper.now.alphabet_size ≤ block → AreGroupsOf (code_in mapper.now) block groups.items (edges_of (states_of nfa.now))) }
    ensures err { IfErr result IsOutOfMemory }
{
    let groups = nfa.sibling_groups(
        alloc,
        profile,
        |label: char| -> u32
            ensures { result ≡ code_in mapper.entry.now label }
        { mapper.get(label).unwrap_or(0) },
    )?;
    Ok(groups)
}

/// The elements of a placement, with each state written to its own.
fn write_states<V: Copy, A: Allocator + Copy>(
    alloc: A,
    states: &[NfaBuilderState<char, V, A>],
    groups: &[SiblingGroup<A>],
    helper: &BuildHelper<A>,
) -> Result<Vec<State, A>>
    requires settled { (code : ℕ → ℕ) × (block : ℕ) × AreSettled code block false groups.now helper.now (edges_of states.now) }
    requires links { (t : ℕ) → t < length states.now → t ≢ 1 → slice_index (fails_of states.now) t < length states.now }
    ensures ok { IfOk result (λ elements. HoldElements helper.now (edges_of states.now) (fails_of states.now) (positions_of states.now) elements.items) }
    ensures few { IfOk result (λ elements. length elements.items < 2 ^ 32) }
    ensures err { IfErr result IsOutOfMemory }
{
    let mut elements = vec![in alloc; State::default(); helper.num_elements() as usize]?;
    place_states(&mut elements, states, helper.idx_map(), helper.bases());
    set_checks(&mut elements, groups, helper.idx_map());
    Ok(elements)
}

/// Writes each state but the dead one to its element, with the dead state as its check.
fn place_states<L: EdgeLabel, V: Copy, A: Allocator>(
    elements: &mut [State],
    states: &[NfaBuilderState<L, V, A>],
    idx_map: &[u32],
    bases: &[u32],
)
    requires bases { length bases.now ≡ length states.now }
    requires places { HavePlaces idx_map.now (length states.now) (length elements.old) }
    requires links { (t : ℕ) → t < length states.now → t ≢ 1 → slice_index (fails_of states.now) t < length states.now }
    ensures { HasWritten (length states.now) idx_map.now bases.now (fails_of states.now) (positions_of states.now) elements.old elements.new }
{
    for (id, state) in states.iter().enumerate() {
        if id == DEAD_STATE_IDX as usize {
            continue;
        }
        let fail = idx_map[state.fail() as usize];
        let idx = idx_map[id] as usize;
        elements[idx] = State::new(bases[id], DEAD_STATE_IDX, fail, state.output_pos());
    }
}

/// Sets the check of each group's children to their parent's index.
fn set_checks<A: Allocator>(elements: &mut [State], groups: &[SiblingGroup<A>], idx_map: &[u32])
    requires parents { (k : ℕ) → k < length groups.now → group_parent groups.now k < length idx_map.now }
    requires ids { (k : ℕ) → k < length groups.now → AreIds (length idx_map.now) (children_of groups.now k) }
    requires inside { (t : ℕ) → t < length idx_map.now → slice_index idx_map.now t < length elements.old }
    requires apart { AreGroupsApart groups.now idx_map.now }
    ensures { HaveChecks groups.now (length groups.now) idx_map.now elements.old elements.new }
{
    for group in groups {
        let check = idx_map[group.parent as usize];
        set_check(elements, &group.children, idx_map, check);
    }
}

/// Sets the check of these children.
fn set_check(elements: &mut [State], children: &[(u32, u32)], idx_map: &[u32], check: u32)
    requires ids { AreIds (length idx_map.now) children.now }
    requires inside { (t : ℕ) → t < length idx_map.now → slice_index idx_map.now t < length elements.old }
    ensures { HaveCheck children.now (length children.now) check idx_map.now elements.old elements.new }
{
    for (_, child) in children {
        elements[idx_map[*child as usize] as usize].set_check(check);
    }
}
