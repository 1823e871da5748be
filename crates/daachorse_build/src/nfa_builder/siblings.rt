//! The groups of siblings of a trie: each parent with its children.

ghost use Rattle.std.specs.Prelude.{◌≡◌, ℕ, ◌<◌, ◌++◌, List, length, filter, IfOk, IfErr, OnOk};
ghost use Rattle.std.specs.Map.{values_of};
ghost use Rattle.daachorse_core.specs.Refusals.{IsOutOfMemory};
ghost use Rattle.daachorse_build.specs.Tables.{edges_of, HoldTrie};
ghost use Rattle.daachorse_build.specs.Groups.{has_edges, VisitsEachState, IsProfileOf, AreGiven, AreFamilies, AreWeighed, weight_at, parents_of};

use super::{NfaBuilderState, ROOT_STATE_ID};
use crate::edge_map::EdgeMap;
use daachorse_core::edge_label::EdgeLabel;
use daachorse_core::errors::Result;
use daachorse_placement::build_helper::{Profile, SiblingGroup};
use std::alloc::Allocator;

/// The groups of the states with edges, in the order of a stack that begins with the root: popping
/// a state pushes its children by rising labels. A state is read once, for its children and for its
/// group.
pub(super) fn groups_of<L: EdgeLabel, V: Copy, A: Allocator + Copy, F: Fn(L) -> u32>(
    alloc: A,
    states: &[NfaBuilderState<L, V, A>],
    profile: &Profile<A>,
    map_label: &F,
) -> Result<Vec<SiblingGroup<A>, A>>
    requires trie { HoldTrie L.cmp states.now }
    requires profile { IsProfileOf (length states.now) profile.now }
    requires callable { F.IsAlwaysCallable map_label.now }
    ensures parents { IfOk result (λ groups. (order : List ℕ) × VisitsEachState (edges_of states.now) order × (parents_of groups.items ≡ filter (has_edges (edges_of states.now)) order)) }
    ensures families { IfOk result (λ groups. AreFamilies (F.post map_label.now) (edges_of states.now) groups.items) }
    ensures weights { IfOk result (λ groups. AreWeighed (edges_of states.now) profile.now groups.items) }
    ensures err { IfErr result IsOutOfMemory }
{
    let mut groups = Vec::new(alloc);
    let mut stack = Vec::new(alloc);
    stack.push(ROOT_STATE_ID)?;
    while let Some(id) = stack.pop() {
        let edges = states[id as usize].edges();
        if !edges.is_empty() {
            put_children(&mut stack, edges)?;
            let weight = weight_of(states, profile, id);
            groups.push(group_of(alloc, id, edges, weight, map_label)?)?;
        }
    }
    Ok(groups)
}

/// Pushes the children of a state, by rising labels.
fn put_children<L: EdgeLabel, A: Allocator>(
    stack: &mut Vec<u32, A>,
    edges: &EdgeMap<L, A>,
) -> Result<()>
    ensures children { OnOk result (stack.new.items ≡ stack.old.items ++ values_of edges.now) }
    ensures err { IfErr result IsOutOfMemory }
{
    for id in edges.values() {
        stack.push(*id)?;
    }
    Ok(())
}

/// The group of a parent with these edges.
fn group_of<L: EdgeLabel, A: Allocator + Copy, F: Fn(L) -> u32>(
    alloc: A,
    parent: u32,
    edges: &EdgeMap<L, A>,
    weight: usize,
    map_label: &F,
) -> Result<SiblingGroup<A>>
    requires callable { F.IsAlwaysCallable map_label.now }
    ensures parent { IfOk result (λ group. group.parent ≡ parent) }
    ensures children { IfOk result (λ group. AreGiven (F.post map_label.now) edges.now group.children.items) }
    ensures weight { IfOk result (λ group. group.weight ≡ weight) }
    ensures err { IfErr result IsOutOfMemory }
{
    let mut children = Vec::with_capacity(alloc, edges.len())?;
    for (label, id) in edges.iter() {
        children.push((map_label(*label), *id))?;
    }
    Ok(SiblingGroup {
        parent,
        children,
        weight,
    })
}

/// The probes of a parent and the visits of its children, saturating.
fn weight_of<L: EdgeLabel, V: Copy, A: Allocator>(
    states: &[NfaBuilderState<L, V, A>],
    profile: &Profile<A>,
    parent: u32,
) -> usize
    requires trie { HoldTrie L.cmp states.now }
    requires parent { parent < length states.now }
    requires profile { IsProfileOf (length states.now) profile.now }
    ensures { result ≡ weight_at (edges_of states.now) profile.now parent }
{
    if profile.is_empty() {
        return 0;
    }
    let mut weight = profile.probes[parent as usize];
    for id in states[parent as usize].edges().values() {
        weight = weight.saturating_add(profile.visits[*id as usize]);
    }
    weight
}
