//! The failure links of a trie's states, standard or leftmost.

ghost use Rattle.std.specs.Prelude.{◌≡◌, ◌+◌, ◌<◌, ℕ, false, [], List, Some, length, take, vec_len, IfOk, IfErr, OnOk};
ghost use Rattle.daachorse_core.specs.Refusals.{IsOutOfMemory};
ghost use Rattle.daachorse_build.specs.Tables.{child_of, edges_of, fails_of, stops_of, HoldTrie};
ghost use Rattle.daachorse_build.specs.Orders.{IsKnown, IsLinkAmong, HaveLinks};
ghost use Rattle.daachorse_build.specs.Left.{IsLeftFailOf};
ghost use Rattle.daachorse_build.specs.Traversals.{Traverses, LeadsTo, ComesFrom, AreRootChildren};
ghost use Rattle.daachorse_build.specs.Growth.{HasTrieOf};

use super::root_children::RootChildren;
use super::{DEAD_STATE_ID, NfaBuilderState, ROOT_STATE_ID, child, stops};
use daachorse_core::edge_label::EdgeLabel;
use daachorse_core::errors::Result;
use std::alloc::Allocator;

/// Sets all links, that of the root to the root, and returns the other ids, breadth-first.
pub(super) fn link_states<L: EdgeLabel, V: Copy, A: Allocator + Copy>(
    alloc: A,
    states: &mut [NfaBuilderState<L, V, A>],
    leftmost: bool,
) -> Result<Vec<u32, A>>
    requires { HoldTrie L.cmp states.old }
    ensures kept { HasTrieOf states.old states.new }
    ensures links { IfOk result (λ order. HaveLinks L.cmp leftmost states.new order.items) }
    ensures err { IfErr result IsOutOfMemory }
{
    let mut traversal = BreadthFirstTraversal::new(alloc, states, leftmost)?;
    while traversal.next < traversal.order.len() {
        traversal.expand(states)?;
    }
    set_links(states, &traversal.links);
    let BreadthFirstTraversal { order, .. } = traversal;
    Ok(order)
}

/// The link of a child of the root.
fn first_link<L: EdgeLabel, V: Copy, A: Allocator>(
    states: &[NfaBuilderState<L, V, A>],
    leftmost: bool,
    child: u32,
) -> u32
    requires table { HoldTrie L.cmp states.now }
    requires edge { (c : L) × (child_of L.cmp states.now 0 c ≡ Some child) }
    ensures link { IsLeftFailOf (child_of L.cmp states.now) (stops_of leftmost states.now) child result }
    ensures among { IsLinkAmong [] result }
{
    if stops(states, leftmost, ROOT_STATE_ID) || stops(states, leftmost, child) {
        return DEAD_STATE_ID;
    }
    ROOT_STATE_ID
}

/// A breadth-first traversal of a trie, with the links found so far.
#[derive(Drop)]
struct BreadthFirstTraversal<A: Allocator> {
    // The failure link of each state that was found, and 0 for the others.
    links: Vec<u32, A>,
    order: Vec<u32, A>,
    next: usize,
    // Whether a state with an output of its own ends the links.
    leftmost: bool,
    root_children: RootChildren,
}

impl<A: Allocator + Copy> BreadthFirstTraversal<A> {
    /// A traversal whose queue has the root's children.
    fn new<L: EdgeLabel, V: Copy>(
        alloc: A,
        states: &[NfaBuilderState<L, V, A>],
        leftmost: bool,
    ) -> Result<Self>
        requires { HoldTrie L.cmp states.now }
        ensures traversal { IfOk result (λ traversal. Traverses L.cmp states.now traversal []) }
        ensures kind { IfOk result (λ traversal. traversal.leftmost ≡ leftmost) }
        ensures root { IfOk result (λ traversal. AreRootChildren L.cmp L.unit (edges_of states.now) traversal.root_children.ids) }
        ensures err { IfErr result IsOutOfMemory }
    {
        let mut links = vec![in alloc; 0; states.len()]?;
        let root = ROOT_STATE_ID as usize;
        let mut order = Vec::with_capacity(alloc, states.len())?;
        for (_, child) in states[root].edges.iter() {
            links[*child as usize] = first_link(states, leftmost, *child);
            order.push(*child)?;
        }
        Ok(Self {
            links,
            order,
            next: 0,
            leftmost,
            root_children: RootChildren::of(states),
        })
    }
}

impl<A: Allocator> BreadthFirstTraversal<A> {
    /// The child by `label` of `start`, or of the first state along its links that has one: the
    /// root if none has, and the dead state after a dead link.
    fn follow<L: EdgeLabel, V: Copy>(
        &self,
        states: &[NfaBuilderState<L, V, A>],
        start: u32,
        label: L,
    ) -> u32
        requires table { HoldTrie L.cmp states.now }
        requires traversal { (pending : List ℕ) × Traverses L.cmp states.now self.now pending }
        requires known { IsKnown (take self.now.next self.now.order.items) start }
        requires root { AreRootChildren L.cmp L.unit (edges_of states.now) self.now.root_children.ids }
        requires goes { stops_of self.now.leftmost states.now 0 ≡ false }
        ensures link { LeadsTo L.cmp (stops_of self.now.leftmost states.now) (edges_of states.now) start label result }
        ensures from { ComesFrom L.cmp (edges_of states.now) (take self.now.next self.now.order.items) label result }
    {
        let mut id = start;
        loop {
            if id == ROOT_STATE_ID {
                return self.root_children.child_or_root(states, label);
            }
            if let Some(found) = child(states, id, label) {
                return found;
            }
            id = self.links[id as usize];
            if id == DEAD_STATE_ID {
                return DEAD_STATE_ID;
            }
        }
    }

    /// The link of the child by `label` of a state whose link is `start`.
    fn link<L: EdgeLabel, V: Copy>(
        &self,
        states: &[NfaBuilderState<L, V, A>],
        start: u32,
        label: L,
        child: u32,
    ) -> u32
        requires table { HoldTrie L.cmp states.now }
        requires traversal { (pending : List ℕ) × Traverses L.cmp states.now self.now pending }
        requires parent { (s : ℕ) × (1 < s) × (child_of L.cmp states.now s label ≡ Some child) × IsLeftFailOf (child_of L.cmp states.now) (stops_of self.now.leftmost states.now) s start }
        requires known { IsLinkAmong (take self.now.next self.now.order.items) start }
        requires root { AreRootChildren L.cmp L.unit (edges_of states.now) self.now.root_children.ids }
        ensures link { IsLeftFailOf (child_of L.cmp states.now) (stops_of self.now.leftmost states.now) child result }
        ensures from { ComesFrom L.cmp (edges_of states.now) (take self.now.next self.now.order.items) label result }
    {
        if start == DEAD_STATE_ID || stops(states, self.leftmost, child) {
            return DEAD_STATE_ID;
        }
        self.follow(states, start, label)
    }

    /// Puts the children of the next state into the queue.
    fn expand<L: EdgeLabel, V: Copy>(&mut self, states: &[NfaBuilderState<L, V, A>]) -> Result<()>
        requires table { HoldTrie L.cmp states.now }
        requires traversal { Traverses L.cmp states.now self.old [] }
        requires more { self.old.next < vec_len self.old.order }
        requires root { AreRootChildren L.cmp L.unit (edges_of states.now) self.old.root_children.ids }
        ensures traversal { OnOk result (Traverses L.cmp states.now self.new []) }
        ensures next { OnOk result (self.new.next ≡ self.old.next + 1) }
        ensures kind { self.new.leftmost ≡ self.old.leftmost }
        ensures root { self.new.root_children.ids ≡ self.old.root_children.ids }
        ensures err { IfErr result IsOutOfMemory }
    {
        let id = self.order[self.next];
        let start = self.links[id as usize];
        for (label, child) in states[id as usize].edges.iter() {
            let fail = self.link(states, start, *label, *child);
            self.links[*child as usize] = fail;
            self.order.push(*child)?;
        }
        self.next += 1;
        Ok(())
    }
}

/// Gives each state its link.
fn set_links<L: EdgeLabel, V: Copy, A: Allocator>(
    states: &mut [NfaBuilderState<L, V, A>],
    fails: &[u32],
)
    requires { length fails.now ≡ length states.old }
    ensures kept { HasTrieOf states.old states.new }
    ensures links { fails_of states.new ≡ fails.now }
{
    for i in 0..states.len() {
        states[i].fail = fails[i];
    }
}
