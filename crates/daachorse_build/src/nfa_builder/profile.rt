//! What a search over a document reads of a trie, counted by state.

ghost use Rattle.std.specs.Prelude.{◌≡◌, ◌≢◌, ◌<◌, ◌≤◌, [], length, vec_len, IfSome};
ghost use Rattle.daachorse_build.specs.Tables.{HoldTrie};
ghost use Rattle.daachorse_build.specs.Counts.{HasCounts, HasSameCounts, HaveGrown, HasCountedMore, LinksLeadBack};

use super::{DEAD_STATE_ID, NfaBuilderState, ROOT_STATE_ID, child};
use daachorse_core::edge_label::EdgeLabel;
use daachorse_placement::build_helper::Profile;
use std::alloc::Allocator;

/// Counts a search over the document.
pub(super) fn count_document<L: EdgeLabel, V: Copy, A: Allocator, H: Fn(L) -> bool>(
    states: &[NfaBuilderState<L, V, A>],
    is_leftmost: bool,
    haystack: &[L],
    profile: &mut Profile<A>,
    dense_root: bool,
    has_label: &H,
)
    requires trie { HoldTrie L.cmp states.now }
    requires links { LinksLeadBack L.cmp states.now }
    requires counts { HasCounts (length states.now) profile.old }
    requires callable { H.IsAlwaysCallable has_label.now }
    ensures counted { HasCountedMore profile.old profile.new }
    ensures empty { haystack.now ≡ [] → HasSameCounts profile.old profile.new }
{
    let mut rest = haystack;
    while let Some(taken) = count_run(states, is_leftmost, rest, profile, dense_root, has_label) {
        rest = &rest[taken..];
    }
}

/// Counts a search from the root to the end of the document, or to where a leftmost search comes
/// back to the root with a match. Returns where that match ends, from where the search goes on.
fn count_run<L: EdgeLabel, V: Copy, A: Allocator, H: Fn(L) -> bool>(
    states: &[NfaBuilderState<L, V, A>],
    is_leftmost: bool,
    haystack: &[L],
    profile: &mut Profile<A>,
    dense_root: bool,
    has_label: &H,
) -> Option<usize>
    requires trie { HoldTrie L.cmp states.now }
    requires links { LinksLeadBack L.cmp states.now }
    requires counts { HasCounts (length states.now) profile.old }
    requires callable { H.IsAlwaysCallable has_label.now }
    ensures counted { HasCountedMore profile.old profile.new }
    ensures empty { haystack.now ≡ [] → HasSameCounts profile.old profile.new }
    ensures on { IfSome result (λ n. (0 < n) × (n ≤ length haystack.now)) }
{
    let mut id = ROOT_STATE_ID;
    let mut match_end = None;
    for (place, label) in haystack.iter().enumerate() {
        id = count_label(states, id, *label, profile, dense_root, has_label);
        if id == ROOT_STATE_ID && match_end.is_some() {
            return match_end;
        }
        if is_leftmost && is_match(states, id) {
            match_end = Some(place + 1);
        }
    }
    None
}

/// Whether a state has outputs and is not the root.
fn is_match<L: EdgeLabel, V: Copy, A: Allocator>(
    states: &[NfaBuilderState<L, V, A>],
    id: u32,
) -> bool
    requires { id < length states.now }
{
    id != ROOT_STATE_ID && states[id as usize].output_pos != 0
}

/// Counts a step by a label, and returns the state that it leads to. A label that `has_label`
/// denies leads to the root, and nothing is counted.
fn count_label<L: EdgeLabel, V: Copy, A: Allocator, H: Fn(L) -> bool>(
    states: &[NfaBuilderState<L, V, A>],
    start: u32,
    label: L,
    profile: &mut Profile<A>,
    dense_root: bool,
    has_label: &H,
) -> u32
    requires trie { HoldTrie L.cmp states.now }
    requires links { LinksLeadBack L.cmp states.now }
    requires counts { HasCounts (length states.now) profile.old }
    requires callable { H.IsAlwaysCallable has_label.now }
    requires start { start < length states.now }
    requires alive { start ≢ 1 }
    ensures counted { HasCountedMore profile.old profile.new }
    ensures state { result < length states.now }
    ensures alive { result ≢ 1 }
{
    if !has_label(label) {
        return ROOT_STATE_ID;
    }
    count_step(states, start, label, profile, dense_root)
}

/// Counts a step by a label, and returns the state that it leads to.
fn count_step<L: EdgeLabel, V: Copy, A: Allocator>(
    states: &[NfaBuilderState<L, V, A>],
    start: u32,
    label: L,
    profile: &mut Profile<A>,
    dense_root: bool,
) -> u32
    requires trie { HoldTrie L.cmp states.now }
    requires links { LinksLeadBack L.cmp states.now }
    requires counts { HasCounts (length states.now) profile.old }
    requires start { start < length states.now }
    requires alive { start ≢ 1 }
    ensures counted { HasCountedMore profile.old profile.new }
    ensures state { result < length states.now }
    ensures alive { result ≢ 1 }
{
    let mut id = start;
    loop {
        let next = child(states, id, label);
        count_reads(states, profile, id, next, dense_root);
        if let Some(next) = next {
            return next;
        }
        if id == ROOT_STATE_ID {
            return ROOT_STATE_ID;
        }
        id = states[id as usize].fail;
        if id == DEAD_STATE_ID {
            return ROOT_STATE_ID;
        }
    }
}

/// Counts a visit of a state, and of its child `next` or, if it has only other edges, a probe. The
/// root is left out if a table stands for it.
fn count_reads<L: EdgeLabel, V: Copy, A: Allocator>(
    states: &[NfaBuilderState<L, V, A>],
    profile: &mut Profile<A>,
    id: u32,
    next: Option<u32>,
    dense_root: bool,
)
    requires counts { HasCounts (length states.now) profile.old }
    requires state { id < length states.now }
    requires next { IfSome next (λ t. t < length states.now) }
    ensures { HasCountedMore profile.old profile.new }
{
    if dense_root && id == ROOT_STATE_ID {
        return;
    }
    count(&mut profile.visits, id);
    if let Some(next) = next {
        count(&mut profile.visits, next);
    } else if !states[id as usize].edges.is_empty() {
        count(&mut profile.probes, id);
    }
}

/// Adds one to a count, which saturates.
fn count<A: Allocator>(counts: &mut Vec<usize, A>, id: u32)
    requires { id < vec_len counts.old }
    ensures { HaveGrown counts.old.items counts.new.items }
{
    let old = counts[id as usize];
    counts[id as usize] = old.saturating_add(1);
}
