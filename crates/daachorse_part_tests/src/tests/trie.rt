//! Tries, where no contract speaks: the ids of states, the order of links, outputs and sibling
//! groups, and that calls succeed if memory is ample.

ghost use Rattle.std.specs.Prelude.{IfOk};
ghost use Rattle.daachorse_build.specs.Builders.{states_of};
ghost use Rattle.daachorse_build.specs.Counts.{LinksLeadBack};

use super::expect;
use daachorse_build::edge_map::EdgeMap;
use daachorse_build::nfa_builder::{NfaBuilder, NfaBuilderState};
use daachorse_core::edge_label::EdgeLabel;
use daachorse_core::errors::Result;
use daachorse_core::{MatchKind, Output};
use daachorse_placement::build_helper::{Profile, SiblingGroup};
use std::alloc::Global;
use std::num::NonZeroU32;
use std::test::Fail;

/// The trie of these patterns without failure links. The value of a pattern is its index.
fn unlinked<L: EdgeLabel>(
    alloc: Global,
    kind: MatchKind,
    patterns: &[&[L]],
) -> Result<NfaBuilder<L, u32>> {
    let mut builder = NfaBuilder::new(alloc, kind)?;
    let mut value: u32 = 0;
    for pattern in patterns {
        builder.add(pattern, value)?;
        value = value.wrapping_add(1);
    }
    Ok(builder)
}

/// The trie of these patterns with its failure links and outputs, and the order of its states.
pub fn trie_of<L: EdgeLabel>(
    alloc: Global,
    kind: MatchKind,
    patterns: &[&[L]],
) -> Result<(NfaBuilder<L, u32>, Vec<u32>)>
    ensures { IfOk result (λ r. LinksLeadBack L.cmp (states_of r.0)) }
{
    let mut builder = unlinked(alloc, kind, patterns)?;
    if kind.is_leftmost() {
        let order = builder.build_fails_leftmost(alloc)?;
        builder.build_outputs(&order)?;
        return Ok((builder, order));
    }
    let order = builder.build_fails(alloc)?;
    builder.build_outputs(&order)?;
    Ok((builder, order))
}

/// A kind, patterns, and their trie: the order of its states, the failure link and the position of
/// the first output of each state, and the value, the length and the next position of each output.
/// Position 0 stands for none.
struct Row {
    shows: &'static str,
    kind: MatchKind,
    patterns: &'static [&'static [u8]],
    order: &'static [u32],
    states: &'static [(u32, u32)],
    outputs: &'static [(u32, u32, u32)],
}

const ROWS: &[Row] = &[
    Row {
        shows: "no pattern",
        kind: MatchKind::Standard,
        patterns: &[],
        order: &[],
        states: &[(0, 0), (0, 0)],
        outputs: &[],
    },
    Row {
        shows: "links to the longest suffix, and lists in chains",
        kind: MatchKind::Standard,
        patterns: &[b"bcd", b"ab", b"a", b"b", b"b"],
        order: &[5, 2, 6, 3, 4],
        states: &[(0, 0), (0, 0), (0, 3), (0, 0), (0, 5), (0, 1), (2, 4)],
        outputs: &[(2, 1, 0), (4, 1, 0), (3, 1, 2), (1, 2, 3), (0, 3, 0)],
    },
    Row {
        shows: "links behind a pattern are dead",
        kind: MatchKind::LeftmostLongest,
        patterns: &[b"abc", b"bd", b"bdab"],
        order: &[2, 5, 3, 6, 4, 7, 8],
        states: &[
            (0, 0),
            (0, 0),
            (0, 0),
            (5, 0),
            (1, 2),
            (0, 0),
            (1, 1),
            (1, 0),
            (1, 3),
        ],
        outputs: &[(1, 2, 0), (0, 3, 0), (2, 4, 0)],
    },
    Row {
        shows: "lists end before a dead link",
        kind: MatchKind::LeftmostLongest,
        patterns: &[b"bc", b"abc"],
        order: &[4, 2, 5, 3, 6],
        states: &[(0, 0), (0, 0), (0, 0), (1, 1), (0, 0), (2, 0), (1, 2)],
        outputs: &[(0, 2, 0), (1, 3, 0)],
    },
    Row {
        shows: "what extends a pattern is left out",
        kind: MatchKind::LeftmostFirst,
        patterns: &[b"ab", b"abc", b"abcd", b"ab", b"a"],
        order: &[2, 3],
        states: &[(0, 0), (0, 0), (1, 1), (1, 3)],
        outputs: &[(4, 1, 0), (3, 2, 0), (0, 2, 2)],
    },
];

/// Whether clones of states have these links and positions.
fn are_states(states: &[NfaBuilderState<u8, u32>], wanted: &[(u32, u32)]) -> Result<bool> {
    for (state, (link, position)) in states.iter().zip(wanted) {
        let state = state.clone()?;
        let found = state.output_pos().map_or(0, NonZeroU32::get);
        if state.fail() != *link || found != *position {
            return Ok(false);
        }
    }
    Ok(states.len() == wanted.len())
}

/// Whether outputs have these values, lengths and next positions.
fn are_outputs(outputs: &[Output<u32>], wanted: &[(u32, u32, u32)]) -> bool {
    for (output, (value, length, parent)) in outputs.iter().zip(wanted) {
        if *output != Output::new(*value, *length, NonZeroU32::new(*parent)) {
            return false;
        }
    }
    outputs.len() == wanted.len()
}

/// Whether the trie of a row's patterns is as the row says.
fn holds(alloc: Global, row: &Row) -> Result<bool> {
    let (builder, order) = trie_of(alloc, row.kind, row.patterns)?;
    Ok(
        order.as_slice() == row.order
            && are_states(builder.states(), row.states)?
            && are_outputs(builder.outputs(), row.outputs)
            && builder.num_patterns() == row.outputs.len(),
    )
}

#[test]
fn tries_have_states_links_and_outputs(rt: HostRuntime) -> Result<(), Fail> {
    for row in ROWS {
        expect(&rt, holds(rt.alloc(), row)?, row.shows);
    }
    Ok(())
}

/// A group's parent, weight and children.
type Group = (u32, usize, &'static [(u32, u32)]);

/// Visits and probes by state for the patterns ab, abc and bd, and their groups.
type Groups = (&'static [usize], &'static [usize], [Group; 4]);

const GROUPS: [Groups; 2] = [
    // Without counts, groups come off a stack.
    (
        &[],
        &[],
        [
            (0, 0, &[(1, 2), (2, 5)]),
            (5, 0, &[(4, 6)]),
            (2, 0, &[(2, 3)]),
            (3, 0, &[(3, 4)]),
        ],
    ),
    // The heaviest groups come first, those of one weight as off the stack.
    (
        &[8, 0, 1, 7, usize::MAX, 2, 9],
        &[1, 0, 2, 1, 0, 0, 0],
        [
            (3, usize::MAX, &[(3, 4)]),
            (5, 9, &[(4, 6)]),
            (2, 9, &[(2, 3)]),
            (0, 4, &[(1, 2), (2, 5)]),
        ],
    ),
];

/// The number of a letter in the alphabet.
fn code(label: u8) -> u32 {
    u32::from(label & 0x1f)
}

/// The groups of a trie by these counts, or by none unless each state has one of each kind.
fn groups_of(
    alloc: Global,
    builder: &NfaBuilder<u8, u32>,
    visits: &[usize],
    probes: &[usize],
) -> Result<Vec<SiblingGroup>> {
    let num_states = builder.states().len();
    if visits.len() != num_states || probes.len() != num_states {
        return builder.sibling_groups(alloc, &Profile::new(alloc), code);
    }
    let profile = Profile {
        visits: Vec::from_slice(alloc, visits)?,
        probes: Vec::from_slice(alloc, probes)?,
    };
    builder.sibling_groups(alloc, &profile, code)
}

/// Whether a group has this parent, this weight and these children.
fn is_group(group: &SiblingGroup, wanted: &Group) -> bool {
    group.parent == wanted.0 && group.weight == wanted.1 && group.children.as_slice() == wanted.2
}

/// Whether the patterns ab, abc and bd have these groups.
fn has_groups(alloc: Global, row: &Groups) -> Result<bool> {
    let patterns = [b"ab".as_slice(), b"abc", b"bd"];
    let builder = unlinked(alloc, MatchKind::Standard, &patterns)?;
    let groups = groups_of(alloc, &builder, row.0, row.1)?;
    for (group, wanted) in groups.iter().zip(&row.2) {
        if !is_group(group, wanted) {
            return Ok(false);
        }
    }
    Ok(groups.len() == 4)
}

#[test]
fn groups_come_off_a_stack_the_heaviest_first(rt: HostRuntime) -> Result<(), Fail> {
    for row in &GROUPS {
        expect(&rt, has_groups(rt.alloc(), row)?, "the groups");
    }
    Ok(())
}

/// A map in which two labels get a second id.
fn map_of_edges(alloc: Global) -> Result<EdgeMap<u8>> {
    let mut map = EdgeMap::default();
    for (label, id) in [
        (b'm', 1),
        (b'm', 2),
        (b'c', 3),
        (b'x', 4),
        (b'a', 5),
        (b'c', 6),
    ] {
        map.insert(alloc, label, id)?;
    }
    Ok(map)
}

/// Whether a map has exactly these edges and ids, in this order.
fn are_edges(map: &EdgeMap<u8>, wanted: &[(u8, u32)]) -> bool {
    let mut ids = map.values();
    for ((label, id), edge) in map.iter().zip(wanted) {
        let same = (*label, *id) == *edge && ids.next() == Some(id);
        if !same || map.get(label) != Some(id) {
            return false;
        }
    }
    map.len() == wanted.len()
}

#[test]
fn edges_stand_by_rising_labels(rt: HostRuntime) -> Result<(), Fail> {
    let map = map_of_edges(rt.alloc())?;
    let wanted = [(b'a', 5), (b'c', 6), (b'm', 2), (b'x', 4)];
    expect(&rt, are_edges(&map, &wanted), "the edges");
    expect(&rt, map.get(&b'd').is_none(), "no edge");
    expect(&rt, !map.is_empty(), "some edge");
    Ok(())
}
