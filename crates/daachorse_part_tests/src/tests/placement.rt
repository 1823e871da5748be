//! The places that sibling groups get, which no contract fixes.

ghost use Rattle.std.specs.Prelude.{◌^◌, ◌≡◌, ◌<◌, ◌≤◌, IsTrue, IfOk, IfSome, length};
ghost use Rattle.std.specs.Int.{IsPowerOfTwo};
ghost use Rattle.daachorse_placement.specs.Placement.{AreGroups, HasSizes};
ghost use Rattle.daachorse_part_tests.specs.Rising.{AreRising};

use super::expect;
use daachorse_placement::build_helper::{BuildHelper, ListItem, SiblingGroup};
use std::alloc::{AllocError, Global};
use std::process::Abort;
use std::test::Fail;

/// One more than the last id; `None` unless labels rise below `block_len` and ids from `low` on.
fn rises(children: &[(u32, u32)], low: usize, block_len: u32) -> Option<usize>
    ensures { IfSome result (AreRising children.now (length children.now) block_len low) }
{
    let mut label_from = 0;
    let mut id_from = low;
    for &(label, id) in children {
        if label < label_from || label >= block_len || (id as usize) < id_from {
            return None;
        }
        label_from = label + 1;
        id_from = id as usize + 1;
    }
    Some(id_from)
}

/// Whether the parents, labels and ids of groups rise, as a placement requires.
fn are_rising(groups: &[SiblingGroup], num_nfa_states: usize, block_len: u32) -> bool
    ensures { IsTrue result → AreGroups groups.now num_nfa_states block_len }
{
    let mut parent_from = 0;
    let mut id_from = 2;
    for group in groups {
        let parent = group.parent as usize;
        if parent < parent_from || group.children.is_empty() {
            return false;
        }
        match rises(group.children.as_slice(), id_from, block_len) {
            Some(next) => id_from = next,
            None => return false,
        }
        parent_from = parent + 1;
    }
    parent_from <= num_nfa_states && id_from <= num_nfa_states
}

/// Pairs of a label and an id, with ids from `next` on.
fn children_of(
    alloc: Global,
    labels: &[u32],
    next: &mut u32,
) -> Result<Vec<(u32, u32)>, AllocError> {
    let mut children = Vec::new(alloc);
    for &label in labels {
        children.push((label, *next))?;
        *next = next.wrapping_add(1);
    }
    Ok(children)
}

/// Groups with these weights and labels. Parents have ids from 0 on, and children from 2 on.
fn groups_of(alloc: Global, rows: &[(usize, &[u32])]) -> Result<Vec<SiblingGroup>, AllocError> {
    let mut groups = Vec::new(alloc);
    let mut parent = 0u32;
    let mut next = 2u32;
    for &(weight, labels) in rows {
        let children = children_of(alloc, labels, &mut next)?;
        groups.push(SiblingGroup {
            parent,
            children,
            weight,
        })?;
        parent = parent.wrapping_add(1);
    }
    Ok(groups)
}

/// The length of a block, 2 to the power of `bits`.
fn block_len(rt: &impl Abort, bits: u32) -> u32
    ensures power { IsPowerOfTwo result }
    ensures two { 2 ≤ result }
{
    assert!(rt; bits <= 8);
    let len = 2u32.pow(bits);
    assert!(rt; len >= 2);
    len
}

/// Places the groups among `num_nfa_states` states.
fn place(
    rt: &impl Abort,
    alloc: Global,
    groups: &[SiblingGroup],
    num_nfa_states: usize,
    block_len: u32,
    track_bases: bool,
) -> Result<BuildHelper, Fail>
    requires power { IsPowerOfTwo block_len }
    requires two { 2 ≤ block_len }
    ensures sizes { IfOk result (λ h. HasSizes h block_len num_nfa_states) }
{
    assert!(rt; num_nfa_states >= 2 && num_nfa_states <= 1000);
    assert!(rt; are_rising(groups, num_nfa_states, block_len));
    let helper = BuildHelper::new(alloc, groups, num_nfa_states, block_len, track_bases)?;
    Ok(helper)
}

/// The least unused base of each block.
fn unused_bases(
    alloc: Global,
    helper: &BuildHelper,
    block_len: u32,
    num_nfa_states: usize,
) -> Result<Vec<Option<u32>>, AllocError>
    requires two { 2 ≤ block_len }
    requires sizes { HasSizes helper.now block_len num_nfa_states }
{
    let mut unused = Vec::new(alloc);
    for block_idx in 0..helper.num_elements() / block_len {
        unused.push(helper.unused_base_in_block(block_idx))?;
    }
    Ok(unused)
}

/// The used elements, or the used bases, in rising order.
fn used(alloc: Global, helper: &BuildHelper, of_bases: bool) -> Result<Vec<u32>, AllocError> {
    let mut used = Vec::new(alloc);
    for place in 0..helper.num_elements() {
        let is_used = if of_bases {
            helper.is_used_base(place)
        } else {
            helper.is_used_index(place)
        };
        if is_used {
            used.push(place)?;
        }
    }
    Ok(used)
}

/// The vacant elements, as the helper lists them.
fn vacant(alloc: Global, helper: &BuildHelper) -> Result<Vec<u32>, AllocError> {
    let mut vacant = Vec::new(alloc);
    for place in helper.vacant_iter() {
        vacant.push(place)?;
    }
    Ok(vacant)
}

/// Groups with their weights and labels, and where they are placed.
#[derive(Clone, Copy)]
struct Row {
    block_bits: u32,
    track_bases: bool,
    groups: &'static [(usize, &'static [u32])],
    idx_map: &'static [u32],
    bases: &'static [u32],
    used_indexes: &'static [u32],
    used_bases: &'static [u32],
    vacant: &'static [u32],
    unused: &'static [Option<u32>],
}

/// Whether the helper marks elements and bases as a row says.
fn has_marks(alloc: Global, helper: &BuildHelper, row: &Row) -> Result<bool, AllocError> {
    Ok(
        used(alloc, helper, false)?.as_slice() == row.used_indexes
            && used(alloc, helper, true)?.as_slice() == row.used_bases
            && vacant(alloc, helper)?.as_slice() == row.vacant,
    )
}

/// Places the groups of a row, and asserts all that the helper returns for them.
fn assert_row(rt: &impl Abort, alloc: Global, row: &Row) -> Result<(), Fail> {
    let block_len = block_len(rt, row.block_bits);
    let num_nfa_states = row.idx_map.len();
    let groups = groups_of(alloc, row.groups)?;
    let tracked = row.track_bases;
    let helper = place(rt, alloc, &groups, num_nfa_states, block_len, tracked)?;
    expect(rt, helper.idx_map() == row.idx_map, "the map");
    expect(rt, helper.bases() == row.bases, "the bases");
    expect(rt, has_marks(alloc, &helper, row)?, "the marks");
    let unused = unused_bases(alloc, &helper, block_len, num_nfa_states)?;
    expect(rt, unused.as_slice() == row.unused, "the unused bases");
    Ok(())
}

const ROWS: &[Row] = &[
    // The root and the dead state have the elements 0 and 1. Another that is no child has 1.
    Row {
        block_bits: 2,
        track_bases: true,
        groups: &[],
        idx_map: &[0, 1, 1],
        bases: &[0, 0, 0],
        used_indexes: &[0, 1],
        used_bases: &[],
        vacant: &[2, 3],
        unused: &[Some(0)],
    },
    // If bases are tracked, a used base is skipped, and a block is added.
    Row {
        block_bits: 2,
        track_bases: true,
        groups: &[(1, &[1]), (1, &[0])],
        idx_map: &[0, 1, 2, 4],
        bases: &[3, 4, 0, 0],
        used_indexes: &[0, 1, 2, 4],
        used_bases: &[3, 4],
        vacant: &[3, 5, 6, 7],
        unused: &[Some(0), Some(5)],
    },
    // If bases are not tracked, two groups may share one.
    Row {
        block_bits: 2,
        track_bases: false,
        groups: &[(1, &[1]), (1, &[0])],
        idx_map: &[0, 1, 2, 3],
        bases: &[3, 3, 0, 0],
        used_indexes: &[0, 1, 2, 3],
        used_bases: &[],
        vacant: &[],
        unused: &[Some(0)],
    },
    // No base is 0.
    Row {
        block_bits: 2,
        track_bases: true,
        groups: &[(1, &[2])],
        idx_map: &[0, 1, 3],
        bases: &[1, 0, 0],
        used_indexes: &[0, 1, 3],
        used_bases: &[1],
        vacant: &[2],
        unused: &[Some(0)],
    },
    // Bases are tried by the element of the first child, and all children have to fit.
    Row {
        block_bits: 2,
        track_bases: true,
        groups: &[(1, &[0, 3]), (1, &[1, 2])],
        idx_map: &[0, 1, 4, 7, 6, 5],
        bases: &[4, 7, 0, 0, 0, 0],
        used_indexes: &[0, 1, 4, 5, 6, 7],
        used_bases: &[4, 7],
        vacant: &[2, 3],
        unused: &[Some(0), Some(5)],
    },
    // The same groups if bases are not tracked.
    Row {
        block_bits: 2,
        track_bases: false,
        groups: &[(1, &[0, 3]), (1, &[1, 2])],
        idx_map: &[0, 1, 4, 7, 5, 6],
        bases: &[4, 4, 0, 0, 0, 0],
        used_indexes: &[0, 1, 4, 5, 6, 7],
        used_bases: &[],
        vacant: &[2, 3],
        unused: &[Some(0), Some(4)],
    },
    // A block whose bases are all used has no vacant element.
    Row {
        block_bits: 1,
        track_bases: true,
        groups: &[(1, &[0]), (1, &[0])],
        idx_map: &[0, 1, 2, 3],
        bases: &[2, 3, 0, 0],
        used_indexes: &[0, 1, 2, 3],
        used_bases: &[2, 3],
        vacant: &[],
        unused: &[Some(0), None],
    },
    // The groups of the patterns 00 00, 00 02, 01 02 and 02 over bytes.
    Row {
        block_bits: 4,
        track_bases: true,
        groups: &[(1, &[0, 1, 2]), (1, &[2]), (1, &[0, 2])],
        idx_map: &[0, 1, 4, 5, 6, 3, 8, 10],
        bases: &[4, 1, 8, 0, 0, 0, 0, 0],
        used_indexes: &[0, 1, 3, 4, 5, 6, 8, 10],
        used_bases: &[1, 4, 8],
        vacant: &[2, 7, 9, 11, 12, 13, 14, 15],
        unused: &[Some(0)],
    },
];

#[test]
fn groups_stand_at_the_first_place_that_fits(rt: HostRuntime) -> Result<(), Fail> {
    for row in ROWS {
        assert_row(&rt, rt.alloc(), row)?;
    }
    Ok(())
}

/// A group that leaves element 3 vacant in blocks of 2, then `pairs` groups that fill a block each,
/// and a last one.
fn groups_before(
    alloc: Global,
    pairs: usize,
    weight: usize,
    last: (usize, &[u32]),
) -> Result<Vec<SiblingGroup>, AllocError> {
    let mut rows: Vec<(usize, &[u32])> = Vec::new(alloc);
    rows.push((weight, &[0]))?;
    for _ in 0..pairs {
        rows.push((weight, &[0, 1]))?;
    }
    rows.push(last)?;
    groups_of(alloc, &rows)
}

/// The arguments of [`groups_before`], and what comes of them: the number of states, the element of
/// the last state, the number of elements, and the vacant elements that are listed.
#[derive(Clone, Copy)]
struct LastRow {
    pairs: usize,
    weight: usize,
    last: (usize, &'static [u32]),
    num_nfa_states: usize,
    element: u32,
    num_elements: u32,
    vacant: &'static [u32],
}

/// Places the groups of a row, and asserts where the last one is.
fn assert_last_row(rt: &impl Abort, alloc: Global, row: &LastRow) -> Result<(), Fail> {
    let block_len = block_len(rt, 1);
    let groups = groups_before(alloc, row.pairs, row.weight, row.last)?;
    let helper = place(rt, alloc, &groups, row.num_nfa_states, block_len, true)?;
    expect(
        rt,
        helper.idx_map().last() == Some(&row.element),
        "the last state",
    );
    expect(
        rt,
        helper.num_elements() == row.num_elements,
        "the elements",
    );
    let vacant = vacant(alloc, &helper)?;
    expect(rt, vacant.as_slice() == row.vacant, "what is vacant");
    Ok(())
}

const LAST_ROWS: &[LastRow] = &[
    LastRow {
        pairs: 17,
        weight: 1,
        last: (1, &[0]),
        num_nfa_states: 38,
        element: 3,
        num_elements: 38,
        vacant: &[],
    },
    LastRow {
        pairs: 17,
        weight: 1,
        last: (0, &[0]),
        num_nfa_states: 38,
        element: 38,
        num_elements: 40,
        vacant: &[39],
    },
    LastRow {
        pairs: 15,
        weight: 0,
        last: (0, &[0]),
        num_nfa_states: 34,
        element: 3,
        num_elements: 34,
        vacant: &[],
    },
    LastRow {
        pairs: 16,
        weight: 0,
        last: (0, &[0]),
        num_nfa_states: 36,
        element: 36,
        num_elements: 38,
        vacant: &[37],
    },
    LastRow {
        pairs: 17,
        weight: 1,
        last: (1, &[0, 1]),
        num_nfa_states: 39,
        element: 39,
        num_elements: 40,
        vacant: &[3],
    },
    LastRow {
        pairs: 17,
        weight: 1,
        last: (0, &[0, 1]),
        num_nfa_states: 39,
        element: 39,
        num_elements: 40,
        vacant: &[],
    },
];

#[test]
fn a_group_of_weight_0_looks_at_the_last_16_blocks(rt: HostRuntime) -> Result<(), Fail> {
    for row in LAST_ROWS {
        assert_last_row(&rt, rt.alloc(), row)?;
    }
    Ok(())
}

#[test]
fn a_list_item_keeps_its_parts(rt: HostRuntime) {
    let mut item = ListItem::default();
    *item.next_mut() = 3;
    *item.prev_mut() = 5;
    item.use_base();
    let flags = (item.is_used_base(), item.is_used_index());
    expect(&rt, flags == (true, false), "one flag");
    item.use_index();
    let flags = (item.is_used_base(), item.is_used_index());
    expect(&rt, flags == (true, true), "both flags");
    expect(&rt, (item.next(), item.prev()) == (3, 5), "the places");
}
