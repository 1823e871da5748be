//! States over bytes, where no contract speaks: blocks that siblings share.

use super::expect;
use daachorse_bytewise_states::states::States;
use daachorse_core::MatchKind;
use daachorse_core::errors::Result;
use daachorse_patterns::trie::build_trie;
use daachorse_placement::build_helper::Profile;
use std::alloc::Global;
use std::test::Fail;

/// The standard states of these patterns.
fn built(alloc: Global, patvals: &[(&[u8], u32)]) -> Result<States<u32>> {
    let nfa = build_trie(alloc, MatchKind::Standard, Some(0x00ff_ffff), patvals)?;
    States::build(alloc, MatchKind::Standard, nfa, &Profile::new(alloc))
}

/// A prefix, and the first and the last of the bytes that follow it.
type Group<'a> = (&'a [u8], u8, u8);

/// Groups of patterns, the numbers of elements and states, and bases by element.
type Layout<'a> = (&'a [Group<'a>], usize, u32, &'a [(u32, u32)]);

const LAYOUTS: [Layout<'static>; 4] = [
    (&[(b"", 0, 0xfd)], 256, 255, &[(0, 0xfe)]),
    (
        &[(b"", 0, 0), (b"", 2, 2), (b"", 4, 0xff)],
        512,
        255,
        &[(0, 0x100)],
    ),
    (
        &[(b"", 0, 0x7f), (b"\x00", 0, 0x7d)],
        256,
        255,
        &[(0, 0x80), (0x80, 0x7e)],
    ),
    (
        &[
            (b"", 0, 0x7f),
            (b"\x00", 0, 0),
            (b"\x00", 2, 2),
            (b"\x00", 4, 0x7f),
        ],
        512,
        255,
        &[(0, 0x80), (0x80, 0x100)],
    ),
];

/// Appends the patterns of a group.
fn push_patterns(patterns: &mut Vec<Vec<u8>>, group: Group<'_>) -> Result<()> {
    let (beginning, first, last) = group;
    for byte in first..=last {
        let mut pattern = Vec::from_slice(*patterns.allocator(), beginning)?;
        pattern.push(byte)?;
        patterns.push(pattern)?;
    }
    Ok(())
}

/// The states of these groups of patterns, each with the value 0.
fn built_of(alloc: Global, groups: &[Group<'_>]) -> Result<States<u32>> {
    let mut patterns = Vec::new(alloc);
    for group in groups {
        push_patterns(&mut patterns, *group)?;
    }
    let mut patvals: Vec<(&[u8], u32)> = Vec::new(alloc);
    for pattern in &patterns {
        patvals.push((pattern.as_slice(), 0))?;
    }
    built(alloc, &patvals)
}

/// Whether these elements are written with these bases.
fn have_bases(alloc: Global, states: &States<u32>, bases: &[(u32, u32)]) -> Result<bool> {
    let bytes = states.serialize(alloc, false, &None)?;
    for (element, base) in bases {
        // After the count, each element takes 12 bytes and begins with its base.
        let place = 4 + 12 * *element as usize;
        if place >= bytes.len() || !bytes[place..].starts_with(&base.to_le_bytes()) {
            return Ok(false);
        }
    }
    Ok(true)
}

#[test]
fn siblings_share_blocks(rt: HostRuntime) -> Result<(), Fail> {
    for (groups, num_elements, num_states, bases) in LAYOUTS {
        let states = built_of(rt.alloc(), groups)?;
        expect(&rt, states.num_elements() == num_elements, "the elements");
        expect(&rt, states.num_states() == num_states, "the states");
        expect(&rt, have_bases(rt.alloc(), &states, bases)?, "the bases");
    }
    Ok(())
}
