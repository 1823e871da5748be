//! The limit on the number of patterns in a trie.

use super::expect;
use daachorse_core::MatchKind;
use daachorse_core::errors::{DaachorseError, Result};
use daachorse_patterns::trie::build_trie;
use std::alloc::Global;
use std::test::Fail;

/// A kind, a limit, and whether the patterns a, ab and abc exceed it.
const LIMITS: [(MatchKind, u8, bool); 5] = [
    (MatchKind::Standard, 3, false),
    (MatchKind::Standard, 2, true),
    (MatchKind::LeftmostLongest, 2, true),
    (MatchKind::LeftmostFirst, 1, false),
    (MatchKind::LeftmostFirst, 0, true),
];

/// Whether the patterns a, ab and abc exceed a limit.
fn is_passed(alloc: Global, kind: MatchKind, max: u8) -> Result<bool> {
    let patterns: [(&[u8], u32); 3] = [(b"a", 0), (b"ab", 1), (b"abc", 2)];
    match build_trie(alloc, kind, Some(usize::from(max)), &patterns) {
        Ok(_) => Ok(false),
        Err(DaachorseError::AutomatonScale(_)) => Ok(true),
        Err(error) => Err(error),
    }
}

#[test]
fn patterns_that_are_left_out_do_not_count(rt: HostRuntime) -> Result<(), Fail> {
    for (kind, max, passed) in LIMITS {
        let found = is_passed(rt.alloc(), kind, max)?;
        expect(&rt, found == passed, "the limit");
    }
    Ok(())
}
