//! Reads of automata whose counts promise more than the bytes hold: nothing is allocated before the
//! bytes for it are there.

use crate::automata::{Automaton, Bytewise, Charwise};
use crate::expect;
use daachorse::errors::DaachorseError;
use refusing::Refusing;
use std::alloc::Global;

/// The part whose count is too large, and the bytes up to there.
type Row = (&'static str, &'static [u8]);

const OVER_BYTES: [Row; 5] = [
    ("states", &[255, 255, 255, 255]),
    (
        "states for leftmost searches",
        &[0, 0, 0, 0, 255, 255, 255, 255],
    ),
    ("links", &[0, 0, 0, 0, 0, 0, 0, 0, 255, 255, 255, 255]),
    (
        "outputs",
        &[0, 0, 0, 0, 0, 0, 0, 0, 0, 0, 0, 0, 255, 255, 255, 255],
    ),
    (
        "a filter",
        &[
            0, 0, 0, 0, 0, 0, 0, 0, 0, 0, 0, 0, 0, 0, 0, 0, // The lists.
            0, 1, 0, 0, 0, // The kind and the number of states.
            1, 4, 255,
        ],
    ),
];

const OVER_CHARACTERS: [Row; 4] = [
    ("states", &[255, 255, 255, 255]),
    ("codes", &[0, 0, 0, 0, 255, 255, 255, 255]),
    (
        "outputs",
        &[0, 0, 0, 0, 0, 0, 0, 0, 0, 0, 0, 0, 255, 255, 255, 255],
    ),
    (
        "a filter",
        &[
            0, 0, 0, 0, 0, 0, 0, 0, 0, 0, 0, 0, 0, 0, 0, 0, // The lists, and how many codes.
            0, 1, 0, 0, 0, // The kind and the number of states.
            1, 4, 255,
        ],
    ),
];

/// Whether bytes are refused as no automaton.
fn is_refused<S: Automaton>(alloc: S::Alloc, bytes: &[u8]) -> bool {
    match S::read(alloc, bytes) {
        Ok(_) => false,
        Err(error) => error == DaachorseError::invalid_automaton(),
    }
}

#[test]
fn a_count_asks_for_no_room(rt: HostRuntime) {
    let heap = Refusing::above(rt.alloc(), 1024);
    for (part, bytes) in OVER_BYTES {
        let holds = is_refused::<Bytewise<&Refusing<Global>>>(&heap, bytes);
        expect(&rt, holds, part);
    }
    for (part, bytes) in OVER_CHARACTERS {
        let holds = is_refused::<Charwise<&Refusing<Global>>>(&heap, bytes);
        expect(&rt, holds, part);
    }
}
