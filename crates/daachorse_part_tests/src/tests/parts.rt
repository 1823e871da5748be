//! Outputs, edge labels, match kinds and counts: what their calls return, and each law at one type.

use super::expect;
use daachorse_core::ascii_fold::AsciiFold;
use daachorse_core::edge_label::EdgeLabel;
use daachorse_core::turns::{Seen, Turns};
use daachorse_core::utils::FromU32;
use daachorse_core::{Empty, Match, Output};
use daachorse_model::{MatchKind, laws};
use std::num::NonZeroU32;

#[test]
fn an_output_keeps_its_parts_and_is_a_match(rt: HostRuntime) {
    let output = Output::new(7u32, 2, NonZeroU32::new(5));
    let parts = (output.value(), output.length(), output.parent());
    expect(&rt, parts == (7, 2, NonZeroU32::new(5)), "the parts");
    let wanted = Match {
        start: 1,
        end: 3,
        value: 7,
    };
    expect(&rt, output.to_match(3) == wanted, "the match");
    expect(&rt, Empty::from(9usize) == Empty, "no value");
    expect(&rt, usize::from_u32(u32::MAX) == 4294967295, "a number");
}

/// Characters of one to four bytes, with their lengths and numbers.
const CHARACTERS: [(char, usize, u32); 4] = [
    ('a', 1, 97),
    ('é', 2, 233),
    ('に', 3, 12395),
    ('\u{10000}', 4, 65536),
];

#[test]
fn a_character_is_a_label(rt: HostRuntime) {
    for (label, bytes, code) in &CHARACTERS {
        label.in_range();
        expect(&rt, label.num_bytes() == *bytes, "its length");
        expect(&rt, label.code() == *code, "its number");
    }
}

#[test]
fn letters_of_ascii_alone_are_folded(rt: HostRuntime) {
    let read = b"@ABCDEFGHIJKLMNOPQRSTUVWXYZ[\\]^_`abcdefghijklmnopqrstuvwxyz{";
    let folded = b"@abcdefghijklmnopqrstuvwxyz[\\]^_`abcdefghijklmnopqrstuvwxyz{";
    for (byte, wanted) in read.iter().zip(folded) {
        expect(&rt, byte.folded() == *wanted, "the byte");
        let character = char::from(*byte).folded();
        expect(&rt, character == char::from(*wanted), "the character");
    }
    // The last two are the Kelvin sign and the long s, whose full folds are k and s.
    for character in &['é', 'É', 'Ω', '\u{10400}', '\u{212a}', '\u{17f}'] {
        expect(&rt, character.folded() == *character, "past ASCII");
    }
}

/// Bytes, their kinds, whether these are leftmost, and whether they are leftmost-first.
const KINDS: [(u8, MatchKind, bool, bool); 3] = [
    (0, MatchKind::Standard, false, false),
    (1, MatchKind::LeftmostLongest, true, false),
    (2, MatchKind::LeftmostFirst, true, true),
];

#[test]
fn kinds_are_bytes_and_told_apart(rt: HostRuntime) {
    for (byte, kind, leftmost, first) in &KINDS {
        let same = MatchKind::from(*byte) == *kind && u8::from(*kind) == *byte;
        expect(&rt, same, "the byte");
        let told = (
            kind.is_standard(),
            kind.is_leftmost(),
            kind.is_leftmost_first(),
        );
        expect(&rt, told == (!*leftmost, *leftmost, *first), "the kind");
    }
    for byte in 3..=255u8 {
        let is_standard = MatchKind::from(byte) == MatchKind::Standard;
        expect(&rt, is_standard, "any other byte");
    }
}

#[test]
fn counts_take_no_bytes(rt: HostRuntime) {
    let size = size_of::<Turns>() + size_of::<Seen>();
    expect(&rt, size == 0, "their size");
}

#[test]
fn laws_stand_at_a_type() {
    laws::matches_occur::<u32>(MatchKind::Standard);
    laws::matches_follow::<u32>(MatchKind::LeftmostLongest);
    laws::leftmost_is_longest::<u32>(MatchKind::LeftmostLongest);
    laws::leftmost_first_is_earliest::<u32>();
    laws::certain_matches_grow::<u32>(MatchKind::LeftmostLongest);
    laws::cut_at_unused_units::<u32>(MatchKind::LeftmostFirst);
    laws::same_on_text::<u32>(MatchKind::LeftmostFirst);
    laws::ordered_by_bytes();
    laws::folding_keeps_places();
    laws::standard_end_by_end::<u32>(MatchKind::Standard);
}
