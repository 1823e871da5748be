//! Worked rows of the prefilter, its gate and its written form.

use super::expect;
use daachorse_core::errors::DaachorseError;
use daachorse_prefilter::prefilter::{Prefilter, PrefilterBuilder, PrefilterGate};
use daachorse_serializer::serializer::SerializableVec;
use std::alloc::{AllocError, Global};
use std::test::Fail;

/// The prefilter of these patterns.
fn filter_of(alloc: Global, patterns: &[&[u8]]) -> Result<Option<Prefilter>, DaachorseError> {
    let mut builder = PrefilterBuilder::new(alloc)?;
    for pattern in patterns {
        builder.add(pattern);
    }
    Ok(builder.build())
}

/// A call that looks for a candidate.
#[derive(Clone, Copy)]
enum Asked {
    Bytes,
    FoldedBytes,
    Text,
    FoldedText,
}

/// The first candidate in a text, from an offset on.
fn place_of(filter: &Prefilter, asked: Asked, text: &str, from: usize) -> usize {
    match asked {
        Asked::Bytes => filter.next_position(text.as_bytes(), from),
        Asked::FoldedBytes => filter.next_position_folded(text.as_bytes(), from),
        Asked::Text => filter.next_position_at_char_boundary(text, from),
        Asked::FoldedText => filter.next_position_folded_at_char_boundary(text, from),
    }
}

const WORDS: &[&[u8]] = &[b"aria", b"iris"];

const NAME: &[&[u8]] = &[b"neovenezia"];

/// The last two bytes of あ.
const WITHIN: &[&[u8]] = &[b"\x81\x82"];

const KANA: &[&[u8]] = &[b"\xe3\x81\x82", b"\xe3\x81\x84"];

const LATIN: &[&[u8]] = &[b"k\xc3\xa9", b"\xa9k"];

/// Patterns, the call, a text, the offset to start from, and the first candidate.
type Row = (&'static [&'static [u8]], Asked, &'static str, usize, usize);

const ROWS: &[Row] = &[
    (WORDS, Asked::Bytes, "xxxariaxxx", 0, 3),
    (WORDS, Asked::Bytes, "xxxariaxxx", 3, 3),
    (WORDS, Asked::Bytes, "xxxariaxxx", 5, 10),
    (WORDS, Asked::Bytes, "xxxariaxxx", 10, 10),
    (WORDS, Asked::Bytes, "xxxariaxxx", 11, 10),
    (WORDS, Asked::Bytes, "xxarisxxxx", 0, 2),
    (WORDS, Asked::Bytes, "xxarxrixia", 0, 10),
    (WORDS, Asked::Bytes, "iris", 0, 0),
    (WORDS, Asked::Bytes, "", 0, 0),
    (WORDS, Asked::Bytes, "XXXARIAXXX", 0, 10),
    (WORDS, Asked::FoldedBytes, "XXXARIAXXX", 0, 3),
    (WORDS, Asked::FoldedBytes, "xxxarIAxxx", 5, 10),
    (WORDS, Asked::FoldedBytes, "XX@RIAXXXX", 0, 10),
    (WORDS, Asked::FoldedBytes, "XX[RISXXXX", 0, 10),
    // A round reads sixteen pairs, or eight if case is ignored. Here one round has two candidates,
    // and another candidate's window ends after its round.
    (WORDS, Asked::Bytes, "xxxariaxxxirisxxxxxxxxxx", 0, 3),
    (WORDS, Asked::Bytes, "xxxariaxxxirisxxxxxxxxxx", 4, 10),
    (WORDS, Asked::FoldedBytes, "XXXXXXXXXXXXXXARIAXXXXXX", 0, 14),
    // A window has at most 9 bytes.
    (NAME, Asked::Bytes, "xxneovenezix", 0, 2),
    (NAME, Asked::Bytes, "xxneovenezxx", 0, 12),
    (NAME, Asked::Bytes, "xxxxxxxxxxneovenezixxxxxxxxx", 0, 10),
    (WITHIN, Asked::Bytes, "あい", 0, 1),
    (WITHIN, Asked::Text, "あい", 0, 6),
    (KANA, Asked::Text, "xあえい", 0, 1),
    (KANA, Asked::Text, "xあえい", 2, 7),
    (KANA, Asked::Text, "xあえい", 8, 10),
    (LATIN, Asked::FoldedText, "ÉKé", 0, 2),
    (LATIN, Asked::FoldedText, "éK", 0, 3),
    (LATIN, Asked::FoldedText, "\u{212a}éxKé", 0, 6),
];

#[test]
fn the_first_place_that_passes_is_found(rt: HostRuntime) -> Result<(), Fail> {
    for (patterns, asked, text, from, place) in ROWS {
        let filter = filter_of(rt.alloc(), patterns)?.ok_or("no filter")?;
        let found = place_of(&filter, *asked, text, *from);
        expect(&rt, found == *place, text);
    }
    expect(&rt, Prefilter::<Global>::MIN_WINDOW_LEN == 2, "the least");
    expect(&rt, Prefilter::<Global>::MAX_WINDOW_LEN == 9, "the most");
    Ok(())
}

/// The first `count` characters of a repeated filling, then a word and twenty bytes more.
fn text_of(alloc: Global, filling: &str, count: usize, word: &str) -> Result<String, AllocError> {
    let mut text = String::new(alloc);
    for character in filling.chars().cycle().take(count) {
        text.push(character)?;
    }
    text.push_str(word)?;
    text.push_str("xxxxxxxxxxxxxxxxxxxx")?;
    Ok(text)
}

/// The call, what a text repeats before a word, and the word.
const LONG_ROWS: [(Asked, &str, &str); 5] = [
    (Asked::Bytes, "x", "aria"),
    // Every third pair of bytes begins a window.
    (Asked::Bytes, "arx", "iris"),
    (Asked::FoldedBytes, "ArX", "iRiS"),
    (Asked::Text, "x", "aria"),
    (Asked::FoldedText, "X", "ARIA"),
];

/// Whether the word after `count` bytes is the first candidate from three offsets on, and the last.
fn is_first(filter: &Prefilter, asked: Asked, text: &str, count: usize) -> bool {
    for from in [0, count / 2, count] {
        if place_of(filter, asked, text, from) != count {
            return false;
        }
    }
    place_of(filter, asked, text, count.saturating_add(1)) == text.len()
}

#[test]
fn a_word_is_found_at_each_place_of_a_round(rt: HostRuntime) -> Result<(), Fail> {
    let filter = filter_of(rt.alloc(), WORDS)?.ok_or("no filter")?;
    for (asked, filling, word) in &LONG_ROWS {
        for count in 0..200usize {
            let text = text_of(rt.alloc(), filling, count, word)?;
            expect(&rt, is_first(&filter, *asked, &text, count), &text);
        }
    }
    Ok(())
}

/// The prefilter of the first `count` pairs of bytes, in their order.
fn filter_of_pairs(alloc: Global, count: u32) -> Result<Option<Prefilter>, DaachorseError> {
    let mut builder = PrefilterBuilder::new(alloc)?;
    for pair in 0..count {
        let [_, _, first, second] = pair.to_be_bytes();
        builder.add(&[first, second]);
    }
    Ok(builder.build())
}

#[test]
fn no_filter_is_made_in_vain(rt: HostRuntime) -> Result<(), Fail> {
    let rows: [&[&[u8]]; 3] = [&[], &[b"aqua", b"a"], &[b"aqua", b""]];
    for patterns in &rows {
        let filter = filter_of(rt.alloc(), patterns)?;
        expect(&rt, filter.is_none(), "a pattern of less than 2 bytes");
    }
    for (count, is_some) in [(4096, true), (4097, false), (65536, false)] {
        let filter = filter_of_pairs(rt.alloc(), count)?;
        expect(&rt, filter.is_some() == is_some, "many pairs");
    }
    Ok(())
}

/// The written form of the prefilter of aria and iris.
fn written(alloc: Global) -> Result<Vec<u8>, DaachorseError> {
    let mut bytes = Vec::new(alloc);
    if let Some(filter) = filter_of(alloc, WORDS)? {
        filter.in_range();
        filter.serialize_to_vec(&mut bytes)?;
    }
    Ok(bytes)
}

/// Some bytes of the written form. The window has 4 bytes; ar begins a pattern, ri is at offset 1
/// of one, and ra is in none.
const FORM: [(usize, u8); 4] = [
    (0, 4),
    (1 + 256 * 97 + 114, 0b1111_1110),
    (1 + 256 * 114 + 105, 0b1111_1101),
    (1 + 256 * 114 + 97, 0b1111_1111),
];

#[test]
fn a_filter_has_its_form(rt: HostRuntime) -> Result<(), Fail> {
    let bytes = written(rt.alloc())?;
    expect(&rt, bytes.len() == 65537, "the length");
    for (place, byte) in &FORM {
        expect(&rt, bytes.get(*place) == Some(byte), "the byte");
    }
    Ok(())
}

/// Whether a gate is open after this many more runs of this many bytes.
fn is_open(gate: &mut PrefilterGate, runs: u32, bytes: usize) -> bool {
    for _ in 0..runs {
        gate.record(bytes);
    }
    gate.is_enabled()
}

#[test]
fn a_gate_closes_for_good(rt: HostRuntime) {
    let mut gate = PrefilterGate::new();
    expect(&rt, is_open(&mut gate, 128, 8), "runs of 8 bytes");
    expect(&rt, is_open(&mut gate, 63, 7), "63 runs of 7 bytes");
    expect(&rt, !is_open(&mut gate, 1, 7), "64 runs of 7 bytes");
    expect(&rt, !is_open(&mut gate, 64, usize::MAX), "for good");
}
