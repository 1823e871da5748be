//! Automata with values of a custom type: they are written and read, and a bad value or prefilter
//! is refused with its own error.

use crate::expect;
use daachorse::errors::DaachorseError;
use daachorse::{CharwiseDoubleArrayAhoCorasick, DoubleArrayAhoCorasick, Result};
use daachorse_uses::rating::{Level, Rating};
use std::alloc::Global;
use std::test::Fail;

type OverBytes = DoubleArrayAhoCorasick<Rating>;

type OverCharacters = CharwiseDoubleArrayAhoCorasick<Rating>;

const MILD: Rating = Rating {
    weight: 0x0123,
    level: Level::Mild,
};

const SEVERE: Rating = Rating {
    weight: 7,
    level: Level::Severe,
};

/// The patterns ab and cd with their ratings, over bytes.
fn over_bytes(alloc: Global) -> Result<OverBytes> {
    OverBytes::with_values(alloc, [(b"ab".as_slice(), MILD), (b"cd", SEVERE)])
}

/// The patterns ab and cd with their ratings, over characters.
fn over_characters(alloc: Global) -> Result<OverCharacters> {
    OverCharacters::with_values(alloc, [("ab", MILD), ("cd", SEVERE)])
}

/// The written outputs: how many there are, and of each the weight, the level, the length, and 0
/// for no next output.
const OUTPUTS: [u8; 26] = [
    2, 0, 0, 0, 0x23, 0x01, 1, 2, 0, 0, 0, 0, 0, 0, 0, 7, 0, 3, 2, 0, 0, 0, 0, 0, 0, 0,
];

/// Whether an automaton over bytes is written with these outputs, and returned by both reads.
fn are_read_over_bytes(alloc: Global) -> Result<bool> {
    let words = over_bytes(alloc)?;
    let bytes = words.serialize(alloc)?;
    let are_written = bytes.get(3084..3110) == Some(OUTPUTS.as_slice());
    let (checked, _rest) = OverBytes::deserialize(alloc, &bytes)?;
    let (unchecked, _rest) = OverBytes::deserialize_unchecked(alloc, &bytes)?;
    Ok(are_written && checked == words && unchecked == words)
}

/// Whether an automaton over characters is written with these outputs, and returned by both reads.
fn are_read_over_characters(alloc: Global) -> Result<bool> {
    let words = over_characters(alloc)?;
    let bytes = words.serialize(alloc)?;
    let are_written = bytes.get(544..570) == Some(OUTPUTS.as_slice());
    let (checked, _rest) = OverCharacters::deserialize(alloc, &bytes)?;
    let (unchecked, _rest) = OverCharacters::deserialize_unchecked(alloc, &bytes)?;
    Ok(are_written && checked == words && unchecked == words)
}

#[test]
fn ratings_are_written_and_read(rt: HostRuntime) -> Result<(), Fail> {
    let alloc = rt.alloc();
    expect(&rt, are_read_over_bytes(alloc)?, "over bytes");
    expect(&rt, are_read_over_characters(alloc)?, "over characters");
    Ok(())
}

/// What a row shows, the places over bytes and over characters, the byte to put there, and whether
/// the error is that of a value; else it is that of the automaton.
const CHANGES: [(&str, usize, usize, u8, bool); 5] = [
    ("the level of ab is 0", 3090, 550, 0, true),
    ("the level of ab is 4", 3090, 550, 4, true),
    ("the level of cd is 255", 3101, 561, 255, true),
    ("the length of the window is 3", 3116, 576, 3, false),
    ("the entry of a and b is 255", 28047, 25507, 255, false),
];

/// Sets the byte at a place.
fn put(bytes: &mut [u8], place: usize, byte: u8) {
    if let Some(there) = bytes.get_mut(place) {
        *there = byte;
    }
}

/// The error of a read over bytes with this byte changed.
fn error_over_bytes(alloc: Global, place: usize, byte: u8) -> Result<Option<DaachorseError>> {
    let mut bytes = over_bytes(alloc)?.serialize(alloc)?;
    put(&mut bytes, place, byte);
    Ok(OverBytes::deserialize(alloc, &bytes).err())
}

/// The error of a read over characters with this byte changed.
fn error_over_characters(alloc: Global, place: usize, byte: u8) -> Result<Option<DaachorseError>> {
    let mut bytes = over_characters(alloc)?.serialize(alloc)?;
    put(&mut bytes, place, byte);
    Ok(OverCharacters::deserialize(alloc, &bytes).err())
}

/// Whether this is the error of a value, or else that of an automaton.
fn is_error(error: &Option<DaachorseError>, is_own: bool) -> bool {
    match error {
        Some(DaachorseError::InvalidConversion(_)) => is_own,
        Some(DaachorseError::InvalidAutomaton(_)) => !is_own,
        _ => false,
    }
}

#[test]
fn a_bad_rating_has_its_own_error(rt: HostRuntime) -> Result<(), Fail> {
    for (shows, place, place_of_text, byte, is_own) in CHANGES {
        let error = error_over_bytes(rt.alloc(), place, byte)?;
        expect(&rt, is_error(&error, is_own), shows);
        let error = error_over_characters(rt.alloc(), place_of_text, byte)?;
        expect(&rt, is_error(&error, is_own), shows);
    }
    Ok(())
}
