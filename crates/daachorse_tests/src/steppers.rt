//! Clones of steppers, matches that outlive a step, and reads of a source.

use crate::automata::{Automaton, BUILT, Bytewise, Patvals};
use crate::expect;
use crate::finding::{are, at};
use daachorse::Match;
use std::alloc::AllocError;
use std::test::Fail;

const WORDS: Patvals = &[("a", 0), ("ab", 1), ("b", 2)];

/// Whether a clone of a stepper stays behind the byte at which it was made.
fn is_cloned(words: &Bytewise) -> Result<bool, AllocError> {
    if !words.match_kind().is_standard() {
        return Ok(false);
    }
    let mut stepper = words.find_stepper();
    stepper.consume(b'a');
    let cloned = stepper.clone()?;
    stepper.consume(b'c');
    Ok(cloned.matches() == Some(at(0, 1, 0)) && cloned.place() == 1 && stepper.matches().is_none())
}

/// Whether the matches behind a byte, and those of a clone, stay while the stepper goes on.
fn stay(words: &Bytewise) -> Result<bool, AllocError> {
    if !words.match_kind().is_standard() {
        return Ok(false);
    }
    let mut stepper = words.find_overlapping_stepper();
    stepper.consume(b'a');
    let first = stepper.matches();
    let cloned = stepper.clone()?.matches();
    stepper.consume(b'b');
    let second = stepper.matches();
    Ok(
        are(first, &[at(0, 1, 0)])
            && are(cloned, &[at(0, 1, 0)])
            && are(second, &[at(0, 2, 1), at(1, 2, 2)]),
    )
}

#[test]
fn steppers_are_cloned_and_their_matches_stay(rt: HostRuntime) -> Result<(), Fail> {
    let words = Bytewise::built(rt.alloc(), BUILT, WORDS)?;
    expect(&rt, is_cloned(&words)?, "without overlaps");
    expect(&rt, stay(&words)?, "all matches");
    Ok(())
}

/// The first match in a source of bytes, and how many bytes are left after it; `None` if it is no
/// standard automaton.
fn first_of(words: &Bytewise, bytes: &[u8]) -> Option<(Option<Match<u32>>, usize)> {
    if !words.match_kind().is_standard() {
        return None;
    }
    let mut source = bytes.iter().copied();
    let first = words.find_iter_from_iter(&mut source).next();
    Some((first, source.len()))
}

#[test]
fn a_source_is_read_to_the_end_of_the_match(rt: HostRuntime) -> Result<(), Fail> {
    let words = Bytewise::built(rt.alloc(), BUILT, &[("ab", 0)])?;
    let wanted = Some((Some(at(0, 2, 0)), 2));
    expect(
        &rt,
        first_of(&words, b"abab") == wanted,
        "two bytes are left of four",
    );
    Ok(())
}
