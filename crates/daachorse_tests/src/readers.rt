//! Searches of what a reader gives that is slow, interrupted, no text, or fails in the middle.

use crate::automata::{Automaton, BUILT, Bytewise, Charwise, LONGEST, Patvals, Way};
use crate::expect_over;
use crate::finding::Found;
use std::alloc::Global;
use std::io::{self, ErrorKind, Read};
use std::test::Fail;

/// A reader that gives at most three bytes a call, is interrupted three times before each, and then
/// fails with this error, or comes to its end. Past either it would give more.
#[derive(Drop)]
pub struct Slow {
    left: &'static [u8],
    interruptions: u8,
    error: Option<ErrorKind>,
}

impl Read for Slow {
    fn read(&mut self, room: &mut [u8]) -> io::Result<usize> {
        if self.interruptions < 3 {
            self.interruptions += 1;
            return Err(io::Error::from(ErrorKind::Interrupted));
        }
        self.interruptions = 0;
        if self.left.is_empty() {
            self.left = b"ab";
            return match self.error {
                Some(error) => Err(io::Error::from(error)),
                None => Ok(0),
            };
        }
        let count = room.len().min(3);
        self.left.read(&mut room[..count])
    }
}

pub fn slowly(left: &'static [u8], error: Option<ErrorKind>) -> Slow {
    Slow {
        left,
        interruptions: 0,
        error,
    }
}

/// The error of the reader, and that of what is no text.
const RESET: Option<ErrorKind> = Some(ErrorKind::ConnectionReset);

const INVALID: Option<ErrorKind> = Some(ErrorKind::InvalidData);

/// What a reader gives and fails with, all matches of the words in it, what is written of it with
/// the matches that do not overlap in brackets, and the error at which both end.
struct Row {
    shows: &'static str,
    given: &'static [u8],
    fails: Option<ErrorKind>,
    matches: &'static [Found],
    written: &'static [u8],
    ends: Option<ErrorKind>,
}

const WORDS: Patvals = &[("ab", 0), ("b", 1), ("世", 2)];

const ROWS_OF_BYTES: [Row; 2] = [
    Row {
        shows: "a reader that fails",
        given: b"xabxb",
        fails: RESET,
        matches: &[(1, 3, 0), (2, 3, 1), (4, 5, 1)],
        written: b"x[ab]x[b]",
        ends: RESET,
    },
    Row {
        shows: "bytes that are no text",
        given: b"xab\xffb",
        fails: None,
        matches: &[(1, 3, 0), (2, 3, 1), (4, 5, 1)],
        written: b"x[ab]\xff[b]",
        ends: None,
    },
];

const ROWS_OF_CHARACTERS: [Row; 5] = [
    Row {
        shows: "a reader that fails",
        given: b"xabx\xe4\xb8\x96",
        fails: RESET,
        matches: &[(1, 3, 0), (2, 3, 1), (4, 7, 2)],
        written: b"x[ab]x[\xe4\xb8\x96]",
        ends: RESET,
    },
    Row {
        shows: "a reader that fails within a character",
        given: b"\xe4\xb8\x96\xe4\xb8",
        fails: RESET,
        matches: &[(0, 3, 2)],
        written: b"[\xe4\xb8\x96]",
        ends: RESET,
    },
    Row {
        shows: "a character that is cut off",
        given: b"\xe4\xb8\x96\xe4\xb8",
        fails: None,
        matches: &[(0, 3, 2)],
        written: b"[\xe4\xb8\x96]",
        ends: INVALID,
    },
    Row {
        shows: "bytes that are no text",
        given: b"xab\xffab",
        fails: None,
        matches: &[(1, 3, 0), (2, 3, 1)],
        written: b"x[ab]",
        ends: INVALID,
    },
    Row {
        shows: "bytes that are no text before the reader fails",
        given: b"xab\xffab",
        fails: RESET,
        matches: &[(1, 3, 0), (2, 3, 1)],
        written: b"x[ab]",
        ends: INVALID,
    },
];

/// Whether a search and a replacement give what a row says.
fn holds<S: Automaton<Alloc = Global>>(alloc: Global, row: &Row) -> io::Result<bool> {
    let words = S::built(alloc, BUILT, WORDS)?;
    let mut out = Vec::new(alloc);
    let outcome = words.brackets(alloc, slowly(row.given, row.fails), &mut out);
    let error = outcome.err().map(|error| error.kind());
    let is_written = error == row.ends && out.as_slice() == row.written;
    let reader = slowly(row.given, row.fails);
    Ok(is_written && words.reads(alloc, reader, row.matches, row.ends)?)
}

#[test]
fn an_error_comes_after_the_matches_before_it(rt: HostRuntime) -> Result<(), Fail> {
    for row in &ROWS_OF_BYTES {
        let holds = holds::<Bytewise>(rt.alloc(), row)?;
        expect_over(&rt, holds, row.shows, "bytes");
    }
    for row in &ROWS_OF_CHARACTERS {
        let holds = holds::<Charwise>(rt.alloc(), row)?;
        expect_over(&rt, holds, row.shows, "characters");
    }
    Ok(())
}

/// What a reader gives and fails with, the leftmost matches that are certain by then, and the error
/// at which the search ends.
type CertainRow = (
    &'static [u8],
    Option<ErrorKind>,
    &'static [Found],
    Option<ErrorKind>,
);

const SECRETS: Patvals = &[("secret", 0), ("secretary", 1)];

const CERTAIN_OF_BYTES: [CertainRow; 2] = [
    (b"secretary secret", RESET, &[(0, 9, 1)], RESET),
    (
        b"secretary\xffsecret",
        None,
        &[(0, 9, 1), (10, 16, 0)],
        None,
    ),
];

const CERTAIN_OF_CHARACTERS: [CertainRow; 2] = [
    (b"secretary secret", RESET, &[(0, 9, 1)], RESET),
    (b"secretary\xffsecretary", RESET, &[(0, 9, 1)], INVALID),
];

/// Whether a leftmost search gives what a row says.
fn is_certain<S: Automaton<Alloc = Global>>(alloc: Global, row: &CertainRow) -> io::Result<bool> {
    let (given, fails, matches, ends) = *row;
    let words = S::built(alloc, LONGEST, SECRETS)?;
    words.reads_leftmost(alloc, slowly(given, fails), matches, ends)
}

#[test]
fn an_error_comes_after_what_is_certain(rt: HostRuntime) -> Result<(), Fail> {
    for row in &CERTAIN_OF_BYTES {
        let holds = is_certain::<Bytewise>(rt.alloc(), row)?;
        expect_over(&rt, holds, "secrets", "bytes");
    }
    for row in &CERTAIN_OF_CHARACTERS {
        let holds = is_certain::<Charwise>(rt.alloc(), row)?;
        expect_over(&rt, holds, "secrets", "characters");
    }
    Ok(())
}

/// Whether no byte of a secret goes out that the reader's error cuts off.
fn is_kept_back<S: Automaton<Alloc = Global>>(alloc: Global, way: Way) -> io::Result<bool> {
    let words = S::built(alloc, way, SECRETS)?;
    let mut out = Vec::new(alloc);
    let reader = slowly(b"my secret is secr", RESET);
    let outcome = words.brackets(alloc, reader, &mut out);
    let error = outcome.err().map(|error| error.kind());
    Ok(error == RESET && out.as_slice() == b"my [secret]".as_slice())
}

#[test]
fn a_secret_that_an_error_cuts_off_is_kept_back(rt: HostRuntime) -> Result<(), Fail> {
    for way in [BUILT, LONGEST] {
        let holds = is_kept_back::<Bytewise>(rt.alloc(), way)?;
        expect_over(&rt, holds, "a secret that is cut off", "bytes");
        let holds = is_kept_back::<Charwise>(rt.alloc(), way)?;
        expect_over(&rt, holds, "a secret that is cut off", "characters");
    }
    Ok(())
}
