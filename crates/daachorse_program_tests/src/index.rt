//! `daacindex`: its statuses and texts, and that a written automaton finds what a built one does.

use crate::command::{End, end_of};
use crate::expect;
use daacfind_command::index::command::command;
use daacfind_command::index::written::{IndexError, run_written, write};
use daacfind_command::mode::Mode;
use daacfind_command::sink::WriterSink;
use daachorse::errors::DaachorseError;
use refusing::{Answer, Refusing};
use std::alloc::{AllocError, Global};
use std::test::Fail;

const USAGE: &[u8] =
    b"usage: daacindex write MODE PATTERNS | search MODE AUTOMATON HAYSTACK, MODE overlapping, nosuffix, find, longest or first\n";

const LOST: &[u8] = b"daacindex: cannot read lost\n";

// What a row shows, the words of a command line without output, and how the program ends: its
// status, its messages, and how often it reads a file.
type Row = (
    &'static str,
    &'static [&'static [u8]],
    u8,
    &'static [u8],
    u64,
);

const ROWS: &[Row] = &[
    ("no argument", &[], 2, USAGE, 0),
    ("two arguments", &[b"write", b"find"], 2, USAGE, 0),
    (
        "no action",
        &[b"find", b"patterns", b"haystack"],
        2,
        USAGE,
        0,
    ),
    (
        "no mode",
        &[b"write", b"shortest", b"patterns"],
        2,
        USAGE,
        0,
    ),
    ("no text", &[b"write", b"find", b"\xff"], 2, USAGE, 0),
    (
        "five arguments",
        &[b"search", b"find", b"automaton", b"haystack", b""],
        2,
        USAGE,
        0,
    ),
    ("no patterns", &[b"write", b"find", b"lost"], 1, LOST, 1),
    (
        "no automaton",
        &[b"search", b"find", b"lost", b"haystack"],
        1,
        LOST,
        1,
    ),
    (
        "no haystack",
        &[b"search", b"find", b"automaton", b"lost"],
        1,
        LOST,
        2,
    ),
];

// Whether the program ends as the row says.
fn ends_so(alloc: Global, row: &Row) -> Result<bool, AllocError> {
    let (_shows, words, status, reported, reads) = *row;
    let end = end_of(alloc, b"", words, usize::MAX, command)?;
    Ok(end.is(status, b"", reported, reads))
}

#[test]
fn the_index_reports_its_status_and_its_cause(rt: HostRuntime) -> Result<(), Fail> {
    for row in ROWS {
        expect(&rt, ends_so(rt.alloc(), row)?, row.0);
    }
    Ok(())
}

// A mode, the file of patterns, what is found in the haystack, and a mode of another kind.
type WrittenRow = (&'static str, &'static [u8], &'static [u8], &'static [u8]);

const WRITTEN_ROWS: &[WrittenRow] = &[
    (
        "overlapping",
        b"patterns",
        b"0 1 2\n0 2 1\n1 4 0\n",
        b"longest",
    ),
    ("nosuffix", b"patterns", b"0 1 2\n0 2 1\n1 4 0\n", b"first"),
    ("find", b"patterns", b"0 1 2\n1 4 0\n", b"first"),
    ("longest", b"chain", b"0 4 2\n", b"first"),
    ("first", b"chain", b"0 2 0\n", b"find"),
];

// Whether a search with an automaton from a file finds this, or fails with this message.
fn searches_so(
    alloc: Global,
    automaton: &[u8],
    mode: &[u8],
    found: &[u8],
    cause: &[u8],
) -> Result<bool, AllocError> {
    let words = [b"search".as_slice(), mode, b"automaton", b"haystack"];
    let end = end_of(alloc, automaton, &words, usize::MAX, command)?;
    let status = if cause.is_empty() { 0 } else { 1 };
    Ok(end.is(status, found, cause, 2))
}

const NO_AUTOMATON: &[u8] = b"InvalidAutomatonError: invalid serialized automaton\n";

const OTHER_KIND: &[u8] = b"daacindex: the automaton is for another kind of search\n";

// The automaton that the program writes, with nothing else.
fn written(alloc: Global, mode: &[u8], patterns: &[u8]) -> Result<End, AllocError> {
    end_of(alloc, b"", &[b"write", mode, patterns], usize::MAX, command)
}

// Whether the automaton of a row is written and searched, and is refused without its first byte and
// for another kind of search.
fn is_searched(alloc: Global, row: &WrittenRow) -> Result<bool, AllocError> {
    let (name, patterns, found, other) = *row;
    let mode = name.as_bytes();
    let end = written(alloc, mode, patterns)?;
    let automaton = end.out.writer().taken.as_slice();
    let rest = automaton.get(1..).unwrap_or(b"");
    Ok(
        end.is(0, automaton, b"", 1)
            && searches_so(alloc, automaton, mode, found, b"")?
            && searches_so(alloc, rest, mode, b"", NO_AUTOMATON)?
            && searches_so(alloc, automaton, other, b"", OTHER_KIND)?,
    )
}

#[test]
fn a_written_automaton_is_searched(rt: HostRuntime) -> Result<(), Fail> {
    for row in WRITTEN_ROWS {
        expect(&rt, is_searched(rt.alloc(), row)?, row.0);
    }
    Ok(())
}

// The words of a command line, how many bytes the output takes, and which these are; `None` if they
// are the beginning of an automaton.
type HaltRow = (&'static [&'static [u8]], usize, Option<&'static [u8]>);

const HALT_ROWS: [HaltRow; 3] = [
    (&[b"write", b"find", b"patterns"], 0, Some(b"")),
    (&[b"write", b"find", b"patterns"], 9, None),
    (
        &[b"search", b"find", b"automaton", b"haystack"],
        7,
        Some(b"0 1 2\n1"),
    ),
];

const CANNOT_WRITE: &[u8] = b"daacindex: cannot write\n";

// Whether the program fails as the row says.
fn halts_so(alloc: Global, row: &HaltRow) -> Result<bool, AllocError> {
    let (words, room, wanted) = *row;
    let end = written(alloc, b"find", b"patterns")?;
    let automaton = end.out.writer().taken.as_slice();
    let wanted = wanted.unwrap_or(automaton.get(..room).unwrap_or(b""));
    let reads = if words.len() == 3 { 1 } else { 2 };
    Ok(end_of(alloc, automaton, words, room, command)?.is(1, wanted, CANNOT_WRITE, reads))
}

#[test]
fn an_output_that_fails_is_reported(rt: HostRuntime) -> Result<(), Fail> {
    for row in &HALT_ROWS {
        expect(&rt, halts_so(rt.alloc(), row)?, "an output that fails");
    }
    Ok(())
}

// Whether an automaton is written, and what is found with it. Requests of the outputs are not
// refused.
fn finds(alloc: Global, heap: &Refusing<Global>) -> Result<bool, IndexError> {
    let mut automaton = WriterSink::new(Vec::new(alloc));
    write(heap, Mode::Find, b"ab\ncd\n", &mut automaton)?;
    let mut out = WriterSink::new(Vec::new(alloc));
    run_written(heap, Mode::Find, automaton.writer(), b"xcd", &mut out)?;
    Ok(out.writer().as_slice() == b"1 3 1\n".as_slice())
}

// How a write and a search went.
fn answer(alloc: Global, heap: &Refusing<Global>) -> Answer {
    match finds(alloc, heap) {
        Ok(true) => Answer::Right,
        Err(IndexError::Refused(DaachorseError::OutOfMemory(_))) => Answer::Refused,
        _ => Answer::Wrong,
    }
}

// How many requests, refused in turn, end a write and a search; `None` if one makes them wrong.
fn count_refusals(alloc: Global) -> Option<u32> {
    let mut count = 0u32;
    for number in 0..10_000u64 {
        let heap = Refusing::new(alloc, number);
        match answer(alloc, &heap) {
            Answer::Refused => count = count.saturating_add(1),
            Answer::Right if !heap.has_refused() => return Some(count),
            // The room for the lines is asked for again.
            Answer::Right if number == 0 => {}
            _ => return None,
        }
    }
    None
}

#[test]
fn a_request_that_is_refused_is_reported(rt: HostRuntime) {
    let count = count_refusals(rt.alloc());
    expect(
        &rt,
        count.is_some_and(|count| count > 9),
        "a write and a search",
    );
}
