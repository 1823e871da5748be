//! `daacfind`, where no contract speaks: its texts and arguments, a writer that fails within a
//! line, and that the output is flushed once, at the end.

ghost use Rattle.std.specs.Prelude.{None};

use crate::expect;
use crate::halting::{Halt, Halting};
use daacfind_command::command::command;
use daacfind_command::inputs::{Arguments, Inputs};
use daacfind_command::mode::Mode;
use daacfind_command::run::{RunError, run};
use daacfind_command::sink::WriterSink;
use daachorse::errors::{DaachorseError, Limit};
use refusing::Refusing;
use std::alloc::{AllocError, Global};
use std::env::FillError;
use std::rt::Env;
use std::test::Fail;

// A long file name, which has the patterns.
const LONG: &[u8] = &[b'p'; 300];

const USAGE: &[u8] = b"usage: daacfind overlapping|nosuffix|find|longest|first PATTERNS HAYSTACK\n";

const PATTERNS: &[u8] = b"bcd\nab\na\n";

// A few files in memory, one of them the automaton, and how often a read was tried.
#[derive(Drop)]
pub struct Memory<'a> {
    alloc: Global,
    reads: u64,
    automaton: &'a [u8],
}

impl Inputs for Memory<'_> {
    ghost given = { λ _. None };

    fn read(&mut self, name: &str) -> Option<Vec<u8>> {
        self.reads = self.reads.wrapping_add(1);
        match name {
            "patterns" => Vec::from_slice(self.alloc, PATTERNS).ok(),
            "haystack" => Vec::from_slice(self.alloc, b"abcd").ok(),
            "line feed" => Vec::from_slice(self.alloc, b"\n").ok(),
            "chain" => Vec::from_slice(self.alloc, b"ab\na\nabcd\n").ok(),
            "letter" => Vec::from_slice(self.alloc, b"a").ok(),
            "nothing" => Some(Vec::new(self.alloc)),
            "automaton" => Vec::from_slice(self.alloc, self.automaton).ok(),
            long if long.as_bytes() == LONG => Vec::from_slice(self.alloc, PATTERNS).ok(),
            _ => None,
        }
    }
}

// The words of a command line after the program's name.
#[derive(Drop)]
struct Words<'a> {
    words: &'a [&'a [u8]],
}

impl Env for Words<'_> {
    fn arg(&self, i: usize, buf: &mut [u8]) -> Result<usize, FillError> {
        let word: &[u8] = match i.checked_sub(1) {
            None => b"daacfind",
            Some(place) => self.words.get(place).ok_or(FillError::NotPresent)?,
        };
        if word.len() > buf.len() {
            return Err(FillError::TooLong);
        }
        buf[..word.len()].copy_from_slice(word);
        Ok(word.len())
    }

    fn var(&self, _name: &str, _buf: &mut [u8]) -> Result<usize, FillError> {
        Err(FillError::NotPresent)
    }

    fn var_at(&self, _i: usize, _buf: &mut [u8]) -> Result<usize, FillError> {
        Err(FillError::NotPresent)
    }
}

// The words of a command line, and how the program ends: its status, its output, its messages on
// standard error, and how often it reads a file.
#[derive(Clone, Copy)]
struct Row {
    shows: &'static str,
    words: &'static [&'static [u8]],
    status: u8,
    written: &'static [u8],
    reported: &'static [u8],
    reads: u64,
}

const ROWS: &[Row] = &[
    Row {
        shows: "no argument",
        words: &[],
        status: 2,
        written: b"",
        reported: USAGE,
        reads: 0,
    },
    Row {
        shows: "two arguments",
        words: &[b"overlapping", b"patterns"],
        status: 2,
        written: b"",
        reported: USAGE,
        reads: 0,
    },
    Row {
        shows: "four arguments",
        words: &[b"overlapping", b"patterns", b"haystack", b"more"],
        status: 2,
        written: b"",
        reported: USAGE,
        reads: 0,
    },
    Row {
        shows: "no mode",
        words: &[b"shortest", b"patterns", b"haystack"],
        status: 2,
        written: b"",
        reported: USAGE,
        reads: 0,
    },
    Row {
        shows: "no mode of this program",
        words: &[b"write", b"find", b"patterns"],
        status: 2,
        written: b"",
        reported: USAGE,
        reads: 0,
    },
    Row {
        shows: "four arguments, of which the first is no mode",
        words: &[b"read", b"find", b"automaton", b"haystack"],
        status: 2,
        written: b"",
        reported: USAGE,
        reads: 0,
    },
    Row {
        shows: "no text",
        words: &[b"overlapping", b"\xff", b"haystack"],
        status: 2,
        written: b"",
        reported: USAGE,
        reads: 0,
    },
    Row {
        shows: "a name of 300 bytes",
        words: &[b"find", LONG, b"haystack"],
        status: 0,
        written: b"0 1 2\n1 4 0\n",
        reported: b"",
        reads: 2,
    },
    Row {
        shows: "five words",
        words: &[b"find", b"patterns", b"haystack", b"", b""],
        status: 2,
        written: b"",
        reported: USAGE,
        reads: 0,
    },
    Row {
        shows: "no patterns",
        words: &[b"overlapping", b"lost", b"haystack"],
        status: 1,
        written: b"",
        reported: b"daacfind: cannot read lost\n",
        reads: 1,
    },
    Row {
        shows: "no haystack",
        words: &[b"overlapping", b"patterns", b"lost"],
        status: 1,
        written: b"",
        reported: b"daacfind: cannot read lost\n",
        reads: 2,
    },
    Row {
        shows: "overlapping",
        words: &[b"overlapping", b"patterns", b"haystack"],
        status: 0,
        written: b"0 1 2\n0 2 1\n1 4 0\n",
        reported: b"",
        reads: 2,
    },
    Row {
        shows: "nosuffix",
        words: &[b"nosuffix", b"patterns", b"haystack"],
        status: 0,
        written: b"0 1 2\n0 2 1\n1 4 0\n",
        reported: b"",
        reads: 2,
    },
    Row {
        shows: "find",
        words: &[b"find", b"patterns", b"haystack"],
        status: 0,
        written: b"0 1 2\n1 4 0\n",
        reported: b"",
        reads: 2,
    },
    Row {
        shows: "an empty pattern",
        words: &[b"find", b"line feed", b"letter"],
        status: 0,
        written: b"0 0 0\n1 1 0\n",
        reported: b"",
        reads: 2,
    },
    Row {
        shows: "longest",
        words: &[b"longest", b"chain", b"haystack"],
        status: 0,
        written: b"0 4 2\n",
        reported: b"",
        reads: 2,
    },
    Row {
        shows: "first",
        words: &[b"first", b"chain", b"haystack"],
        status: 0,
        written: b"0 2 0\n",
        reported: b"",
        reads: 2,
    },
    Row {
        shows: "no pattern in the file of patterns",
        words: &[b"find", b"nothing", b"letter"],
        status: 0,
        written: b"",
        reported: b"",
        reads: 2,
    },
    Row {
        shows: "an empty haystack",
        words: &[b"find", b"patterns", b"nothing"],
        status: 0,
        written: b"",
        reported: b"",
        reads: 2,
    },
];

/// How a program ends: its status, what its output took, its messages on standard error, and how
/// often it reads a file.
#[derive(Drop)]
pub struct End {
    pub status: u8,
    pub out: WriterSink<Halting>,
    err: WriterSink<Vec<u8>>,
    reads: u64,
}

impl End {
    /// Whether it is so.
    pub fn is(&self, status: u8, written: &[u8], reported: &[u8], reads: u64) -> bool {
        self.status == status
            && self.out.writer().taken.as_slice() == written
            && self.err.writer().as_slice() == reported
            && self.reads == reads
    }
}

/// How a program ends that runs this command on these words, with this automaton as a file and an
/// output that takes so many bytes.
pub fn end_of<'m, C>(
    alloc: Global,
    automaton: &'m [u8],
    words: &[&[u8]],
    room: usize,
    command: C,
) -> Result<End, AllocError>
where
    C: FnOnce(
        Global,
        &[Option<&str>],
        &mut Memory<'m>,
        &mut WriterSink<Halting>,
        &mut WriterSink<Vec<u8>>,
    ) -> u8,
    requires { C.IsAlwaysCallable command }
{
    let arguments = Arguments::read(&Words { words }, alloc)?;
    let texts = arguments.texts(alloc)?;
    let mut files = Memory {
        alloc,
        reads: 0,
        automaton,
    };
    let mut out = WriterSink::new(Halting::new(alloc, room));
    let mut err = WriterSink::new(Vec::new(alloc));
    let status = command(alloc, &texts, &mut files, &mut out, &mut err);
    let reads = files.reads;
    Ok(End {
        status,
        out,
        err,
        reads,
    })
}

// Whether the program ends as the row says.
fn ends_so(alloc: Global, row: &Row) -> Result<bool, AllocError> {
    let end = end_of(alloc, b"", row.words, usize::MAX, command)?;
    Ok(end.is(row.status, row.written, row.reported, row.reads))
}

#[test]
fn the_program_reports_its_status_and_its_cause(rt: HostRuntime) -> Result<(), Fail> {
    for row in ROWS {
        expect(&rt, ends_so(rt.alloc(), row)?, row.shows);
    }
    Ok(())
}

// The words of a command line, how many bytes the output and standard error take before they fail,
// the allocation that is refused, and how the command ends: its status and its messages.
#[derive(Clone, Copy)]
struct Failing {
    shows: &'static str,
    words: &'static [Option<&'static str>],
    takes: usize,
    reports: usize,
    refused: u64,
    status: u8,
    reported: &'static [u8],
}

const RUN: &[Option<&str>] = &[Some("overlapping"), Some("patterns"), Some("haystack")];

const FAILING: &[Failing] = &[
    Failing {
        shows: "an output that fails at once",
        words: RUN,
        takes: 0,
        reports: 99,
        refused: u64::MAX,
        status: 1,
        reported: b"daacfind: cannot write\n",
    },
    Failing {
        shows: "an output that fails later",
        words: RUN,
        takes: 7,
        reports: 99,
        refused: u64::MAX,
        status: 1,
        reported: b"daacfind: cannot write\n",
    },
    Failing {
        shows: "no memory for the build",
        words: RUN,
        takes: 99,
        reports: 99,
        refused: 3,
        status: 1,
        reported: b"OutOfMemoryError: memory allocation failed\n",
    },
    Failing {
        shows: "the usage, which cannot be reported",
        words: &[],
        takes: 99,
        reports: 0,
        refused: u64::MAX,
        status: 2,
        reported: b"",
    },
    Failing {
        shows: "a cause that cannot be reported whole",
        words: &[Some("find"), Some("lost"), Some("haystack")],
        takes: 99,
        reports: 8,
        refused: u64::MAX,
        status: 1,
        reported: b"daacfind",
    },
    Failing {
        shows: "nothing to report",
        words: RUN,
        takes: 99,
        reports: 0,
        refused: u64::MAX,
        status: 0,
        reported: b"",
    },
];

// Whether the command ends as the row says.
fn fails_so(alloc: Global, row: &Failing) -> bool {
    let refusing = Refusing::new(alloc, row.refused);
    let mut files = Memory {
        alloc,
        reads: 0,
        automaton: b"",
    };
    let mut out = WriterSink::new(Halting::new(alloc, row.takes));
    let mut err = WriterSink::new(Halting::new(alloc, row.reports));
    let status = command(&refusing, row.words, &mut files, &mut out, &mut err);
    status == row.status && err.writer().taken.as_slice() == row.reported
}

#[test]
fn a_command_that_fails_reports_its_status(rt: HostRuntime) {
    for row in FAILING {
        expect(&rt, fails_so(rt.alloc(), row), row.shows);
    }
}

// Runs a search with memory of which a request may be refused, and an output that halts.
fn ran(
    heap: &Refusing<Global>,
    mode: Mode,
    patterns: &[u8],
    haystack: &[u8],
    out: &mut WriterSink<Halting>,
) -> Result<(), RunError> {
    run(heap, mode, patterns, haystack, out)
}

const FAR: &[u8] = b"1000 1002 0\n1002 1004 1\n";

// Whether a run wrote both matches, or was refused memory for its build and wrote nothing.
fn is_right(outcome: Result<(), RunError>, taken: &[u8]) -> bool {
    match outcome {
        Ok(()) => taken == FAR,
        Err(RunError::Build(DaachorseError::OutOfMemory(_))) => taken.is_empty(),
        Err(_) => false,
    }
}

// Whether a haystack that is long beside its patterns is searched, over rows or, where a request
// for these is refused, without.
fn is_found_far(alloc: Global) -> Result<bool, AllocError> {
    let mut haystack = Vec::new(alloc);
    for _ in 0..1000u32 {
        haystack.push(b'x')?;
    }
    haystack.extend_from_slice(b"abcd")?;
    for number in 0..10_000u64 {
        let refusing = Refusing::new(alloc, number);
        let mut out = WriterSink::new(Halting::new(alloc, 99));
        let outcome = ran(&refusing, Mode::Find, b"ab\ncd\n", &haystack, &mut out);
        if !is_right(outcome, &out.writer().taken) {
            return Ok(false);
        }
        if !refusing.has_refused() {
            return Ok(out.writer().taken.as_slice() == FAR);
        }
    }
    Ok(false)
}

#[test]
fn a_long_haystack_is_searched_with_rows_or_without(rt: HostRuntime) -> Result<(), Fail> {
    expect(&rt, is_found_far(rt.alloc())?, "far");
    Ok(())
}

// Whether a single argument is read whole.
fn is_read(alloc: Global, word: &[u8]) -> Result<bool, AllocError> {
    let arguments = Arguments::read(&Words { words: &[word] }, alloc)?;
    let texts = arguments.texts(alloc)?;
    match texts.first() {
        Some(Some(text)) => Ok(texts.len() == 1 && text.as_bytes() == word),
        _ => Ok(false),
    }
}

#[test]
fn an_argument_has_any_length(rt: HostRuntime) -> Result<(), Fail> {
    let word = [b'w'; 5000];
    for len in [0, 1, 255, 256, 257, 512, 5000] {
        expect(&rt, is_read(rt.alloc(), &word[..len])?, "the argument");
    }
    Ok(())
}

// Whether an error is printed as this text.
fn prints(alloc: Global, error: &RunError, text: &str) -> Result<bool, AllocError> {
    let printed = error.to_string(alloc)?;
    Ok(printed.as_str() == text)
}

#[test]
fn a_run_error_prints_its_cause(rt: HostRuntime) -> Result<(), Fail> {
    let refusal = RunError::Build(DaachorseError::automaton_scale(Limit::PatternValues));
    let rows = [
        (
            refusal,
            "AutomatonScaleError: patvals.len() must be <= 16777215",
        ),
        (RunError::Write, "daacfind: cannot write"),
    ];
    for (error, text) in &rows {
        expect(&rt, prints(rt.alloc(), error, text)?, text);
    }
    Ok(())
}

// What a whole run writes.
const WRITTEN: &[u8] = b"0 1 2\n0 2 1\n1 4 0\n";

// Whether a run writes just the `left` bytes that its writer takes, and fails unless that is all
// and the writer can flush.
fn halts_so(alloc: Global, left: usize, halt: Halt, can_flush: bool) -> bool {
    let mut out = WriterSink::new(Halting {
        left,
        halt,
        taken: Vec::new(alloc),
        can_flush,
        flushes: Vec::new(alloc),
    });
    let heap = Refusing::new(alloc, u64::MAX);
    let succeeds = match ran(&heap, Mode::Overlapping, PATTERNS, b"abcd", &mut out) {
        Ok(()) => true,
        Err(RunError::Write) => false,
        Err(RunError::Build(_)) => return false,
    };
    let is_whole = left >= WRITTEN.len();
    let flushes = out.writer().flushes.as_slice();
    let is_flushed = if is_whole {
        flushes == [WRITTEN.len()].as_slice()
    } else {
        flushes.is_empty()
    };
    let written = WRITTEN.get(..left).unwrap_or(WRITTEN);
    is_flushed && out.writer().taken.as_slice() == written && succeeds == (is_whole && can_flush)
}

#[test]
fn a_run_writes_what_the_writer_takes_and_flushes_at_the_end(rt: HostRuntime) {
    for left in 0..=WRITTEN.len() {
        for halt in [Halt::Fails, Halt::TakesNothing] {
            expect(&rt, halts_so(rt.alloc(), left, halt, true), "the run");
        }
    }
    let fails = halts_so(rt.alloc(), 99, Halt::Fails, false);
    expect(&rt, fails, "a flush that fails");
}
