//! `daacgrep`: its rows, and what comes of an output that fails.

ghost use Rattle.std.specs.Prelude.{None};

use crate::expect;
use crate::halting::Halting;
use daacfind_command::sink::{SinkError, WriterSink};
use daacgrep_command::command::command;
use daacgrep_command::file_system::{FileSystem, ReadError};
use daachorse::counter::Counter;
use std::alloc::Global;

/// A few files in memory, one of them the automaton, and the file that was written last.
#[derive(Drop)]
struct Memory<'a> {
    alloc: Global,
    automaton: &'a [u8],
    // What is left of the file that is open, and whether an error follows.
    opened: Vec<u8>,
    is_torn: bool,
    // What the file has that was written last.
    saved: Vec<u8>,
    // How often a file could not be read.
    failures: Counter,
}

impl Memory<'_> {
    fn bytes_of(&self, name: &str) -> Option<Vec<u8>> {
        match name {
            "rules" => Vec::from_slice(self.alloc, b"ab\tletters\nerror\tbad\tword\nfine\n").ok(),
            "words" => Vec::from_slice(self.alloc, b"ab\nerror\n").ok(),
            "log" | "-" => Vec::from_slice(self.alloc, b"an error\nfine\nabab\n").ok(),
            "open" => Vec::from_slice(self.alloc, b"shut\nopen").ok(),
            "returns" => Vec::from_slice(self.alloc, b"fine\r\nabab\r\n").ok(),
            "records" => Vec::from_slice(self.alloc, b"a b\nab\0fine\0ab").ok(),
            "empty" => Some(Vec::new(self.alloc)),
            "automaton" => Vec::from_slice(self.alloc, self.automaton).ok(),
            "torn" => Vec::from_slice(self.alloc, b"an error\nfine\nab").ok(),
            _ => None,
        }
    }
}

impl FileSystem for Memory<'_> {
    ghost sees = { λ s. record { given = None; saved = None; failures = s.failures } };

    ghost left = { λ _. None };

    fn read(&mut self, name: &str) -> Option<Vec<u8>> {
        let bytes = self.bytes_of(name);
        if bytes.is_none() {
            self.failures.increment();
        }
        bytes
    }

    fn open(&mut self, name: &str) -> bool {
        let Some(bytes) = self.bytes_of(name) else {
            self.failures.increment();
            return false;
        };
        self.opened = bytes;
        self.is_torn = name == "torn";
        true
    }

    // Three bytes at a time, so that lines go over pieces.
    fn read_next(&mut self, buffer: &mut [u8]) -> Result<usize, ReadError> {
        let count = self.opened.len().min(buffer.len()).min(3);
        if count == 0 && self.is_torn {
            self.failures.increment();
            return Err(ReadError);
        }
        buffer[..count].copy_from_slice(&self.opened[..count]);
        let len = self.opened.len();
        self.opened.copy_within(count..len, 0);
        self.opened.truncate(len - count);
        Ok(count)
    }

    fn give_up(&mut self) {
        self.failures.increment();
    }

    fn write(&mut self, name: &str, bytes: &[u8]) -> Result<(), SinkError> {
        if name == "locked" {
            return Err(SinkError);
        }
        self.saved = Vec::from_slice(self.alloc, bytes).map_err(|_| SinkError)?;
        Ok(())
    }
}

// The words of a command line, and how the command ends: its status, its output, and its messages
// on standard error.
#[derive(Clone, Copy)]
struct Row {
    shows: &'static str,
    words: &'static [&'static str],
    status: u8,
    written: &'static str,
    reported: &'static str,
}

// What `--help` prints, in a function of its own, since a proof writes out each constant that it meets.
fn usage() -> &'static str {
    "\
usage: daacgrep [OPTION..] -e PATTERN | -f PATTERNS | --load FILE [FILE..]
Prints the lines of files, or of standard input, in which a pattern occurs.
  -e PATTERN  a pattern; again for more
  -f FILE     the lines of a file as patterns; - for standard input
  -i          ignore the case of ASCII letters
  -v          the lines without a match
  -o          each match in place of its line
  --longest   of matches at one start the longest, as is usual
  --first     of matches at one start that of the first pattern
  --overlapping
              all matches, also those that overlap
  -n, -b      the number of the line, the place of the line or match
  -H, -h      names of files, or none
  -c, -l      the number of lines, the names of files
  -q          print nothing
  --values    a line of patterns has a value behind a tab, which is printed
              behind the number and the place of its lines or matches
  --save FILE write the automaton of the patterns to a file, and search none
  --load FILE search by an automaton that was saved with the same -i, --first
              and --overlapping; --values wants -f beside it
  --null-data zero bytes end lines, and not line feeds
  --help, --version
Status: 0 if a line is selected, 1 if none, 2 after trouble.
"
}

const ROWS: &[Row] = &[
    Row {
        shows: "each line with a match",
        words: &["-f", "words", "log"],
        status: 0,
        written: "an error\nabab\n",
        reported: "",
    },
    Row {
        shows: "a pattern of -e",
        words: &["-e", "err", "log"],
        status: 0,
        written: "an error\n",
        reported: "",
    },
    Row {
        shows: "numbers",
        words: &["-n", "-f", "words", "log"],
        status: 0,
        written: "1:an error\n3:abab\n",
        reported: "",
    },
    Row {
        shows: "places",
        words: &["-b", "-f", "words", "log"],
        status: 0,
        written: "0:an error\n14:abab\n",
        reported: "",
    },
    Row {
        shows: "matches with their numbers and places",
        words: &["-nob", "-f", "words", "log"],
        status: 0,
        written: "1:3:error\n3:14:ab\n3:16:ab\n",
        reported: "",
    },
    Row {
        shows: "the longest match",
        words: &["-o", "-e", "ab", "-e", "aba", "log"],
        status: 0,
        written: "aba\n",
        reported: "",
    },
    Row {
        shows: "the longest match, asked for",
        words: &["--longest", "-o", "-e", "ab", "-e", "aba", "log"],
        status: 0,
        written: "aba\n",
        reported: "",
    },
    Row {
        shows: "the match of the first pattern",
        words: &["--first", "-o", "-e", "ab", "-e", "aba", "log"],
        status: 0,
        written: "ab\nab\n",
        reported: "",
    },
    Row {
        shows: "all matches",
        words: &[
            "--overlapping",
            "-ob",
            "-e",
            "ab",
            "-e",
            "aba",
            "-e",
            "b",
            "log",
        ],
        status: 0,
        written: "14:ab\n15:b\n14:aba\n16:ab\n17:b\n",
        reported: "",
    },
    Row {
        shows: "all matches, asked for beside others",
        words: &[
            "--overlapping",
            "--first",
            "--longest",
            "-o",
            "-e",
            "ab",
            "-e",
            "aba",
            "log",
        ],
        status: 0,
        written: "ab\naba\nab\n",
        reported: "",
    },
    Row {
        shows: "lines by all matches",
        words: &["--overlapping", "-n", "-f", "words", "log"],
        status: 0,
        written: "1:an error\n3:abab\n",
        reported: "",
    },
    Row {
        shows: "the values of all matches",
        words: &[
            "--overlapping",
            "--values",
            "-oi",
            "-e",
            "AB\tone",
            "-e",
            "aba\ttwo",
            "-e",
            "ab\tthree",
            "log",
        ],
        status: 0,
        written: "one:ab\nthree:ab\ntwo:aba\none:ab\nthree:ab\n",
        reported: "",
    },
    Row {
        shows: "carriage returns in a file of patterns",
        words: &["-n", "-f", "returns", "-e", "err", "log", "returns"],
        status: 0,
        written: "log:1:an error\nreturns:1:fine\r\nreturns:2:abab\r\n",
        reported: "daacgrep: a line of patterns ends with a carriage return, which is part of it\n",
    },
    Row {
        shows: "lines that end with zero bytes",
        words: &["--null-data", "-nb", "-f", "words", "records"],
        status: 0,
        written: "1:0:a b\nab\03:12:ab\0",
        reported: "",
    },
    Row {
        shows: "matches in lines that end with zero bytes",
        words: &["--null-data", "-ob", "-f", "words", "records"],
        status: 0,
        written: "4:ab\012:ab\0",
        reported: "",
    },
    Row {
        shows: "a count of lines that end with zero bytes",
        words: &["--null-data", "-cv", "-f", "words", "records"],
        status: 0,
        written: "1\n",
        reported: "",
    },
    Row {
        shows: "values after a tab",
        words: &["--values", "-f", "rules", "log"],
        status: 0,
        written: "bad\tword:an error\n:fine\nletters:abab\n",
        reported: "",
    },
    Row {
        shows: "values of matches after their names, numbers and places",
        words: &["-Hnob", "--values", "-f", "rules", "log"],
        status: 0,
        written: "log:1:3:bad\tword:error\nlog:2:9::fine\nlog:3:14:letters:ab\nlog:3:16:letters:ab\n",
        reported: "",
    },
    Row {
        shows: "the value of the first match in a line",
        words: &["--values", "-e", "error\tlast", "-e", "an\tfirst", "log"],
        status: 0,
        written: "first:an error\n",
        reported: "",
    },
    Row {
        shows: "no value of a line without a match",
        words: &["-v", "--values", "-e", "ab\tletters", "log"],
        status: 0,
        written: ":an error\n:fine\n",
        reported: "",
    },
    Row {
        shows: "a tab in a pattern without a value",
        words: &["-c", "-e", "ab\tletters", "log"],
        status: 1,
        written: "0\n",
        reported: "",
    },
    Row {
        shows: "no case",
        words: &["-oi", "-e", "ERROR", "log"],
        status: 0,
        written: "error\n",
        reported: "",
    },
    Row {
        shows: "the lines without a match",
        words: &["-vn", "-f", "words", "log"],
        status: 0,
        written: "2:fine\n",
        reported: "",
    },
    Row {
        shows: "no match of a line without one",
        words: &["-vo", "-f", "words", "log"],
        status: 0,
        written: "",
        reported: "",
    },
    Row {
        shows: "a count",
        words: &["-c", "-f", "words", "log"],
        status: 0,
        written: "2\n",
        reported: "",
    },
    Row {
        shows: "counts with names",
        words: &["-c", "-f", "words", "log", "empty"],
        status: 0,
        written: "log:2\nempty:0\n",
        reported: "",
    },
    Row {
        shows: "names of files",
        words: &["-l", "-f", "words", "empty", "log"],
        status: 0,
        written: "log\n",
        reported: "",
    },
    Row {
        shows: "nothing printed",
        words: &["-q", "-f", "words", "log"],
        status: 0,
        written: "",
        reported: "",
    },
    Row {
        shows: "a file that cannot be read to its end",
        words: &["-n", "-f", "words", "torn", "log"],
        status: 2,
        written: "torn:1:an error\ntorn:3:ab\nlog:1:an error\nlog:3:abab\n",
        reported: "daacgrep: cannot read torn\n",
    },
    Row {
        shows: "several files",
        words: &["-f", "words", "log", "log"],
        status: 0,
        written: "log:an error\nlog:abab\nlog:an error\nlog:abab\n",
        reported: "",
    },
    Row {
        shows: "several files without names",
        words: &["-hf", "words", "log", "log"],
        status: 0,
        written: "an error\nabab\nan error\nabab\n",
        reported: "",
    },
    Row {
        shows: "a name for one file",
        words: &["-Hf", "words", "log"],
        status: 0,
        written: "log:an error\nlog:abab\n",
        reported: "",
    },
    Row {
        shows: "standard input",
        words: &["-Hne", "fine"],
        status: 0,
        written: "(standard input):2:fine\n",
        reported: "",
    },
    Row {
        shows: "no line",
        words: &["-e", "absent", "log"],
        status: 1,
        written: "",
        reported: "",
    },
    Row {
        shows: "no pattern in a file of patterns",
        words: &["-f", "empty", "log"],
        status: 1,
        written: "",
        reported: "",
    },
    Row {
        shows: "an empty pattern",
        words: &["-c", "-e", "", "log"],
        status: 0,
        written: "3\n",
        reported: "",
    },
    Row {
        shows: "an empty pattern has no match to print",
        words: &["-o", "-e", "", "log"],
        status: 0,
        written: "",
        reported: "",
    },
    Row {
        shows: "a line that does not end",
        words: &["-e", "open", "open"],
        status: 0,
        written: "open\n",
        reported: "",
    },
    Row {
        shows: "a file that cannot be read",
        words: &["-f", "words", "lost", "log"],
        status: 2,
        written: "log:an error\nlog:abab\n",
        reported: "daacgrep: cannot read lost\n",
    },
    Row {
        shows: "a quiet search with a match and trouble",
        words: &["-qf", "words", "lost", "log"],
        status: 0,
        written: "",
        reported: "daacgrep: cannot read lost\n",
    },
    Row {
        shows: "a quiet search with trouble alone",
        words: &["-qe", "absent", "lost", "log"],
        status: 2,
        written: "",
        reported: "daacgrep: cannot read lost\n",
    },
    Row {
        shows: "patterns that cannot be read",
        words: &["-f", "lost", "log"],
        status: 2,
        written: "",
        reported: "daacgrep: cannot read lost\n",
    },
    Row {
        shows: "no pattern",
        words: &["log"],
        status: 2,
        written: "",
        reported: "daacgrep: no pattern: -e PATTERN, -f FILE or --load FILE is wanted; see daacgrep --help\n",
    },
    Row {
        shows: "an unknown letter",
        words: &["-nx", "-e", "a", "log"],
        status: 2,
        written: "",
        reported: "daacgrep: unknown option -nx\n",
    },
    Row {
        shows: "an unknown word",
        words: &["--lines", "log"],
        status: 2,
        written: "",
        reported: "daacgrep: unknown option --lines\n",
    },
    Row {
        shows: "a missing argument",
        words: &["log", "-ne"],
        status: 2,
        written: "",
        reported: "daacgrep: -e has no argument\n",
    },
    Row {
        shows: "names after two dashes",
        words: &["-c", "-e", "a", "--", "-q"],
        status: 2,
        written: "",
        reported: "daacgrep: cannot read -q\n",
    },
    Row {
        shows: "the version",
        words: &["--version"],
        status: 0,
        written: "daacgrep 1.0.0\n",
        reported: "",
    },
];

// What a command leaves: its status, its output, its messages on standard error, and what it saved.
#[derive(Drop)]
struct Left {
    status: u8,
    out: WriterSink<Halting>,
    err: WriterSink<Vec<u8>>,
    saved: Vec<u8>,
}

impl Left {
    // Whether it is so.
    fn is(&self, status: u8, written: &[u8], reported: &[u8]) -> bool {
        self.status == status
            && self.out.writer().taken.as_slice() == written
            && self.err.writer().as_slice() == reported
    }
}

// Runs the command on these words, with this automaton as a file and an output that takes so many
// bytes.
fn ran(alloc: Global, automaton: &[u8], words: &[&str], room: usize) -> Left {
    let mut files = Memory {
        alloc,
        automaton,
        opened: Vec::new(alloc),
        is_torn: false,
        saved: Vec::new(alloc),
        failures: Counter::new(),
    };
    let mut out = WriterSink::new(Halting::new(alloc, room));
    let mut err = WriterSink::new(Vec::new(alloc));
    let status = command(alloc, words, &mut files, &mut out, &mut err);
    Left {
        status,
        out,
        err,
        saved: files.saved,
    }
}

// Whether the command ends as the row says, with this automaton as a file.
fn ends_so(alloc: Global, automaton: &[u8], row: &Row) -> bool {
    ran(alloc, automaton, row.words, usize::MAX).is(
        row.status,
        row.written.as_bytes(),
        row.reported.as_bytes(),
    )
}

#[test]
fn each_option_prints_its_text(rt: HostRuntime) {
    for row in ROWS {
        expect(&rt, ends_so(rt.alloc(), b"", row), row.shows);
    }
}

#[test]
fn the_usage_is_printed(rt: HostRuntime) {
    let row = Row {
        shows: "the usage",
        words: &["--help"],
        status: 0,
        written: usage(),
        reported: "",
    };
    expect(&rt, ends_so(rt.alloc(), b"", &row), row.shows);
}

// The words by which an automaton is saved, and a row by which it is loaded.
#[derive(Clone, Copy)]
struct LoadRow {
    saving: &'static [&'static str],
    row: Row,
}

const LOAD_ROWS: &[LoadRow] = &[
    LoadRow {
        saving: &["--save", "automaton", "-f", "words"],
        row: Row {
            shows: "lines by an automaton that was saved",
            words: &["-n", "--load", "automaton", "log"],
            status: 0,
            written: "1:an error\n3:abab\n",
            reported: "",
        },
    },
    LoadRow {
        saving: &[
            "-i",
            "--overlapping",
            "-e",
            "AB",
            "-e",
            "ABA",
            "--save",
            "lost",
            "--save",
            "automaton",
        ],
        row: Row {
            shows: "matches by an automaton that was saved with options",
            words: &[
                "-oi",
                "--overlapping",
                "--load",
                "lost",
                "--load",
                "automaton",
                "log",
            ],
            status: 0,
            written: "ab\naba\nab\n",
            reported: "",
        },
    },
    LoadRow {
        saving: &["--first", "-e", "ab", "-e", "aba", "--save", "automaton"],
        row: Row {
            shows: "an automaton that was saved with other options",
            words: &["-o", "--load", "automaton", "log"],
            status: 2,
            written: "",
            reported: "daacgrep: automaton was saved with other options: -i, --first and --overlapping must be as there\n",
        },
    },
    LoadRow {
        saving: &["--values", "-f", "rules", "--save", "automaton"],
        row: Row {
            shows: "values beside an automaton that was saved",
            words: &["--values", "-f", "rules", "--load", "automaton", "log"],
            status: 0,
            written: "bad\tword:an error\n:fine\nletters:abab\n",
            reported: "",
        },
    },
    LoadRow {
        saving: &["--values", "-f", "rules", "--save", "automaton"],
        row: Row {
            shows: "values without their lines",
            words: &[
                "--values",
                "-e",
                "ab\tletters",
                "--load",
                "automaton",
                "log",
            ],
            status: 2,
            written: "",
            reported: "daacgrep: --values wants -f beside --load\n",
        },
    },
    LoadRow {
        saving: &["-f", "words", "--save", "automaton"],
        row: Row {
            shows: "patterns beside an automaton that was saved",
            words: &["-e", "fine", "--load", "automaton", "log"],
            status: 2,
            written: "",
            reported: "daacgrep: -e and -f do not go with --load, except for --values\n",
        },
    },
    LoadRow {
        saving: &["-f", "words", "--save", "automaton"],
        row: Row {
            shows: "a file without an automaton",
            words: &["--load", "words", "log"],
            status: 2,
            written: "",
            reported: "daacgrep: cannot load words: InvalidAutomatonError: invalid serialized automaton\n",
        },
    },
    LoadRow {
        saving: &["-f", "words", "--save", "automaton"],
        row: Row {
            shows: "an automaton that cannot be read",
            words: &["--load", "lost", "log"],
            status: 2,
            written: "",
            reported: "daacgrep: cannot read lost\n",
        },
    },
    LoadRow {
        saving: &["-f", "words", "--save", "automaton"],
        row: Row {
            shows: "an automaton that cannot be written",
            words: &["--load", "automaton", "--save", "locked"],
            status: 2,
            written: "",
            reported: "daacgrep: cannot write locked\n",
        },
    },
    LoadRow {
        saving: &["-f", "words", "--save", "automaton"],
        row: Row {
            shows: "a file that is searched beside one that is written",
            words: &["-f", "words", "--save", "automaton", "log"],
            status: 2,
            written: "",
            reported: "daacgrep: --save searches no file\n",
        },
    },
    LoadRow {
        saving: &["-f", "words", "--save", "automaton"],
        row: Row {
            shows: "no name after --load",
            words: &["log", "--load"],
            status: 2,
            written: "",
            reported: "daacgrep: --load has no argument\n",
        },
    },
];

// Whether an automaton is saved without a word, and the command then ends as the row says.
fn loads_so(alloc: Global, row: &LoadRow) -> bool {
    let saving = ran(alloc, b"", row.saving, usize::MAX);
    saving.is(0, b"", b"") && ends_so(alloc, &saving.saved, &row.row)
}

#[test]
fn a_saved_automaton_is_loaded(rt: HostRuntime) {
    for row in LOAD_ROWS {
        expect(&rt, loads_so(rt.alloc(), row), row.row.shows);
    }
}

const WORDS: &[&str] = &["-nob", "-f", "words", "log", "open"];

const WRITTEN: &[u8] = b"log:1:3:error\nlog:3:14:ab\nlog:3:16:ab\n";

// Whether a command whose output takes so many bytes writes just these, and fails if more is left.
fn halts_so(alloc: Global, room: usize) -> bool {
    let left = ran(alloc, b"", WORDS, room);
    if room < WRITTEN.len() {
        left.is(2, &WRITTEN[..room], b"daacgrep: cannot write\n")
    } else {
        left.is(0, WRITTEN, b"")
    }
}

#[test]
fn an_output_that_fails_has_a_beginning_of_the_text(rt: HostRuntime) {
    for left in 0..=WRITTEN.len() {
        expect(&rt, halts_so(rt.alloc(), left), "the output");
    }
}
