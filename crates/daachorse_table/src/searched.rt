//! The searches that are begun over bytes, over characters, and over rows of states of each.
//!
//! Each search is begun in a function of its own, and goes at once into what compares its matches.

pub mod bytes;
pub mod bytes_rows;
pub mod chars;
pub mod chars_rows;

use crate::case::Case;
use crate::finding::{Found, is_found};
use crate::replaced::{Slow, Style};
use crate::report::{Differences, Form};
use crate::row::{Pattern, Search};
use daachorse::{Match, MatchKind, Result, in_blocks};
use daachorse_model::slow::Width;
use std::alloc::Global;
use std::io::{self, BufRead, BufReader, ErrorKind, Read, Write};

/// What finds matches: an automaton, or rows of states over one.
///
/// What a search finds is compared with the expected matches, and is never as expected if the
/// automaton is of another kind.
pub trait Searched {
    /// The width of its units.
    fn width() -> Width;

    /// Its match kind, and whether it ignores ASCII case.
    fn told_kind(&self) -> (MatchKind, bool);

    /// The number of its states.
    fn count_states(&self) -> usize;

    /// The patterns, as it lists them.
    fn listed(&self, alloc: Global) -> Result<Vec<Pattern>>;

    fn overlapping_in_slice(&self, case: &Case, expected: &[Found]) -> bool;

    fn overlapping_from_iter(&self, case: &Case, expected: &[Found]) -> bool;

    fn overlapping_from_reader<R: BufRead + Drop>(
        &self,
        reader: R,
        expected: &[Found],
        error: Option<ErrorKind>,
    ) -> bool;

    /// By a stepper, which reports these depths; nothing for `None` always.
    fn overlapping_by_steps(&self, case: &Case, expected: &[Found], depths: &[u32]) -> bool;

    /// By a stepper that is saved and resumed after this many units, if that can be.
    fn overlapping_resumed(&self, case: &Case, expected: &[Found], cut: usize) -> Option<bool>;

    fn no_suffix_in_slice(&self, case: &Case, expected: &[Found]) -> bool;

    fn no_suffix_from_iter(&self, case: &Case, expected: &[Found]) -> bool;

    fn no_suffix_from_reader<R: BufRead + Drop>(
        &self,
        reader: R,
        expected: &[Found],
        error: Option<ErrorKind>,
    ) -> bool;

    fn find_in_slice(&self, case: &Case, expected: &[Found]) -> bool;

    fn find_from_iter(&self, case: &Case, expected: &[Found]) -> bool;

    fn find_from_reader<R: BufRead + Drop>(
        &self,
        reader: R,
        expected: &[Found],
        error: Option<ErrorKind>,
    ) -> bool;

    /// By a stepper, which reports these depths; nothing for `None` always.
    fn find_by_steps(&self, case: &Case, expected: &[Found], depths: &[u32]) -> bool;

    /// By a stepper that is saved and resumed after this many units, if that can be.
    fn find_resumed(&self, case: &Case, expected: &[Found], cut: usize) -> Option<bool>;

    fn leftmost_in_slice(&self, case: &Case, expected: &[Found]) -> bool;

    /// What `find` returns.
    fn first_in(&self, case: &Case) -> Option<Match<u32>>;

    /// What `is_match` returns.
    fn is_match_in(&self, case: &Case) -> bool;

    /// What `replace_all` returns, and whether it is no error.
    fn replaced(&self, alloc: Global, case: &Case) -> Option<(Vec<u8>, bool)>;

    /// By `replace_all_into`.
    fn replaces_into<W: Write>(&self, case: &Case, out: &mut W) -> io::Result<()>;

    /// What `replace_all_with` appends, and whether it returns no error.
    fn replaced_with(&self, alloc: Global, style: Style, case: &Case) -> Option<(Vec<u8>, bool)>;

    /// By `replace_all_into_with`.
    fn replaces_into_with<W: Write>(
        &self,
        style: Style,
        case: &Case,
        out: &mut W,
    ) -> io::Result<()>;

    /// By `replace_all_from_reader`.
    fn replaces_from_reader<R: Read + Drop, W: Write>(
        &self,
        alloc: Global,
        style: Style,
        reader: R,
        out: &mut W,
    ) -> io::Result<()>;
}

/// The error at which units of this width end in a reader.
pub fn error_of(case: &Case, width: Width) -> Option<ErrorKind> {
    if case.is_invalid(width) {
        Some(ErrorKind::InvalidData)
    } else {
        None
    }
}

/// What is read by blocks of three bytes, and interrupted three times before each.
pub fn in_short_blocks(alloc: Global, bytes: &[u8]) -> io::Result<BufReader<Slow<'_>>> {
    BufReader::with_capacity(alloc, 3, Slow::new(bytes))
}

/// Compares each form of a search with the expected matches. The one that reads by long blocks is
/// left out unless `by_blocks`.
pub fn compare_search<S: Searched>(
    alloc: Global,
    searched: &S,
    search: Search,
    case: &Case,
    by_blocks: bool,
    differences: &mut Differences,
) {
    match search {
        Search::Overlapping => compare_overlapping(alloc, searched, case, by_blocks, differences),
        Search::NoSuffix => compare_no_suffix(alloc, searched, case, by_blocks, differences),
        Search::Find => compare_find(alloc, searched, case, by_blocks, differences),
        Search::Leftmost => compare_leftmost(searched, case, differences),
    }
}

fn compare_overlapping<S: Searched>(
    alloc: Global,
    searched: &S,
    case: &Case,
    by_blocks: bool,
    differences: &mut Differences,
) {
    let error = error_of(case, S::width());
    let expected = case.expected.as_slice();
    let bytes = case.bytes.as_slice();
    if by_blocks {
        let holds = match in_blocks(alloc, bytes) {
            Ok(reader) => searched.overlapping_from_reader(reader, expected, error),
            Err(_) => false,
        };
        differences.note(Form::Reader, holds);
    }
    let holds = searched.overlapping_from_reader(bytes, expected, error);
    differences.note(Form::Buffer, holds);
    let holds = match in_short_blocks(alloc, bytes) {
        Ok(reader) => searched.overlapping_from_reader(reader, expected, error),
        Err(_) => false,
    };
    differences.note(Form::SlowReader, holds);
    if error.is_none() {
        compare_overlapping_given(searched, case, differences);
    }
}

/// Compares the forms that get the whole text, or its units in turn.
fn compare_overlapping_given<S: Searched>(
    searched: &S,
    case: &Case,
    differences: &mut Differences,
) {
    let expected = case.expected.as_slice();
    differences.note(Form::Slice, searched.overlapping_in_slice(case, expected));
    differences.note(
        Form::Iterator,
        searched.overlapping_from_iter(case, expected),
    );
    let holds = searched.overlapping_by_steps(case, expected, &[]);
    differences.note(Form::Stepper, holds);
    for cut in case.cuts() {
        let holds = searched.overlapping_resumed(case, expected, cut);
        differences.note_some(Form::Resumed, holds);
    }
}

fn compare_no_suffix<S: Searched>(
    alloc: Global,
    searched: &S,
    case: &Case,
    by_blocks: bool,
    differences: &mut Differences,
) {
    let error = error_of(case, S::width());
    let expected = case.expected.as_slice();
    let bytes = case.bytes.as_slice();
    if by_blocks {
        let holds = match in_blocks(alloc, bytes) {
            Ok(reader) => searched.no_suffix_from_reader(reader, expected, error),
            Err(_) => false,
        };
        differences.note(Form::Reader, holds);
    }
    let holds = searched.no_suffix_from_reader(bytes, expected, error);
    differences.note(Form::Buffer, holds);
    let holds = match in_short_blocks(alloc, bytes) {
        Ok(reader) => searched.no_suffix_from_reader(reader, expected, error),
        Err(_) => false,
    };
    differences.note(Form::SlowReader, holds);
    if error.is_none() {
        compare_no_suffix_given(searched, case, differences);
    }
}

/// Compares the forms that get the whole text, or its units in turn.
fn compare_no_suffix_given<S: Searched>(searched: &S, case: &Case, differences: &mut Differences) {
    let expected = case.expected.as_slice();
    differences.note(Form::Slice, searched.no_suffix_in_slice(case, expected));
    differences.note(Form::Iterator, searched.no_suffix_from_iter(case, expected));
}

fn compare_find<S: Searched>(
    alloc: Global,
    searched: &S,
    case: &Case,
    by_blocks: bool,
    differences: &mut Differences,
) {
    let error = error_of(case, S::width());
    let expected = case.expected.as_slice();
    let bytes = case.bytes.as_slice();
    if by_blocks {
        let holds = match in_blocks(alloc, bytes) {
            Ok(reader) => searched.find_from_reader(reader, expected, error),
            Err(_) => false,
        };
        differences.note(Form::Reader, holds);
    }
    let holds = searched.find_from_reader(bytes, expected, error);
    differences.note(Form::Buffer, holds);
    let holds = match in_short_blocks(alloc, bytes) {
        Ok(reader) => searched.find_from_reader(reader, expected, error),
        Err(_) => false,
    };
    differences.note(Form::SlowReader, holds);
    if error.is_none() {
        compare_find_given(searched, case, differences);
    }
}

/// Compares the forms that get the whole text, or its units in turn.
fn compare_find_given<S: Searched>(searched: &S, case: &Case, differences: &mut Differences) {
    let expected = case.expected.as_slice();
    differences.note(Form::Slice, searched.find_in_slice(case, expected));
    differences.note(Form::Iterator, searched.find_from_iter(case, expected));
    differences.note(Form::Stepper, searched.find_by_steps(case, expected, &[]));
    for cut in case.cuts() {
        let holds = searched.find_resumed(case, expected, cut);
        differences.note_some(Form::Resumed, holds);
    }
    compare_first(searched, case, differences);
}

fn compare_leftmost<S: Searched>(searched: &S, case: &Case, differences: &mut Differences) {
    if error_of(case, S::width()).is_some() {
        return;
    }
    let holds = searched.leftmost_in_slice(case, &case.expected);
    differences.note(Form::Slice, holds);
    compare_first(searched, case, differences);
}

/// Compares `find` and `is_match` with the first expected match.
fn compare_first<S: Searched>(searched: &S, case: &Case, differences: &mut Differences) {
    let holds = is_found(searched.first_in(case), case.expected.first().copied());
    differences.note(Form::Find, holds);
    let holds = searched.is_match_in(case) != case.expected.is_empty();
    differences.note(Form::IsMatch, holds);
}

/// Begins each form of a search, and drops it at the first match that is not expected.
pub fn leave_search<S: Searched>(searched: &S, search: Search, case: &Case, expected: &[Found]) {
    match search {
        Search::Overlapping => {
            searched.overlapping_in_slice(case, expected);
            searched.overlapping_from_iter(case, expected);
            searched.overlapping_by_steps(case, expected, &[]);
        }
        Search::NoSuffix => {
            searched.no_suffix_in_slice(case, expected);
            searched.no_suffix_from_iter(case, expected);
        }
        Search::Find => {
            searched.find_in_slice(case, expected);
            searched.find_from_iter(case, expected);
            searched.find_by_steps(case, expected, &[]);
        }
        Search::Leftmost => {
            searched.leftmost_in_slice(case, expected);
        }
    }
}
