//! What a row asks of each automaton that it makes.

use crate::automata::{Automaton, made, plainly_of};
use crate::case::{Case, cases_of, certain_case_of, matches_of, plain_case_of};
use crate::finding::{Found, is_found};
use crate::form::{compare_beginnings, compare_changes, compare_read, form_of};
use crate::plain::Plainly;
use crate::replaced::{Style, Written, compare_replaced};
use crate::report::{Differences, Form, Stop};
use crate::row::{Call, Count, Finish, Pattern, Row, Search, Texts, Way, kind_of, patterns_of};
use crate::searched::{Searched, compare_search, error_of, in_short_blocks, leave_search};
use crate::text::{expand, number_of, small_number_of};
use daachorse::{MatchKind, in_blocks};
use daachorse_model::slow::Width;
use std::alloc::Global;

/// What is asked of each automaton of a row.
#[derive(Drop)]
enum Task {
    Search(Search, Vec<Case>),
    Depths(Search, Case, Vec<u32>),
    Patterns(Vec<Pattern>),
    Values(Vec<u8>, Vec<u32>),
    Prefixes(Vec<u8>, Vec<Found>),
    Number(Count, usize),
    Kind(MatchKind, bool),
    Summary(Vec<u8>),
    Replaced(Case, Written),
    Form(Vec<u8>),
    Word(usize, u32),
}

/// Runs a row over automata of this type.
pub fn run<S: Automaton>(
    alloc: Global,
    row: &Row<'_>,
    differences: &mut Differences,
) -> Result<(), Stop> {
    match row.call {
        Call::Read => compare_read::<S>(alloc, row, differences),
        Call::Beginnings => compare_beginnings::<S>(alloc, row, differences),
        Call::Changes => compare_changes::<S>(alloc, row, differences),
        _ => run_task::<S>(alloc, row, differences),
    }
}

fn run_task<S: Automaton>(
    alloc: Global,
    row: &Row<'_>,
    differences: &mut Differences,
) -> Result<(), Stop> {
    let plainly = plainly_of::<S>(alloc, row)?;
    let task = task_of(alloc, row, &plainly, differences)?;
    for way in &row.ways(alloc)? {
        run_way::<S>(alloc, row, *way, &task, differences)?;
    }
    Ok(())
}

/// Runs what a row asks over the automaton that is built in this way, and what becomes of it.
fn run_way<S: Automaton>(
    alloc: Global,
    row: &Row<'_>,
    way: Way,
    task: &Task,
    differences: &mut Differences,
) -> Result<(), Stop> {
    let automaton = made::<S>(alloc, row, way)?;
    for finish in way.finishes {
        run_finish(alloc, &automaton, row, way, *finish, task, differences)?;
    }
    Ok(())
}

/// Runs what a row asks over what becomes of an automaton.
fn run_finish<S: Automaton>(
    alloc: Global,
    automaton: &S,
    row: &Row<'_>,
    way: Way,
    finish: Finish,
    task: &Task,
    differences: &mut Differences,
) -> Result<(), Stop> {
    let asked = Asked {
        row,
        way,
        is_thorough: row.making.is_one || is_thorough(row, way, finish),
    };
    match finish {
        Finish::Built => run_automaton(alloc, automaton, &asked, task, differences),
        Finish::Read => run_read(alloc, automaton, true, &asked, task, differences),
        Finish::Unchecked => run_read(alloc, automaton, false, &asked, task, differences),
        Finish::Rows => run_over_rows(alloc, automaton, &asked, task, differences),
    }
}

/// Runs what a row asks over an automaton that is written and read, with checks or without.
fn run_read<S: Automaton>(
    alloc: Global,
    automaton: &S,
    is_checked: bool,
    asked: &Asked<'_, '_>,
    task: &Task,
    differences: &mut Differences,
) -> Result<(), Stop> {
    match automaton.read_back(alloc, is_checked) {
        Ok((read, is_left)) => {
            differences.note(Form::Left, is_left);
            run_automaton(alloc, &read, asked, task, differences)
        }
        Err(_) => Err(Stop::Refused),
    }
}

/// Whether what takes long is run too: in the default way, and over rows.
fn is_thorough(row: &Row<'_>, way: Way, finish: Finish) -> bool {
    let is_default = way.is_filtered && !way.has_corpus && way.folds == row.making.way.folds;
    is_default && matches!(finish, Finish::Built | Finish::Rows)
}

/// What a row asks in a way.
#[derive(Clone, Copy)]
struct Asked<'a, 'r> {
    row: &'a Row<'r>,
    way: Way,
    is_thorough: bool,
}

impl<'a, 'r> Asked<'a, 'r> {
    /// Compares the kind with that of the row.
    fn compare_kind(&self, kind: (MatchKind, bool), differences: &mut Differences) {
        if !self.row.is_read_as_given() {
            let holds = kind == (self.row.making.kind, self.way.folds);
            differences.note(Form::Kind, holds);
        }
    }

    /// The kind that is told where a row says this one. One of the ways of a row that heeds case
    /// ignores it.
    fn kind(&self, kind: MatchKind, folds: bool) -> (MatchKind, bool) {
        let making = &self.row.making;
        let is_other_way = !making.is_one && self.way.folds && !making.way.folds;
        (kind, folds || is_other_way)
    }
}

/// Runs what a row asks over an automaton.
fn run_automaton<S: Automaton>(
    alloc: Global,
    automaton: &S,
    asked: &Asked<'_, '_>,
    task: &Task,
    differences: &mut Differences,
) -> Result<(), Stop> {
    asked.compare_kind(automaton.told_kind(), differences);
    compare_told(alloc, automaton, asked, task, differences)?;
    compare(alloc, automaton, asked.is_thorough, task, differences)
}

/// Runs what a row asks over rows of an automaton's states.
fn run_over_rows<S: Automaton>(
    alloc: Global,
    automaton: &S,
    asked: &Asked<'_, '_>,
    task: &Task,
    differences: &mut Differences,
) -> Result<(), Stop> {
    let cloned = automaton.cloned().map_err(|_| Stop::Memory)?;
    let Some(rows) = cloned.with_rows(alloc) else {
        differences.note(Form::Rows, false);
        return Ok(());
    };
    asked.compare_kind(rows.told_kind(), differences);
    compare_told(alloc, &rows, asked, task, differences)?;
    differences.note(Form::Same, S::without_rows(rows) == *automaton);
    Ok(())
}

/// Compares an automaton with its clone, after searches that are dropped after some of their matches.
fn compare_left<S: Automaton>(
    automaton: &S,
    search: Search,
    case: &Case,
    differences: &mut Differences,
) -> Result<(), Stop> {
    let before = automaton.cloned().map_err(|_| Stop::Memory)?;
    for count in 0..case.expected.len().min(20) {
        leave_search(automaton, search, case, &case.expected[..count]);
    }
    differences.note(Form::Dropped, *automaton == before);
    Ok(())
}

/// Reads what a row asks.
fn task_of(
    alloc: Global,
    row: &Row<'_>,
    plainly: &Plainly,
    differences: &mut Differences,
) -> Result<Task, Stop> {
    match row.call {
        Call::Search(search, texts) => search_task_of(
            alloc,
            row,
            search,
            texts,
            plainly,
            differences,
        ),
        Call::Certain => certain_task_of(alloc, row, plainly, differences),
        Call::Depths(search) => depths_task_of(alloc, row, search, plainly),
        Call::Replaced => replaced_task_of(alloc, row, Style::Replaced, plainly.width),
        Call::Bracketed => replaced_task_of(alloc, row, Style::Bracketed, plainly.width),
        _ => told_task_of(alloc, row),
    }
}

/// Whether an automaton of this kind has a search.
fn has_search(kind: MatchKind, search: Search) -> bool {
    kind.is_leftmost() == (search == Search::Leftmost)
}

fn search_task_of(
    alloc: Global,
    row: &Row<'_>,
    search: Search,
    texts: Texts,
    plainly: &Plainly,
    differences: &mut Differences,
) -> Result<Task, Stop> {
    if !has_search(row.making.kind, search) {
        return Err(Stop::Unreadable);
    }
    let cases = cases_of(alloc, row, search, texts, plainly, differences)?;
    Ok(Task::Search(search, cases))
}

fn certain_task_of(
    alloc: Global,
    row: &Row<'_>,
    plainly: &Plainly,
    differences: &mut Differences,
) -> Result<Task, Stop> {
    if row.making.kind.is_standard() {
        return Err(Stop::Unreadable);
    }
    let case = certain_case_of(alloc, row, plainly, differences)?;
    let mut cases = Vec::new(alloc);
    cases.push(case)?;
    Ok(Task::Search(Search::Leftmost, cases))
}

fn depths_task_of(
    alloc: Global,
    row: &Row<'_>,
    search: Search,
    plainly: &Plainly,
) -> Result<Task, Stop> {
    if row.making.kind.is_leftmost() {
        return Err(Stop::Unreadable);
    }
    let bytes = expand(alloc, row.text, 0)?;
    let case = plain_case_of(alloc, bytes, search, plainly)?;
    let depths = values_of(alloc, row.expected)?;
    Ok(Task::Depths(search, case, depths))
}

/// The values that words say.
fn values_of(alloc: Global, raw: &str) -> Result<Vec<u32>, Stop> {
    let mut values = Vec::new(alloc);
    for word in raw.split_ascii_whitespace() {
        values.push(small_number_of(word)?)?;
    }
    Ok(values)
}

fn replaced_task_of(
    alloc: Global,
    row: &Row<'_>,
    style: Style,
    width: Width,
) -> Result<Task, Stop> {
    let case = Case::new(alloc, expand(alloc, row.text, 0)?)?;
    let (raw, fails) = ending_of(row.expected, style, case.is_invalid(width))?;
    let written = Written {
        style,
        whole: expand(alloc, raw, 0)?,
        fails,
    };
    Ok(Task::Replaced(case, written))
}

/// The expected text without what says that an error ends it, and whether one does.
fn ending_of(raw: &str, style: Style, is_invalid: bool) -> Result<(&str, bool), Stop> {
    if is_invalid {
        return match raw.strip_suffix("invalid") {
            Some(raw) => Ok((raw.trim_end_matches(' '), true)),
            None => Err(Stop::Unreadable),
        };
    }
    match raw.strip_suffix('!') {
        Some(raw) if style == Style::Bracketed => Ok((raw, true)),
        _ => Ok((raw, false)),
    }
}

fn told_task_of(alloc: Global, row: &Row<'_>) -> Result<Task, Stop> {
    Ok(match row.call {
        Call::Patterns => Task::Patterns(patterns_of(alloc, row.expected)?),
        Call::Values => Task::Values(expand(alloc, row.text, 0)?, values_of(alloc, row.expected)?),
        Call::Prefixes => Task::Prefixes(
            expand(alloc, row.text, 0)?,
            matches_of(alloc, row.expected, 0)?,
        ),
        Call::Number(count) => Task::Number(count, number_of(row.expected)?),
        Call::Kind => kind_task_of(row.expected)?,
        Call::Summary => Task::Summary(expand(alloc, row.expected, 0)?),
        Call::Written => Task::Form(form_of(alloc, row.expected)?),
        Call::Word => Task::Word(number_of(row.text)?, small_number_of(row.expected)?),
        _ => return Err(Stop::Unreadable),
    })
}

fn kind_task_of(raw: &str) -> Result<Task, Stop> {
    let mut words = raw.split_ascii_whitespace();
    let kind = kind_of(words.next())?;
    match (words.next(), words.next()) {
        (None, _) => Ok(Task::Kind(kind, false)),
        (Some("anycase"), None) => Ok(Task::Kind(kind, true)),
        _ => Err(Stop::Unreadable),
    }
}

/// Compares what automata and rows of states are both asked.
fn compare_told<S: Searched>(
    alloc: Global,
    searched: &S,
    asked: &Asked<'_, '_>,
    task: &Task,
    differences: &mut Differences,
) -> Result<(), Stop> {
    match task {
        Task::Search(search, cases) => {
            let by_blocks = cases.len() == 1 && asked.is_thorough;
            for case in cases {
                compare_search(alloc, searched, *search, case, by_blocks, differences);
            }
        }
        Task::Depths(search, case, _depths) => {
            let holds = has_depths(searched, *search, case, &[]);
            differences.note(Form::Stepper, holds);
        }
        Task::Patterns(expected) => {
            let listed = searched.listed(alloc).map_err(|_| Stop::Memory)?;
            differences.note(Form::Answer, listed == *expected);
        }
        Task::Number(Count::States, expected) => {
            differences.note(Form::Answer, searched.count_states() == *expected);
        }
        Task::Kind(kind, folds) => {
            let holds = searched.told_kind() == asked.kind(*kind, *folds);
            differences.note(Form::Answer, holds);
        }
        Task::Replaced(case, written) => {
            compare_replaced(
                alloc,
                searched,
                case,
                written,
                asked.is_thorough,
                differences,
            )?;
        }
        _ => {}
    }
    Ok(())
}

/// Whether a stepper reports these depths.
fn has_depths<S: Searched>(searched: &S, search: Search, case: &Case, depths: &[u32]) -> bool {
    match search {
        Search::Overlapping => searched.overlapping_by_steps(case, &case.expected, depths),
        Search::Find => searched.find_by_steps(case, &case.expected, depths),
        _ => false,
    }
}

/// Compares what only automata are asked.
fn compare<S: Automaton>(
    alloc: Global,
    automaton: &S,
    is_thorough: bool,
    task: &Task,
    differences: &mut Differences,
) -> Result<(), Stop> {
    match task {
        Task::Search(search, cases) => {
            let is_thorough = cases.len() == 1 && is_thorough;
            for case in cases {
                compare_rest(alloc, automaton, *search, case, is_thorough, differences)?;
            }
            Ok(())
        }
        Task::Depths(search, case, depths) => {
            let mut cached = automaton.cloned().map_err(|_| Stop::Memory)?;
            cached.cache().map_err(|_| Stop::Memory)?;
            let holds = has_depths(&cached, *search, case, depths);
            differences.note(Form::Cached, holds);
            Ok(())
        }
        Task::Values(text, expected) => {
            differences.note(Form::Answer, automaton.has_values(text, expected));
            Ok(())
        }
        Task::Prefixes(text, expected) => {
            compare_prefixes(automaton, text, expected, differences);
            Ok(())
        }
        _ => compare_numbers(alloc, automaton, task, differences),
    }
}

/// Compares the patterns that begin a text, and the first of the longest.
fn compare_prefixes<S: Automaton>(
    automaton: &S,
    text: &[u8],
    expected: &[Found],
    differences: &mut Differences,
) {
    differences.note(Form::Answer, automaton.has_prefixes(text, expected));
    let longest = automaton.longest_of(text);
    differences.note(Form::Find, is_found(longest, first_of_longest(expected)));
}

/// The first of the longest of matches from one start.
fn first_of_longest(matches: &[Found]) -> Option<Found> {
    let mut longest: Option<Found> = None;
    for found in matches {
        if longest.is_none_or(|(_, end, _)| end < found.1) {
            longest = Some(*found);
        }
    }
    longest
}

/// Compares what a search has over automata alone: leftmost streams, and that it may be dropped.
fn compare_rest<S: Automaton>(
    alloc: Global,
    automaton: &S,
    search: Search,
    case: &Case,
    is_thorough: bool,
    differences: &mut Differences,
) -> Result<(), Stop> {
    if search == Search::Leftmost {
        compare_read_streams(alloc, automaton, case, is_thorough, differences);
        compare_streams(alloc, automaton, case, differences);
    }
    if is_thorough && !case.is_invalid(S::width()) {
        compare_left(automaton, search, case, differences)?;
    }
    Ok(())
}

/// Compares the leftmost streams over readers.
fn compare_read_streams<S: Automaton>(
    alloc: Global,
    automaton: &S,
    case: &Case,
    by_blocks: bool,
    differences: &mut Differences,
) {
    let error = error_of(case, S::width());
    let bytes = case.bytes.as_slice();
    if by_blocks {
        let holds = match in_blocks(alloc, bytes) {
            Ok(reader) => automaton.streams_from_reader(alloc, reader, &case.expected, error),
            Err(error) => Err(error),
        };
        differences.note(Form::Reader, holds.unwrap_or(false));
    }
    let holds = automaton.streams_from_reader(alloc, bytes, &case.expected, error);
    differences.note(Form::Buffer, holds.unwrap_or(false));
    let holds = match in_short_blocks(alloc, bytes) {
        Ok(reader) => automaton.streams_from_reader(alloc, reader, &case.expected, error),
        Err(error) => Err(error),
    };
    differences.note(Form::SlowReader, holds.unwrap_or(false));
}

/// Compares the leftmost streams that are given a text unit by unit.
fn compare_streams<S: Automaton>(
    alloc: Global,
    automaton: &S,
    case: &Case,
    differences: &mut Differences,
) {
    if !case.is_invalid(S::width()) {
        let holds = automaton.streams(alloc, case, &case.times);
        differences.note(Form::Stream, holds);
        for cut in case.cuts() {
            let holds = automaton.streams_resumed(alloc, case, &case.times, cut);
            differences.note(Form::ResumedStream, holds);
        }
    }
}

/// Compares numbers, the summary and the written form.
fn compare_numbers<S: Automaton>(
    alloc: Global,
    automaton: &S,
    task: &Task,
    differences: &mut Differences,
) -> Result<(), Stop> {
    match task {
        Task::Number(Count::States, _) => {}
        Task::Number(count, expected) => {
            let told = automaton.count(alloc, *count).map_err(|_| Stop::Memory)?;
            differences.note(Form::Answer, told == Some(*expected));
        }
        Task::Summary(expected) => {
            let summary = format!(in alloc; "{automaton:?}")?;
            differences.note(Form::Answer, summary.as_bytes() == expected.as_slice());
        }
        Task::Form(expected) => {
            let written = automaton.written(alloc).map_err(|_| Stop::Memory)?;
            differences.note(Form::Answer, written == *expected);
        }
        Task::Word(place, expected) => {
            let written = automaton.written(alloc).map_err(|_| Stop::Memory)?;
            let word = written.iter().copied().skip(*place).take(4);
            differences.note(Form::Answer, word.eq(expected.to_le_bytes()));
        }
        _ => {}
    }
    Ok(())
}
