//! The engine: from the bytes of both files to the text that is written.

ghost use Rattle.std.specs.Prelude.{◌≡◌, ℕ, ◌+◌, ◌≤◌, ◌∷◌, ◌++◌, ◌-◌, ◌==◌, ◌↔◌, false, [], IsTrue, slice_get, List, length, map, drop, decimal, IfOk, IfErr, OnOk, OnErr};
ghost use Rattle.std.specs.Iterator.{AlwaysYields, IsFinite};
ghost use Rattle.std.specs.List.{slice_split};
ghost use Rattle.std.specs.Io.KnownBytes.{Appends, Keeps};
ghost use Rattle.daachorse_model.specs.declared.Match.{Match};
ghost use Rattle.daachorse_model.specs.Folding.{as_read};
ghost use Rattle.daachorse_model.specs.Program.{pattern_lines, match_line, match_text};
ghost use Rattle.daachorse.specs.bytewise.Automata.{dictionary_of, kind_of};
ghost use Rattle.daachorse.specs.bytewise.Building.{IsBuiltOf, IsBuildRefusal};
ghost use Rattle.daachorse.specs.Replaced.{AppendsBeginning};
ghost use Rattle.daacfind_command.specs.declared.run.RunError.TheVariants.{Build, Write};
ghost use Rattle.daacfind_command.specs.Modes.{found_by, kind_of_mode, text_of_mode};
ghost use Rattle.daacfind_command.specs.Runs.{IfBuild, IsWritten, OnWrite, value_gives};

use crate::mode::Mode;
use crate::sink::{Sink, SinkError, write_whole};
use daachorse::bytewise::Accelerated;
use daachorse::errors::DaachorseError;
use daachorse::{DoubleArrayAhoCorasick, DoubleArrayAhoCorasickBuilder, Match, MatchKind};
use std::alloc::{AllocError, Allocator};
use thiserror::Error;

// An automaton with more states gains nothing by rows.
const MOST_STATES: usize = 40_000;

// To make rows takes less time than they save in so many bytes for each state.
const BYTES_A_STATE: usize = 64;

// The longest line: two offsets of 20 digits, a value of 10, two spaces and a line feed.
const LINE_LEN: usize = 53;

/// Why a run failed.
#[derive(Debug, Drop, Error)]
pub enum RunError {
    /// The build refused the patterns.
    #[error(transparent)]
    Build(DaachorseError),
    /// The sink failed.
    #[error("daacfind: cannot write")]
    Write,
}

impl From<DaachorseError> for RunError {
    ghost from_gives = { λ refusal e. e ≡ Build refusal };

    fn from(refusal: DaachorseError) -> RunError {
        RunError::Build(refusal)
    }
}

impl From<SinkError> for RunError {
    ghost from_gives = { λ _ e. e ≡ Write };

    fn from(_failure: SinkError) -> RunError {
        RunError::Write
    }
}

/// Writes the matches in `haystack` of the patterns, which are the lines of `patterns`.
///
/// The patterns have the values 0, 1, 2 and so on. Each match is a line: its start and end, in
/// bytes, and its value, in decimal, separated by spaces. The sink is flushed once, at the end.
/// The search allocates nothing but the rows of states.
///
/// # Errors
///
/// [`RunError::Build`] if the build refuses the patterns; nothing was written then.
/// [`RunError::Write`] if the sink fails; a prefix of the text was written, or all of it if only
/// the flush failed.
pub fn run<S: Sink, A: Allocator + Copy>(
    alloc: A,
    mode: Mode,
    patterns: &[u8],
    haystack: &[u8],
    out: &mut S,
) -> Result<(), RunError>
    ensures written { OnOk result (Appends (S.taken out.old) (S.taken out.new) (text_of_mode mode patterns.now haystack.now)) }
    ensures unfailed { OnOk result (S.failures out.new ≡ S.failures out.old) }
    ensures flushed { OnOk result (S.unflushed out.new ≡ 0) }
    ensures beginning { IfErr result (λ e. OnWrite e (AppendsBeginning (S.taken out.old) (S.taken out.new) (text_of_mode mode patterns.now haystack.now))) }
    ensures failed { IfErr result (λ e. OnWrite e (S.failures out.new ≡ S.failures out.old + 1)) }
    ensures refusal { IfErr result (λ e. IfBuild e (IsBuildRefusal value_gives (kind_of_mode mode) (pattern_lines patterns.now))) }
    ensures unwritten { IfErr result (λ e. IfBuild e (λ _. Keeps (S.taken out.old) (S.taken out.new))) }
    ensures untried { IfErr result (λ e. IfBuild e (λ _. S.failures out.new ≡ S.failures out.old)) }
{
    let automaton = build(alloc, mode.match_kind(), patterns)?;
    write_found(alloc, mode, automaton, haystack, out)?;
    out.flush()?;
    Ok(())
}

/// Builds the automaton of the lines of `file`, each with its number as its value. Fails if the
/// build refuses them, or if an allocation fails.
pub fn build<A: Allocator + Copy>(
    alloc: A,
    kind: MatchKind,
    file: &[u8],
) -> Result<DoubleArrayAhoCorasick<u32, A>, DaachorseError>
    ensures built { IfOk result (IsBuiltOf value_gives kind false (pattern_lines file.now)) }
    ensures err { IfErr result (IsBuildRefusal value_gives kind (pattern_lines file.now)) }
{
    let patterns = lines(alloc, file)?;
    let builder = DoubleArrayAhoCorasickBuilder::new().match_kind(kind);
    builder.build(alloc, patterns.iter().copied())
}

// The lines of a file. A line feed at the end begins no further line.
fn lines<A: Allocator>(alloc: A, file: &[u8]) -> Result<Vec<&[u8], A>, AllocError>
    ensures { IfOk result (λ v. map (λ line. line.now) v.items ≡ pattern_lines file.now) }
{
    let mut lines = pieces(alloc, file)?;
    if ends_empty(&lines) {
        lines.pop();
    }
    Ok(lines)
}

fn ends_empty(pieces: &[&[u8]]) -> bool
    ensures { IsTrue result ↔ (slice_get (map (λ piece. piece.now) pieces.now) (length pieces.now - 1) ≡ Some []) }
{
    match pieces.last() {
        Some(last) => last.is_empty(),
        None => false,
    }
}

fn pieces<A: Allocator>(alloc: A, file: &[u8]) -> Result<Vec<&[u8], A>, AllocError>
    ensures { IfOk result (λ v. map (λ piece. piece.now) v.items ≡ slice_split (λ b. b == 10) file.now) }
{
    file.split(|b| *b == b'\n').collect(alloc)
}

/// Writes each match of the mode in the haystack on a line, over rows of states if these pay and
/// there is room for them. The sink is not flushed. If it fails, it has taken a prefix of the text.
pub fn write_found<S: Sink, A: Allocator + Copy>(
    alloc: A,
    mode: Mode,
    automaton: DoubleArrayAhoCorasick<u32, A>,
    haystack: &[u8],
    out: &mut S,
) -> Result<(), SinkError>
    requires { kind_of automaton ≡ kind_of_mode mode }
    ensures whole { OnOk result (Appends (S.taken out.old) (S.taken out.new) (match_text (found_by mode (dictionary_of automaton) (as_read automaton.folds haystack.now)))) }
    ensures unfailed { OnOk result (S.failures out.new ≡ S.failures out.old) }
    ensures beginning { OnErr result (AppendsBeginning (S.taken out.old) (S.taken out.new) (match_text (found_by mode (dictionary_of automaton) (as_read automaton.folds haystack.now)))) }
    ensures failed { OnErr result (S.failures out.new ≡ S.failures out.old + 1) }
{
    let states = automaton.num_states();
    if states > MOST_STATES || haystack.len() / BYTES_A_STATE < states {
        return write_mode(mode, &automaton, haystack, out);
    }
    match automaton.accelerate(alloc) {
        Ok(searcher) => write_mode_over_rows(mode, &searcher, haystack, out),
        Err(refused) => write_mode(mode, &refused.automaton, haystack, out),
    }
}

/// Writes as [`write_found`] does, without rows.
fn write_mode<S: Sink, A: Allocator + Copy>(
    mode: Mode,
    automaton: &DoubleArrayAhoCorasick<u32, A>,
    haystack: &[u8],
    out: &mut S,
) -> Result<(), SinkError>
    requires { kind_of automaton.now ≡ kind_of_mode mode }
    ensures { IsWritten (S.taken out.old) (S.taken out.new) (S.failures out.old) (S.failures out.new) result (match_text (found_by mode (dictionary_of automaton.now) (as_read automaton.now.folds haystack.now))) }
{
    match mode {
        Mode::Overlapping => write_matches(automaton.find_overlapping_iter(haystack), out),
        Mode::NoSuffix => write_matches(automaton.find_overlapping_no_suffix_iter(haystack), out),
        Mode::Find => write_matches(automaton.find_iter(haystack), out),
        Mode::Longest => write_matches(automaton.leftmost_find_iter(haystack), out),
        Mode::First => write_matches(automaton.leftmost_find_iter(haystack), out),
    }
}

/// Writes as [`write_found`] does, over rows.
fn write_mode_over_rows<S: Sink, A: Allocator + Copy>(
    mode: Mode,
    searcher: &Accelerated<u32, A>,
    haystack: &[u8],
    out: &mut S,
) -> Result<(), SinkError>
    requires { kind_of searcher.now.automaton ≡ kind_of_mode mode }
    ensures { IsWritten (S.taken out.old) (S.taken out.new) (S.failures out.old) (S.failures out.new) result (match_text (found_by mode (dictionary_of searcher.now.automaton) (as_read searcher.now.automaton.folds haystack.now))) }
{
    match mode {
        Mode::Overlapping => write_matches(searcher.find_overlapping_iter(haystack), out),
        Mode::NoSuffix => write_matches(searcher.find_overlapping_no_suffix_iter(haystack), out),
        Mode::Find => write_matches(searcher.find_iter(haystack), out),
        Mode::Longest => write_matches(searcher.leftmost_find_iter(haystack), out),
        Mode::First => write_matches(searcher.leftmost_find_iter(haystack), out),
    }
}

fn write_matches<I: Iterator<Item = Match<u32>> + Drop, S: Sink>(
    matches: I,
    out: &mut S,
) -> Result<(), SinkError>
    requires can { I.can_next matches }
    requires ends { IsFinite (I.remaining matches) }
    ensures whole { OnOk result ((all : List (Match ℕ)) → AlwaysYields I.next_gives (λ m. m) matches all → Appends (S.taken out.old) (S.taken out.new) (match_text all)) }
    ensures unfailed { OnOk result (S.failures out.new ≡ S.failures out.old) }
    ensures beginning { OnErr result ((all : List (Match ℕ)) → AlwaysYields I.next_gives (λ m. m) matches all → AppendsBeginning (S.taken out.old) (S.taken out.new) (match_text all)) }
    ensures failed { OnErr result (S.failures out.new ≡ S.failures out.old + 1) }
{
    for found in matches {
        let mut line = [0; LINE_LEN];
        let start = render(found, &mut line);
        write_whole(out, &line[start..])?;
    }
    Ok(())
}

// Writes the match's line to the end of `line`, and returns where it begins.
fn render(found: Match<u32>, line: &mut [u8; LINE_LEN]) -> usize
    ensures within { result ≤ 53 }
    ensures written { drop result line.new ≡ match_line found }
{
    let at = render_number(u64::from(found.value), b'\n', line, LINE_LEN);
    let at = render_number(found.end as u64, b' ', line, at);
    render_number(found.start as u64, b' ', line, at)
}

// Writes the digits of `n`, then `mark`, so that they end at `end`, and returns where they begin.
fn render_number(n: u64, mark: u8, line: &mut [u8], end: usize) -> usize
    requires room { length (decimal n) + 1 ≤ end }
    requires within { end ≤ length line.old }
    ensures start { result + length (decimal n) + 1 ≡ end }
    ensures written { drop result line.new ≡ decimal n ++ mark ∷ drop end line.old }
{
    let mut at = end - 1;
    line[at] = mark;
    let mut left = n;
    while left >= 10 {
        at -= 1;
        line[at] = b'0' + (left % 10) as u8;
        left /= 10;
    }
    at -= 1;
    line[at] = b'0' + left as u8;
    at
}
