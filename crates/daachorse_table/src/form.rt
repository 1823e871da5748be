//! Written forms as rows write them, and the reads of forms that are changed or cut off.

use crate::automata::{Automaton, plainly_listed, written_of};
use crate::case::{Case, plain_case_of};
use crate::plain::Plainly;
use crate::report::{Differences, Form, Stop};
use crate::row::{Row, Search};
use crate::searched::Searched;
use crate::text::{byte_of, expand_word, number_of, small_number_of};
use daachorse::errors::DaachorseError;
use daachorse::{MatchKind, Result};
use std::alloc::Global;

/// The bytes that words say.
pub fn form_of(alloc: Global, raw: &str) -> Result<Vec<u8>, Stop> {
    let mut bytes = Vec::new(alloc);
    for word in raw.split_ascii_whitespace() {
        push_word(&mut bytes, word)?;
    }
    Ok(bytes)
}

/// Appends the bytes of a word.
fn push_word(bytes: &mut Vec<u8>, word: &str) -> Result<(), Stop> {
    if let Some(range) = word.strip_prefix('v') {
        return push_vacant(bytes, range);
    }
    match word.split_once('*') {
        Some((single, times)) => {
            for _ in 0..number_of(times)? {
                push_single(bytes, single)?;
            }
            Ok(())
        }
        None => push_single(bytes, word),
    }
}

/// Appends a byte, or a number as four bytes.
fn push_single(bytes: &mut Vec<u8>, word: &str) -> Result<(), Stop> {
    match word.strip_prefix('b') {
        Some(byte) => bytes.push(byte_of(byte)?)?,
        None => push_number(bytes, small_number_of(word)?)?,
    }
    Ok(())
}

fn push_number(bytes: &mut Vec<u8>, number: u32) -> Result<(), Stop> {
    bytes.extend_from_slice(&number.to_le_bytes())?;
    Ok(())
}

/// Appends the vacant elements from one index to another.
fn push_vacant(bytes: &mut Vec<u8>, range: &str) -> Result<(), Stop> {
    let Some((first, last)) = range.split_once('-') else {
        return Err(Stop::Unreadable);
    };
    for index in small_number_of(first)?..=small_number_of(last)? {
        push_number(bytes, 0)?;
        push_number(bytes, 0)?;
        push_number(bytes, index)?;
    }
    Ok(())
}

/// Whether the checked read refuses these bytes as no automaton.
fn is_refused<S: Automaton>(alloc: Global, bytes: &[u8]) -> bool {
    match S::read(alloc, bytes) {
        Ok(_) => false,
        Err(error) => is_no_automaton(&error),
    }
}

fn is_no_automaton(error: &DaachorseError) -> bool {
    *error == DaachorseError::invalid_automaton()
}

/// Compares how the checked read answers a form.
pub fn compare_read<S: Automaton>(
    alloc: Global,
    row: &Row<'_>,
    differences: &mut Differences,
) -> Result<(), Stop> {
    let bytes = written_of::<S>(alloc, row, row.making.way)?;
    let holds = match row.expected {
        "accepted" => S::read(alloc, &bytes).is_ok(),
        "refused" => is_refused::<S>(alloc, &bytes),
        _ => return Err(Stop::Unreadable),
    };
    differences.note(Form::Answer, holds);
    Ok(())
}

/// The least and the greatest length of the beginnings that a row tries.
fn lengths_of(raw: &str, len: usize) -> Result<(usize, usize), Stop> {
    let most = len.saturating_sub(1);
    if raw.is_empty() {
        return Ok((0, most));
    }
    match raw.split_once('-') {
        Some((first, last)) => Ok((number_of(first)?, number_of(last)?.min(most))),
        None => Err(Stop::Unreadable),
    }
}

/// Compares how the checked read answers beginnings of a form.
pub fn compare_beginnings<S: Automaton>(
    alloc: Global,
    row: &Row<'_>,
    differences: &mut Differences,
) -> Result<(), Stop> {
    let bytes = written_of::<S>(alloc, row, row.making.way)?;
    let (first, last) = lengths_of(row.text, bytes.len())?;
    let wants_refused = match row.expected {
        "refused" => true,
        "accepted" => false,
        _ => return Err(Stop::Unreadable),
    };
    for len in first..=last {
        if let Some(beginning) = bytes.get(..len) {
            let holds = is_refused::<S>(alloc, beginning) == wants_refused;
            differences.note(Form::Answer, holds);
        }
    }
    Ok(())
}

/// The searches of an automaton of this kind.
fn searches_of(kind: MatchKind) -> &'static [Search] {
    if kind.is_standard() {
        &[Search::Overlapping, Search::NoSuffix, Search::Find]
    } else {
        &[Search::Leftmost]
    }
}

/// Whether a search of a text as a slice finds what the plain search finds.
fn finds_in_slice<S: Searched>(searched: &S, search: Search, case: &Case) -> bool {
    match search {
        Search::Overlapping => searched.overlapping_in_slice(case, &case.expected),
        Search::NoSuffix => searched.no_suffix_in_slice(case, &case.expected),
        Search::Find => searched.find_in_slice(case, &case.expected),
        Search::Leftmost => searched.leftmost_in_slice(case, &case.expected),
    }
}

/// Whether each search finds what the plain search finds in a text.
fn finds_plainly<S: Automaton>(
    alloc: Global,
    automaton: &S,
    plainly: &Plainly,
    text: &str,
) -> Result<bool, Stop> {
    let (kind, _folds) = automaton.told_kind();
    for search in searches_of(kind) {
        let bytes = expand_word(alloc, text)?;
        let case = plain_case_of(alloc, bytes, *search, plainly)?;
        if !finds_in_slice(automaton, *search, &case) {
            return Ok(false);
        }
    }
    Ok(true)
}

/// Whether an automaton finds what the plain searches find for the patterns that it lists.
fn finds_listed<S: Automaton>(alloc: Global, automaton: &S, texts: &str) -> Result<bool, Stop> {
    let plainly = plainly_listed(alloc, automaton)?;
    for text in texts.split_ascii_whitespace() {
        if !finds_plainly(alloc, automaton, &plainly, text)? {
            return Ok(false);
        }
    }
    Ok(true)
}

/// Whether changed bytes are refused, or read as an automaton that finds what it lists.
fn is_refused_or_right<S: Automaton>(
    alloc: Global,
    bytes: &[u8],
    texts: &str,
) -> Result<bool, Stop> {
    match S::read(alloc, bytes) {
        Ok(automaton) => finds_listed(alloc, &automaton, texts),
        Err(error) => Ok(is_no_automaton(&error)),
    }
}

/// Compares how the checked read answers a form of which any one byte is changed by these bits.
fn compare_changed<S: Automaton>(
    alloc: Global,
    bytes: &mut [u8],
    bits: u8,
    texts: &str,
    differences: &mut Differences,
) -> Result<(), Stop> {
    for place in 0..bytes.len() {
        let before = bytes[place];
        bytes[place] = before ^ bits;
        let holds = is_refused_or_right::<S>(alloc, bytes, texts)?;
        differences.note(Form::Answer, holds);
        bytes[place] = before;
    }
    Ok(())
}

/// Compares how the checked read answers each changed form.
pub fn compare_changes<S: Automaton>(
    alloc: Global,
    row: &Row<'_>,
    differences: &mut Differences,
) -> Result<(), Stop> {
    if row.expected != "plain" {
        return Err(Stop::Unreadable);
    }
    let mut bytes = written_of::<S>(alloc, row, row.making.way)?;
    for bits in [1, 128] {
        compare_changed::<S>(alloc, &mut bytes, bits, row.text, differences)?;
    }
    Ok(())
}
