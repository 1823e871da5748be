//! A text that is searched, and what is to be found in it.

use crate::finding::Found;
use crate::plain::Plainly;
use crate::report::{Differences, Form, Stop};
use crate::row::{Row, Search, Texts};
use crate::text::{expand, number_of, small_number_of};
use daachorse_model::slow::Width;
use std::alloc::{AllocError, Global};
use std::ops::Range;
use std::str;

/// A text that is searched, and what is to be found in it.
#[derive(Drop)]
pub struct Case {
    pub bytes: Vec<u8>,
    /// Whether the bytes are UTF-8.
    pub is_text: bool,
    /// The text, which is empty if the bytes are none.
    pub text: String,
    /// The characters of the text.
    pub characters: Vec<char>,
    pub expected: Vec<Found>,
    /// After how many units each match is certain, or nothing where that is not asked.
    pub times: Vec<usize>,
}

impl Case {
    /// A text in which nothing is expected.
    pub fn new(alloc: Global, bytes: Vec<u8>) -> Result<Self, Stop> {
        let (is_text, text) = match str::from_utf8(&bytes) {
            Ok(text) => (true, String::from_str(alloc, text)?),
            Err(_) => (false, String::new(alloc)),
        };
        let characters = characters_of(alloc, &text)?;
        Ok(Self {
            bytes,
            is_text,
            text,
            characters,
            expected: Vec::new(alloc),
            times: Vec::new(alloc),
        })
    }

    /// After how many units a stepper or a stream is saved and resumed: each number that a short text
    /// has, and one of a long one.
    pub fn cuts(&self) -> Range<usize> {
        let len = self.bytes.len();
        if len <= 20 { 0..len + 1 } else { 20..21 }
    }

    /// Whether units of this width end at an error.
    pub fn is_invalid(&self, width: Width) -> bool {
        width == Width::Chars && !self.is_text
    }
}

fn characters_of(alloc: Global, text: &str) -> Result<Vec<char>, AllocError> {
    let mut characters = Vec::new(alloc);
    for character in text.chars() {
        characters.push(character)?;
    }
    Ok(characters)
}

/// A match, and after how many units it is certain, if that is said.
fn match_of(word: &str, number: usize) -> Result<(Found, Option<usize>), Stop> {
    let (word, shift) = match word.strip_prefix('+') {
        Some(rest) => (rest, number),
        None => (word, 0),
    };
    let Some((start, behind)) = word.split_once('-') else {
        return Err(Stop::Unreadable);
    };
    let Some((end, behind)) = behind.split_once(':') else {
        return Err(Stop::Unreadable);
    };
    let (value, time) = match behind.split_once('@') {
        Some((value, time)) => (value, Some(number_of(time)?)),
        None => (behind, None),
    };
    let start = number_of(start)?.saturating_add(shift);
    let end = number_of(end)?.saturating_add(shift);
    Ok(((start, end, small_number_of(value)?), time))
}

/// The matches that words say.
pub fn matches_of(alloc: Global, raw: &str, number: usize) -> Result<Vec<Found>, Stop> {
    let mut matches = Vec::new(alloc);
    for word in raw.split_ascii_whitespace() {
        let (found, time) = match_of(word, number)?;
        if time.is_some() {
            return Err(Stop::Unreadable);
        }
        matches.push(found)?;
    }
    Ok(matches)
}

impl Case {
    /// Takes the expected matches with their times, and none without.
    fn take_certain(&mut self, raw: &str) -> Result<(), Stop> {
        for word in raw.split_ascii_whitespace() {
            let (found, time) = match_of(word, 0)?;
            let Some(time) = time else {
                return Err(Stop::Unreadable);
            };
            self.expected.push(found)?;
            self.times.push(time)?;
        }
        Ok(())
    }

    /// Takes the expected matches of a row, or those that the plain search finds.
    fn take_expected(
        &mut self,
        alloc: Global,
        raw: &str,
        number: usize,
        width: Width,
    ) -> Result<(), Stop> {
        let raw = if self.is_invalid(width) {
            let Some(raw) = raw.strip_suffix("invalid") else {
                return Err(Stop::Unreadable);
            };
            raw
        } else {
            raw
        };
        self.expected = matches_of(alloc, raw, number)?;
        Ok(())
    }

    /// Compares the expected matches with those of the plain search, where that is short enough.
    fn compare(
        &self,
        alloc: Global,
        plainly: &Plainly,
        search: Search,
        room: usize,
        differences: &mut Differences,
    ) -> Result<(), Stop> {
        let is_short = plainly.work(self.bytes.len()) <= room;
        if is_short && !self.is_invalid(plainly.width) {
            let found = plainly.find(alloc, search, &self.bytes)?;
            differences.note(Form::Plain, found == self.expected);
        }
        Ok(())
    }
}

/// The work up to which typed matches are compared with the plain search.
const ROOM: usize = 500_000;

/// The same where there are many texts.
const ROOM_OF_EACH: usize = 50_000;

/// The text of a row with this number in it.
fn case_of(
    alloc: Global,
    row: &Row<'_>,
    number: usize,
    search: Search,
    room: usize,
    plainly: &Plainly,
    differences: &mut Differences,
) -> Result<Case, Stop> {
    let mut case = Case::new(alloc, expand(alloc, row.text, number)?)?;
    if row.expected == "plain" {
        case.expected = plainly.find(alloc, search, &case.bytes)?;
        return Ok(case);
    }
    case.take_expected(alloc, row.expected, number, plainly.width)?;
    case.compare(alloc, plainly, search, room, differences)?;
    Ok(case)
}

/// The text of a row whose matches have times.
pub fn certain_case_of(
    alloc: Global,
    row: &Row<'_>,
    plainly: &Plainly,
    differences: &mut Differences,
) -> Result<Case, Stop> {
    let mut case = Case::new(alloc, expand(alloc, row.text, 0)?)?;
    case.take_certain(row.expected)?;
    case.compare(alloc, plainly, Search::Leftmost, ROOM, differences)?;
    Ok(case)
}

/// The text of a row, with what the plain search finds in it.
pub fn plain_case_of(
    alloc: Global,
    bytes: Vec<u8>,
    search: Search,
    plainly: &Plainly,
) -> Result<Case, Stop> {
    let mut case = Case::new(alloc, bytes)?;
    case.expected = plainly.find(alloc, search, &case.bytes)?;
    Ok(case)
}

/// The texts that a row searches.
pub fn cases_of(
    alloc: Global,
    row: &Row<'_>,
    search: Search,
    texts: Texts,
    plainly: &Plainly,
    differences: &mut Differences,
) -> Result<Vec<Case>, Stop> {
    let mut cases = Vec::new(alloc);
    match texts {
        Texts::One => {
            cases.push(case_of(alloc, row, 0, search, ROOM, plainly, differences)?)?;
        }
        Texts::Each(most) => {
            for number in 0..=most {
                cases.push(case_of(
                    alloc,
                    row,
                    number,
                    search,
                    ROOM_OF_EACH,
                    plainly,
                    differences,
                )?)?;
            }
        }
        Texts::Beginnings => push_beginnings(&mut cases, row, search, plainly)?,
    }
    Ok(cases)
}

/// Appends each beginning of a row's text, up to boundaries of characters.
fn push_beginnings(
    cases: &mut Vec<Case>,
    row: &Row<'_>,
    search: Search,
    plainly: &Plainly,
) -> Result<(), Stop> {
    let alloc = *cases.allocator();
    let whole = expand(alloc, row.text, 0)?;
    for end in 0..=whole.len() {
        if is_boundary(&whole, end) {
            let beginning = Vec::from_slice(alloc, &whole[..end])?;
            cases.push(beginning_of(alloc, row, beginning, search, plainly)?)?;
        }
    }
    Ok(())
}

/// A beginning of a row's text, with what the plain search finds in it, or with typed matches.
fn beginning_of(
    alloc: Global,
    row: &Row<'_>,
    beginning: Vec<u8>,
    search: Search,
    plainly: &Plainly,
) -> Result<Case, Stop> {
    if row.expected == "plain" {
        return plain_case_of(alloc, beginning, search, plainly);
    }
    let mut case = Case::new(alloc, beginning)?;
    case.expected = matches_of(alloc, row.expected, 0)?;
    Ok(case)
}

/// Whether no byte of a character that began before stands at this place.
fn is_boundary(bytes: &[u8], place: usize) -> bool {
    match bytes.get(place) {
        Some(byte) => *byte & 0xc0 != 0x80,
        None => true,
    }
}
