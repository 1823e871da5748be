//! Searches begun over rows of states, over characters.

use crate::case::Case;
use crate::finding::{
    Found, are_stepped, are_stepped_overlapping, gives, gives_from_text, gives_leftmost,
    gives_no_suffix, gives_no_suffix_from_text, gives_no_suffix_read, gives_overlapping,
    gives_overlapping_from_text, gives_overlapping_read, gives_read,
};
use crate::replaced::{Style, append_text_styled, instead_of_text, write_styled};
use crate::row::Pattern;
use crate::searched::Searched;
use daachorse::charwise::Accelerated;
use daachorse::{Match, MatchKind, Result};
use daachorse_model::slow::Width;
use std::alloc::Global;
use std::io::{self, BufRead, ErrorKind, Read, Write};

/// Rows of states of an automaton over characters.
pub type CharwiseRows = Accelerated<u32>;

impl Searched for CharwiseRows {
    fn width() -> Width {
        Width::Chars
    }

    fn told_kind(&self) -> (MatchKind, bool) {
        (self.match_kind(), self.is_ascii_case_insensitive())
    }

    fn count_states(&self) -> usize {
        self.num_states()
    }

    fn listed(&self, alloc: Global) -> Result<Vec<Pattern>> {
        let mut patterns = Vec::new(alloc);
        for item in self.iter(alloc)? {
            let (pattern, value) = item?;
            patterns.push((pattern.into_bytes(), value))?;
        }
        Ok(patterns)
    }

    fn overlapping_in_slice(&self, case: &Case, expected: &[Found]) -> bool {
        if !self.match_kind().is_standard() {
            return false;
        }
        gives_overlapping(self.find_overlapping_iter(&case.text), expected)
    }

    fn overlapping_from_iter(&self, case: &Case, expected: &[Found]) -> bool {
        overlapping_in_bytes_of(self, &case.text, expected)
    }

    fn overlapping_from_reader<R: BufRead + Drop>(
        &self,
        reader: R,
        expected: &[Found],
        error: Option<ErrorKind>,
    ) -> bool {
        if !self.match_kind().is_standard() {
            return false;
        }
        gives_overlapping_read(
            self.find_overlapping_iter_from_reader(reader),
            expected,
            error,
        )
    }

    fn overlapping_by_steps(&self, case: &Case, expected: &[Found], depths: &[u32]) -> bool {
        if !self.match_kind().is_standard() {
            return false;
        }
        are_stepped_overlapping(
            self.find_overlapping_stepper(),
            &case.characters,
            expected,
            depths,
        )
    }

    fn overlapping_resumed(&self, _case: &Case, _expected: &[Found], _cut: usize) -> Option<bool> {
        None
    }

    fn no_suffix_in_slice(&self, case: &Case, expected: &[Found]) -> bool {
        if !self.match_kind().is_standard() {
            return false;
        }
        gives_no_suffix(self.find_overlapping_no_suffix_iter(&case.text), expected)
    }

    fn no_suffix_from_iter(&self, case: &Case, expected: &[Found]) -> bool {
        no_suffix_in_bytes_of(self, &case.text, expected)
    }

    fn no_suffix_from_reader<R: BufRead + Drop>(
        &self,
        reader: R,
        expected: &[Found],
        error: Option<ErrorKind>,
    ) -> bool {
        if !self.match_kind().is_standard() {
            return false;
        }
        gives_no_suffix_read(
            self.find_overlapping_no_suffix_iter_from_reader(reader),
            expected,
            error,
        )
    }

    fn find_in_slice(&self, case: &Case, expected: &[Found]) -> bool {
        if !self.match_kind().is_standard() {
            return false;
        }
        gives(self.find_iter(&case.text), expected)
    }

    fn find_from_iter(&self, case: &Case, expected: &[Found]) -> bool {
        find_in_bytes_of(self, &case.text, expected)
    }

    fn find_from_reader<R: BufRead + Drop>(
        &self,
        reader: R,
        expected: &[Found],
        error: Option<ErrorKind>,
    ) -> bool {
        if !self.match_kind().is_standard() {
            return false;
        }
        gives_read(self.find_iter_from_reader(reader), expected, error)
    }

    fn find_by_steps(&self, case: &Case, expected: &[Found], depths: &[u32]) -> bool {
        if !self.match_kind().is_standard() {
            return false;
        }
        are_stepped(self.find_stepper(), &case.characters, expected, depths)
    }

    fn find_resumed(&self, _case: &Case, _expected: &[Found], _cut: usize) -> Option<bool> {
        None
    }

    fn leftmost_in_slice(&self, case: &Case, expected: &[Found]) -> bool {
        if self.match_kind().is_standard() {
            return false;
        }
        gives_leftmost(self.leftmost_find_iter(&case.text), expected)
    }

    fn first_in(&self, case: &Case) -> Option<Match<u32>> {
        self.find(&case.text)
    }

    fn is_match_in(&self, case: &Case) -> bool {
        self.is_match(&case.text)
    }

    fn replaced(&self, alloc: Global, case: &Case) -> Option<(Vec<u8>, bool)> {
        match self.replace_all(alloc, &case.text, instead_of_text) {
            Ok(out) => Some((out.into_bytes(), true)),
            Err(_) => None,
        }
    }

    fn replaces_into<W: Write>(&self, case: &Case, out: &mut W) -> io::Result<()> {
        self.replace_all_into(&case.text, instead_of_text, out)
    }

    fn replaced_with(&self, alloc: Global, style: Style, case: &Case) -> Option<(Vec<u8>, bool)> {
        let mut out = String::new(alloc);
        let outcome = self.replace_all_with(&case.text, &mut out, |found, part, out| {
            append_text_styled(style, found, part, out)
        });
        Some((out.into_bytes(), outcome.is_ok()))
    }

    fn replaces_into_with<W: Write>(
        &self,
        style: Style,
        case: &Case,
        out: &mut W,
    ) -> io::Result<()> {
        self.replace_all_into_with(&case.text, out, |found, part, out| {
            write_styled(style, found, part.as_bytes(), out)
        })
    }

    fn replaces_from_reader<R: Read + Drop, W: Write>(
        &self,
        alloc: Global,
        style: Style,
        reader: R,
        out: &mut W,
    ) -> io::Result<()> {
        self.replace_all_from_reader(alloc, reader, out, |found, part, out| {
            write_styled(style, found, part, out)
        })
    }
}

/// Whether a search of the bytes of a text in turn gives the expected matches.
fn overlapping_in_bytes_of(searched: &CharwiseRows, text: &str, expected: &[Found]) -> bool {
    if !searched.match_kind().is_standard() {
        return false;
    }
    gives_overlapping_from_text(
        searched.find_overlapping_iter_from_iter(text.bytes()),
        text,
        expected,
    )
}

/// Whether a search of the bytes of a text in turn gives the expected matches.
fn no_suffix_in_bytes_of(searched: &CharwiseRows, text: &str, expected: &[Found]) -> bool {
    if !searched.match_kind().is_standard() {
        return false;
    }
    gives_no_suffix_from_text(
        searched.find_overlapping_no_suffix_iter_from_iter(text.bytes()),
        text,
        expected,
    )
}

/// Whether a search of the bytes of a text in turn gives the expected matches.
fn find_in_bytes_of(searched: &CharwiseRows, text: &str, expected: &[Found]) -> bool {
    if !searched.match_kind().is_standard() {
        return false;
    }
    gives_from_text(searched.find_iter_from_iter(text.bytes()), text, expected)
}
