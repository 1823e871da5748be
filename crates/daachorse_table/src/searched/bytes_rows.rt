//! Searches begun over rows of states, over bytes.

use crate::case::Case;
use crate::finding::{
    Expected, Found, are_stepped, are_stepped_overlapping, gives, gives_from, gives_leftmost,
    gives_no_suffix, gives_no_suffix_from, gives_no_suffix_read, gives_overlapping,
    gives_overlapping_from, gives_overlapping_read, gives_read, stand_after,
    stand_overlapping_after, step_on, step_overlapping_on,
};
use crate::replaced::{Style, append_styled, instead, write_styled};
use crate::row::Pattern;
use crate::searched::Searched;
use daachorse::bytewise::Accelerated;
use daachorse::{Match, MatchKind, Result};
use daachorse_model::slow::Width;
use std::alloc::Global;
use std::io::{self, BufRead, ErrorKind, Read, Write};

/// Rows of states of an automaton over bytes.
pub type BytewiseRows = Accelerated<u32>;

impl Searched for BytewiseRows {
    fn width() -> Width {
        Width::Bytes
    }

    fn told_kind(&self) -> (MatchKind, bool) {
        (self.match_kind(), self.is_ascii_case_insensitive())
    }

    fn count_states(&self) -> usize {
        self.num_states()
    }

    fn listed(&self, alloc: Global) -> Result<Vec<Pattern>> {
        let mut patterns = Vec::new(alloc);
        for item in self.iter(alloc)? {
            let (pattern, value) = item?;
            patterns.push((pattern, value))?;
        }
        Ok(patterns)
    }

    fn overlapping_in_slice(&self, case: &Case, expected: &[Found]) -> bool {
        if !self.match_kind().is_standard() {
            return false;
        }
        gives_overlapping(self.find_overlapping_iter(&case.bytes), expected)
    }

    fn overlapping_from_iter(&self, case: &Case, expected: &[Found]) -> bool {
        if !self.match_kind().is_standard() {
            return false;
        }
        gives_overlapping_from(
            self.find_overlapping_iter_from_iter(case.bytes.iter().copied()),
            expected,
        )
    }

    fn overlapping_from_reader<R: BufRead + Drop>(
        &self,
        reader: R,
        expected: &[Found],
        error: Option<ErrorKind>,
    ) -> bool {
        if !self.match_kind().is_standard() {
            return false;
        }
        gives_overlapping_read(
            self.find_overlapping_iter_from_reader(reader),
            expected,
            error,
        )
    }

    fn overlapping_by_steps(&self, case: &Case, expected: &[Found], depths: &[u32]) -> bool {
        if !self.match_kind().is_standard() {
            return false;
        }
        are_stepped_overlapping(
            self.find_overlapping_stepper(),
            &case.bytes,
            expected,
            depths,
        )
    }

    fn overlapping_resumed(&self, case: &Case, expected: &[Found], cut: usize) -> Option<bool> {
        if !self.match_kind().is_standard() {
            return Some(false);
        }
        let cut = cut.min(case.bytes.len());
        let mut expected = Expected::new(expected, &[]);
        let stepper = self.find_overlapping_stepper();
        let standing = stand_overlapping_after(stepper, &case.bytes[..cut], &mut expected);
        let resumed = self.resume_find_overlapping_stepper(standing);
        step_overlapping_on(resumed, &case.bytes[cut..], &mut expected);
        Some(expected.is_met())
    }

    fn no_suffix_in_slice(&self, case: &Case, expected: &[Found]) -> bool {
        if !self.match_kind().is_standard() {
            return false;
        }
        gives_no_suffix(self.find_overlapping_no_suffix_iter(&case.bytes), expected)
    }

    fn no_suffix_from_iter(&self, case: &Case, expected: &[Found]) -> bool {
        if !self.match_kind().is_standard() {
            return false;
        }
        gives_no_suffix_from(
            self.find_overlapping_no_suffix_iter_from_iter(case.bytes.iter().copied()),
            expected,
        )
    }

    fn no_suffix_from_reader<R: BufRead + Drop>(
        &self,
        reader: R,
        expected: &[Found],
        error: Option<ErrorKind>,
    ) -> bool {
        if !self.match_kind().is_standard() {
            return false;
        }
        gives_no_suffix_read(
            self.find_overlapping_no_suffix_iter_from_reader(reader),
            expected,
            error,
        )
    }

    fn find_in_slice(&self, case: &Case, expected: &[Found]) -> bool {
        if !self.match_kind().is_standard() {
            return false;
        }
        gives(self.find_iter(&case.bytes), expected)
    }

    fn find_from_iter(&self, case: &Case, expected: &[Found]) -> bool {
        if !self.match_kind().is_standard() {
            return false;
        }
        gives_from(
            self.find_iter_from_iter(case.bytes.iter().copied()),
            expected,
        )
    }

    fn find_from_reader<R: BufRead + Drop>(
        &self,
        reader: R,
        expected: &[Found],
        error: Option<ErrorKind>,
    ) -> bool {
        if !self.match_kind().is_standard() {
            return false;
        }
        gives_read(self.find_iter_from_reader(reader), expected, error)
    }

    fn find_by_steps(&self, case: &Case, expected: &[Found], depths: &[u32]) -> bool {
        if !self.match_kind().is_standard() {
            return false;
        }
        are_stepped(self.find_stepper(), &case.bytes, expected, depths)
    }

    fn find_resumed(&self, case: &Case, expected: &[Found], cut: usize) -> Option<bool> {
        if !self.match_kind().is_standard() {
            return Some(false);
        }
        let cut = cut.min(case.bytes.len());
        let mut expected = Expected::new(expected, &[]);
        let standing = stand_after(self.find_stepper(), &case.bytes[..cut], &mut expected);
        let resumed = self.resume_find_stepper(standing);
        step_on(resumed, &case.bytes[cut..], &mut expected);
        Some(expected.is_met())
    }

    fn leftmost_in_slice(&self, case: &Case, expected: &[Found]) -> bool {
        if self.match_kind().is_standard() {
            return false;
        }
        gives_leftmost(self.leftmost_find_iter(&case.bytes), expected)
    }

    fn first_in(&self, case: &Case) -> Option<Match<u32>> {
        self.find(&case.bytes)
    }

    fn is_match_in(&self, case: &Case) -> bool {
        self.is_match(&case.bytes)
    }

    fn replaced(&self, alloc: Global, case: &Case) -> Option<(Vec<u8>, bool)> {
        match self.replace_all(alloc, &case.bytes, instead) {
            Ok(out) => Some((out, true)),
            Err(_) => None,
        }
    }

    fn replaces_into<W: Write>(&self, case: &Case, out: &mut W) -> io::Result<()> {
        self.replace_all_into(&case.bytes, instead, out)
    }

    fn replaced_with(&self, alloc: Global, style: Style, case: &Case) -> Option<(Vec<u8>, bool)> {
        let mut out = Vec::new(alloc);
        let outcome = self.replace_all_with(&case.bytes, &mut out, |found, part, out| {
            append_styled(style, found, part, out)
        });
        Some((out, outcome.is_ok()))
    }

    fn replaces_into_with<W: Write>(
        &self,
        style: Style,
        case: &Case,
        out: &mut W,
    ) -> io::Result<()> {
        self.replace_all_into_with(&case.bytes, out, |found, part, out| {
            write_styled(style, found, part, out)
        })
    }

    fn replaces_from_reader<R: Read + Drop, W: Write>(
        &self,
        alloc: Global,
        style: Style,
        reader: R,
        out: &mut W,
    ) -> io::Result<()> {
        self.replace_all_from_reader(alloc, reader, out, |found, part, out| {
            write_styled(style, found, part, out)
        })
    }
}
