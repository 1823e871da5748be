//! The plain searches of the model.

use crate::finding::Found;
use crate::report::Stop;
use crate::row::{Pattern, Search};
use daachorse::{Match, MatchKind};
use daachorse_model::slow::{
    Width, leftmost_slowly, no_suffix_slowly, overlapping_slowly, standard_slowly,
};
use std::alloc::{AllocError, Global};
use std::str;

/// A pattern as units, with its value.
type UnitPattern = (Vec<u32>, u32);

/// What a plain search searches for.
#[derive(Drop)]
pub struct Plainly {
    pub width: Width,
    kind: MatchKind,
    folds: bool,
    patterns: Vec<UnitPattern>,
}

/// The units of a text, as an automaton reads them.
fn units_of(alloc: Global, width: Width, folds: bool, text: &[u8]) -> Result<Vec<u32>, Stop> {
    let mut units = Vec::new(alloc);
    match width {
        Width::Bytes => push_bytes(&mut units, text)?,
        Width::Chars => push_chars(&mut units, text)?,
    }
    if folds {
        for unit in units.iter_mut() {
            *unit = folded(*unit);
        }
    }
    Ok(units)
}

fn push_bytes(units: &mut Vec<u32>, text: &[u8]) -> Result<(), AllocError> {
    for byte in text {
        units.push(u32::from(*byte))?;
    }
    Ok(())
}

fn push_chars(units: &mut Vec<u32>, text: &[u8]) -> Result<(), Stop> {
    let Ok(text) = str::from_utf8(text) else {
        return Err(Stop::Unreadable);
    };
    for character in text.chars() {
        units.push(u32::from(character))?;
    }
    Ok(())
}

/// A unit without regard to the case of ASCII letters.
fn folded(unit: u32) -> u32 {
    if (0x41..=0x5a).contains(&unit) {
        unit + 0x20
    } else {
        unit
    }
}

impl Plainly {
    /// A plain search for patterns of units of this width.
    pub fn new(
        alloc: Global,
        width: Width,
        kind: MatchKind,
        folds: bool,
        patterns: &[Pattern],
    ) -> Result<Self, Stop> {
        let mut by_units = Vec::new(alloc);
        for (pattern, value) in patterns {
            by_units.push((units_of(alloc, width, folds, pattern)?, *value))?;
        }
        Ok(Self {
            width,
            kind,
            folds,
            patterns: by_units,
        })
    }

    /// A bound on the work over a text of so many bytes.
    pub fn work(&self, len: usize) -> usize {
        let patterns = self.patterns.len().saturating_add(1);
        len.saturating_mul(len).saturating_mul(patterns)
    }

    /// What the plain search finds in a text.
    pub fn find(&self, alloc: Global, search: Search, text: &[u8]) -> Result<Vec<Found>, Stop> {
        let haystack = units_of(alloc, self.width, self.folds, text)?;
        let matches = self.search(alloc, search, &haystack)?;
        let mut found = Vec::new(alloc);
        for one in &matches {
            found.push((one.start, one.end, one.value))?;
        }
        Ok(found)
    }

    fn search(
        &self,
        alloc: Global,
        search: Search,
        haystack: &[u32],
    ) -> Result<Vec<Match<u32>>, AllocError> {
        let mut patterns = Vec::new(alloc);
        for (pattern, value) in &self.patterns {
            patterns.push((pattern.as_slice(), *value))?;
        }
        match search {
            Search::Overlapping => overlapping_slowly(alloc, self.width, &patterns, haystack),
            Search::NoSuffix => no_suffix_slowly(alloc, self.width, &patterns, haystack),
            Search::Find => standard_slowly(alloc, self.width, &patterns, haystack),
            Search::Leftmost => leftmost_slowly(alloc, self.kind, self.width, &patterns, haystack),
        }
    }
}
