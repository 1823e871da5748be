//! Plain searches that compare every part of the haystack with every pattern.
//!
//! A text is a slice of its units: bytes, or the codes of characters. The searches compute the
//! definitions themselves, so that tests can compare faster searches with them.

ghost use Rattle.std.specs.Prelude.{◌≡◌, ◌+◌, ◌++◌, [], take, OnOk, IfOk, slice_get};
ghost use Rattle.daachorse_model.specs.Units.{size};
ghost use Rattle.daachorse_model.specs.Dictionary.{values_of, dictionary, registrations_of};
ghost use Rattle.daachorse_model.specs.Matches.{matches_of, ending_at, at_each_end, overlapping, no_suffix, standard, standard_from};
ghost use Rattle.daachorse_model.specs.Slow.{width_of, matches_at_end};

use crate::{Match, MatchKind};
use std::alloc::{AllocError, Allocator};

mod leftmost;

pub use leftmost::leftmost_slowly;

/// How many bytes a unit takes.
#[derive(Clone, Copy, Debug, PartialEq, Eq, Hash)]
pub enum Width {
    /// Each unit is a byte.
    Bytes,
    /// Each unit is the code of a character, and takes the bytes of its UTF-8.
    Chars,
}

impl Width {
    /// Returns how many bytes one unit takes.
    pub fn of(self, unit: u32) -> usize
        ensures { result ≡ width_of self unit }
    {
        match self {
            Width::Bytes => 1,
            Width::Chars if unit < 0x80 => 1,
            Width::Chars if unit < 0x800 => 2,
            Width::Chars if unit < 0x1_0000 => 3,
            Width::Chars => 4,
        }
    }

    /// Returns how many bytes a text takes.
    pub fn size_of(self, text: &[u32]) -> usize
        ensures { result ≡ size (width_of self) text.now }
    {
        let mut size = 0;
        for unit in text {
            size += self.of(*unit);
        }
        size
    }
}

/// Which matches are reported at an end.
#[derive(Clone, Copy)]
enum AtEnd {
    /// Every match.
    Every,
    /// The first one.
    First,
    /// The first empty one.
    FirstEmpty,
}

/// Appends a match from `start` to `end` for each value of `part`.
fn push_values<V: Copy, A: Allocator>(
    found: &mut Vec<Match<V>, A>,
    patterns: &[(&[u32], V)],
    part: &[u32],
    start: usize,
    end: usize,
) -> Result<(), AllocError>
    ensures { OnOk result (found.new.items ≡ found.old.items ++ matches_of (values_of (registrations_of patterns.now)) start end part.now) }
{
    for (text, value) in patterns {
        if *text == part {
            found.push(Match {
                start,
                end,
                value: *value,
            })?;
        }
    }
    Ok(())
}

/// Appends the matches of the suffixes of `text`, which runs from `start` to `end`.
fn push_ending_at<V: Copy, A: Allocator>(
    found: &mut Vec<Match<V>, A>,
    width: Width,
    patterns: &[(&[u32], V)],
    text: &[u32],
    start: usize,
    end: usize,
) -> Result<(), AllocError>
    requires { start + size (width_of width) text.now ≡ end }
    ensures { OnOk result (found.new.items ≡ found.old.items ++ ending_at (width_of width) (values_of (registrations_of patterns.now)) start end text.now) }
{
    let mut from = start;
    for skipped in 0..text.len() {
        push_values(found, patterns, &text[skipped..], from, end)?;
        from += width.of(text[skipped]);
    }
    push_values(found, patterns, &[], end, end)
}

/// The first match of a suffix of `text`, which runs from `start` to `end`.
fn first_ending_at<V: Copy, A: Allocator + Copy>(
    alloc: A,
    width: Width,
    patterns: &[(&[u32], V)],
    text: &[u32],
    start: usize,
    end: usize,
) -> Result<Option<Match<V>>, AllocError>
    requires { start + size (width_of width) text.now ≡ end }
    ensures { IfOk result (λ first. first ≡ slice_get (ending_at (width_of width) (values_of (registrations_of patterns.now)) start end text.now) 0) }
{
    let mut found = Vec::new(alloc);
    push_ending_at(&mut found, width, patterns, text, start, end)?;
    Ok(found.first().copied())
}

/// Appends the match of [`first_ending_at`], if there is one.
fn push_first_ending_at<V: Copy, A: Allocator + Copy>(
    found: &mut Vec<Match<V>, A>,
    width: Width,
    patterns: &[(&[u32], V)],
    text: &[u32],
    start: usize,
    end: usize,
) -> Result<(), AllocError>
    requires { start + size (width_of width) text.now ≡ end }
    ensures { OnOk result (found.new.items ≡ found.old.items ++ take 1 (ending_at (width_of width) (values_of (registrations_of patterns.now)) start end text.now)) }
{
    let first = first_ending_at(*found.allocator(), width, patterns, text, start, end)?;
    if let Some(first) = first {
        found.push(first)?;
    }
    Ok(())
}

/// Appends the matches to report at the end of `text`, the haystack so far.
fn push_at_end<V: Copy, A: Allocator + Copy>(
    found: &mut Vec<Match<V>, A>,
    at_end: AtEnd,
    width: Width,
    patterns: &[(&[u32], V)],
    text: &[u32],
) -> Result<(), AllocError>
    ensures { OnOk result (found.new.items ≡ found.old.items ++ matches_at_end at_end (width_of width) (values_of (registrations_of patterns.now)) text.now) }
{
    let place = width.size_of(text);
    match at_end {
        AtEnd::Every => push_ending_at(found, width, patterns, text, 0, place),
        AtEnd::First => push_first_ending_at(found, width, patterns, text, 0, place),
        AtEnd::FirstEmpty => push_first_ending_at(found, width, patterns, &[], place, place),
    }
}

/// The matches to report, end by end.
fn search_each_end<V: Copy, A: Allocator + Copy>(
    alloc: A,
    at_end: AtEnd,
    width: Width,
    patterns: &[(&[u32], V)],
    haystack: &[u32],
) -> Result<Vec<Match<V>, A>, AllocError>
    ensures { IfOk result (λ found. found.items ≡ at_each_end (matches_at_end at_end (width_of width) (values_of (registrations_of patterns.now))) [] haystack.now) }
{
    let mut found = Vec::new(alloc);
    for read in 0..haystack.len() {
        push_at_end(&mut found, at_end, width, patterns, &haystack[..read])?;
    }
    push_at_end(&mut found, at_end, width, patterns, haystack)?;
    Ok(found)
}

/// Finds every match of the patterns in the haystack, overlapping ones too: by rising ends, and at
/// each end the longest first. Fails if an allocation does.
pub fn overlapping_slowly<V: Copy, A: Allocator + Copy>(
    alloc: A,
    width: Width,
    patterns: &[(&[u32], V)],
    haystack: &[u32],
) -> Result<Vec<Match<V>, A>, AllocError>
    ensures { IfOk result (λ found. found.items ≡ overlapping (width_of width) (dictionary MatchKind.Standard (registrations_of patterns.now)) haystack.now) }
{
    search_each_end(alloc, AtEnd::Every, width, patterns, haystack)
}

/// Finds the match of the longest pattern at each end. Fails if an allocation does.
pub fn no_suffix_slowly<V: Copy, A: Allocator + Copy>(
    alloc: A,
    width: Width,
    patterns: &[(&[u32], V)],
    haystack: &[u32],
) -> Result<Vec<Match<V>, A>, AllocError>
    ensures { IfOk result (λ found. found.items ≡ no_suffix (width_of width) (dictionary MatchKind.Standard (registrations_of patterns.now)) haystack.now) }
{
    search_each_end(alloc, AtEnd::First, width, patterns, haystack)
}

/// The first value of the pattern `text`.
fn first_value<V: Copy>(patterns: &[(&[u32], V)], text: &[u32]) -> Option<V>
    ensures { result ≡ slice_get (values_of (registrations_of patterns.now) text.now) 0 }
{
    for (pattern, value) in patterns {
        if *pattern == text {
            return Some(*value);
        }
    }
    None
}

/// Standard matches if no pattern is empty: after each match the first end, and the longest there.
fn search_nonempty<V: Copy, A: Allocator + Copy>(
    alloc: A,
    width: Width,
    patterns: &[(&[u32], V)],
    haystack: &[u32],
) -> Result<Vec<Match<V>, A>, AllocError>
    ensures { IfOk result (λ found. found.items ≡ standard_from (width_of width) (values_of (registrations_of patterns.now)) 0 [] haystack.now) }
{
    let mut found = Vec::new(alloc);
    let mut resume = 0;
    for read in 0..haystack.len() {
        let start = width.size_of(&haystack[..resume]);
        let end = width.size_of(&haystack[..read + 1]);
        let part = &haystack[resume..read + 1];
        if let Some(first) = first_ending_at(alloc, width, patterns, part, start, end)? {
            found.push(first)?;
            resume = read + 1;
        }
    }
    Ok(found)
}

/// Finds non-overlapping matches, each of which ends as early as possible and is the longest there.
///
/// With an empty pattern there is one empty match at each boundary. Fails if an allocation does.
pub fn standard_slowly<V: Copy, A: Allocator + Copy>(
    alloc: A,
    width: Width,
    patterns: &[(&[u32], V)],
    haystack: &[u32],
) -> Result<Vec<Match<V>, A>, AllocError>
    ensures { IfOk result (λ found. found.items ≡ standard (width_of width) (dictionary MatchKind.Standard (registrations_of patterns.now)) haystack.now) }
{
    if first_value(patterns, &[]).is_some() {
        search_each_end(alloc, AtEnd::FirstEmpty, width, patterns, haystack)
    } else {
        search_nonempty(alloc, width, patterns, haystack)
    }
}
