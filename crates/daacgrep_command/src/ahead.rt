//! Where the next selected line of a text stands.

ghost use Rattle.std.specs.Prelude.{◌≡◌, ◌<◌, ℕ, drop, false, length, true};
ghost use Rattle.daacgrep_command.specs.Ahead.{AreClear, BeginsWithLines, IsFront, IsNext};
ghost use Rattle.daacgrep_command.specs.Sought.{sought_of};

use crate::lines::{after_last, first_line};
use crate::searcher::Searcher;
use std::alloc::Allocator;

/// The next selected line of a text.
#[derive(Clone, Copy, Debug, PartialEq, Eq)]
pub struct Ahead {
    /// How many bytes the lines before it take.
    pub skip: usize,
    /// Its length.
    pub len: usize,
    /// Its length with its mark.
    pub end: usize,
    /// How many bytes after it are known to be lines without a match.
    pub clear: usize,
}

/// The front of a text: lines without a match, and perhaps one with a match after them.
#[derive(Clone, Copy, Debug, PartialEq, Eq)]
struct Front {
    /// How many bytes the lines without a match take.
    clear: usize,
    /// The length of the line with a match, without its mark and with it.
    found: Option<(usize, usize)>,
}

/// Returns the next line with a match, or with `inverts` the next one without. The first `clear`
/// bytes are lines without a match.
#[inline]
pub fn look_ahead<A: Allocator + Copy>(
    searcher: &Searcher<A>,
    inverts: bool,
    mark: u8,
    text: &[u8],
    clear: usize,
) -> Option<Ahead>
    requires { AreClear (sought_of searcher.now) mark clear text.now }
    ensures { IsNext (sought_of searcher.now) mark inverts text.now result }
{
    if inverts {
        next_without_match(searcher, mark, text, clear)
    } else {
        next_with_match(searcher, mark, text)
    }
}

#[inline]
fn next_with_match<A: Allocator + Copy>(
    searcher: &Searcher<A>,
    mark: u8,
    text: &[u8],
) -> Option<Ahead>
    ensures { IsNext (sought_of searcher.now) mark false text.now result }
{
    let mut skip = 0;
    while skip < text.len() {
        let front = read_front(searcher, mark, &text[skip..]);
        skip += front.clear;
        if let Some((len, end)) = front.found {
            return Some(Ahead {
                skip,
                len,
                end,
                clear: 0,
            });
        }
    }
    None
}

fn next_without_match<A: Allocator + Copy>(
    searcher: &Searcher<A>,
    mark: u8,
    text: &[u8],
    clear: usize,
) -> Option<Ahead>
    requires { AreClear (sought_of searcher.now) mark clear text.now }
    ensures { IsNext (sought_of searcher.now) mark true text.now result }
{
    let (skip, clear) = clear_lines(searcher, mark, text, clear);
    if clear == 0 {
        return None;
    }
    let (len, end) = first_line(mark, &text[skip..]);
    Some(Ahead {
        skip,
        len,
        end,
        clear: clear - end,
    })
}

// The place of the next lines without a match, and how many bytes they take.
fn clear_lines<A: Allocator + Copy>(
    searcher: &Searcher<A>,
    mark: u8,
    text: &[u8],
    clear: usize,
) -> (usize, usize)
    requires { AreClear (sought_of searcher.now) mark clear text.now }
    ensures skipped { (lines : ℕ) × BeginsWithLines (sought_of searcher.now) mark true lines result.0 text.now }
    ensures clear { AreClear (sought_of searcher.now) mark result.1 (drop result.0 text.now) }
    ensures all { result.1 ≡ 0 → result.0 ≡ length text.now }
{
    if clear > 0 {
        return (0, clear);
    }
    let mut skip = 0;
    while skip < text.len() {
        let front = read_front(searcher, mark, &text[skip..]);
        match front.found {
            Some((_, end)) if front.clear == 0 => skip += end,
            _ => return (skip, front.clear),
        }
    }
    (skip, 0)
}

#[inline]
fn read_front<A: Allocator + Copy>(searcher: &Searcher<A>, mark: u8, text: &[u8]) -> Front
    requires { 0 < length text.now }
    ensures { IsFront (sought_of searcher.now) mark text.now result }
{
    let Some(found) = searcher.matches(text).next() else {
        return Front {
            clear: text.len(),
            found: None,
        };
    };
    let start = after_last(mark, &text[..found.start]);
    let (len, end) = first_line(mark, &text[start..]);
    if found.end <= start + len || searcher.is_match(&text[start..start + len]) {
        Front {
            clear: start,
            found: Some((len, end)),
        }
    } else {
        Front {
            clear: start + end,
            found: None,
        }
    }
}
