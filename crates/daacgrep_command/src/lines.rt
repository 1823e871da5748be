//! The lines of a text.

ghost use Rattle.std.specs.Prelude.{◌≡◌, ◌<◌, ◌≤◌, ◌==◌, ◌+◌, ◌-◌, ◌⊎◌, IfSome, count_by, drop, length, position, slice_index};
ghost use Rattle.std.specs.List.{position_or_len};
ghost use Rattle.daacgrep_command.specs.Lines.{lines_of};
ghost use Rattle.daacgrep_command.specs.Windows.{HasNone};

use crate::line::Line;
use std::marker::Model;

/// The lines of a text, in order. A mark ends each, and one at the end begins no further line.
#[derive(Drop)]
pub struct Lines<'a> {
    mark: u8,
    rest: &'a [u8],
    // The number of lines that were given, and the place of the rest.
    given: usize,
    start: usize,
}

impl<'a> Model for Lines<'a> {
    ghost use Rattle.std.specs.Prelude.{List, ◌+◌, ◌≤◌, ◌<◌, ◌^◌, length};
    ghost use Rattle.daacgrep_command.specs.Lines.{TextLine, lines_from, pieces_of};

    ghost Value = { List TextLine };

    ghost view = { λ s. lines_from s.given s.start (pieces_of s.mark s.rest.now) };

    ghost invariant = { λ s. (s.given ≤ s.start) × (s.start + length s.rest.now < 2 ^ 64) };
}

impl<'a> Lines<'a> {
    /// The lines of a text, where a mark ends each.
    pub fn new(text: &'a [u8], mark: u8) -> Self
        ensures { result ≡ lines_of mark text.entry.now }
    {
        Lines {
            mark,
            rest: text,
            given: 0,
            start: 0,
        }
    }
}

impl<'a> Iterator for Lines<'a> {
    ghost use Rattle.std.specs.Iterator.{YieldsFirstBy, item_count};
    ghost use Rattle.daacgrep_command.specs.Lines.{seen};

    type Item = Line<'a>;

    ghost next_gives = { YieldsFirstBy seen (λ s. s) };

    ghost remaining = { item_count (λ s. s) };

    #[inline]
    fn next(&mut self) -> Option<Line<'a>> {
        if self.rest.is_empty() {
            return None;
        }
        let (len, end) = first_line(self.mark, self.rest);
        let line = Line {
            number: self.given + 1,
            start: self.start,
            bytes: &self.rest[..len],
        };
        self.given += 1;
        self.start += end;
        self.rest = &self.rest[end..];
        Some(line)
    }
}

/// Returns the length of the first line, and the place after it and its mark.
pub fn first_line(mark: u8, text: &[u8]) -> (usize, usize)
    ensures len { result.0 ≡ position_or_len (λ b. b == mark) text.now }
    ensures end { ((result.0 < length text.now) × (result.1 ≡ result.0 + 1)) ⊎ ((length text.now ≤ result.0) × (result.1 ≡ result.0)) }
    ensures within { result.1 ≤ length text.now }
{
    match mark_place(mark, text) {
        Some(len) => (len, len + 1),
        None => (text.len(), text.len()),
    }
}

// The place of the first mark.
fn mark_place(mark: u8, text: &[u8]) -> Option<usize>
    ensures place { result ≡ position (λ b. b == mark) text.now }
    ensures within { IfSome result (λ place. place < length text.now) }
{
    text.iter().position(|byte| *byte == mark)
}

/// Returns the place after the last mark, or 0 if there is none.
pub fn after_last(mark: u8, text: &[u8]) -> usize
    ensures within { result ≤ length text.now }
    ensures after { (result ≡ 0) ⊎ ((0 < result) × (slice_index text.now (result - 1) ≡ mark)) }
    ensures last { HasNone mark (drop result text.now) }
{
    let mut place = text.len();
    while place > 0 && text[place - 1] != mark {
        place -= 1;
    }
    place
}

/// Returns how many marks there are.
pub fn count_marks(mark: u8, text: &[u8]) -> usize
    ensures { result ≡ count_by (λ b. b == mark) text.now }
{
    let mut count = 0usize;
    for byte in text {
        if *byte == mark {
            count += 1;
        }
    }
    count
}
