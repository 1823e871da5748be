//! The selected lines of a text.

ghost use Rattle.std.specs.Prelude.{◌≡◌, ◌+◌, ◌<◌, ◌^◌, ◌==◌, count_by, filter, if◌then◌else◌, length, map};
ghost use Rattle.daacgrep_command.specs.Lines.{lines_from, numbered, pieces_of};
ghost use Rattle.daacgrep_command.specs.Printed.{is_selected};
ghost use Rattle.daacgrep_command.specs.Sought.{sought_of};

use crate::ahead::look_ahead;
use crate::line::{Line, Part};
use crate::lines::count_marks;
use crate::searcher::Searcher;
use std::alloc::Allocator;
use std::marker::Model;

/// The selected lines of a text, in order: those with a match, or with `inverts` those without.
/// They have their numbers if these are asked for, and else the number 0.
#[derive(Drop)]
pub struct SelectedLines<'a, A: Allocator> {
    searcher: &'a Searcher<A>,
    inverts: bool,
    has_numbers: bool,
    mark: u8,
    rest: &'a [u8],
    // The number of the line before the rest, and the place of the rest.
    given: usize,
    start: usize,
    // How many bytes of the rest are known to be lines without a match.
    clear: usize,
}

impl<'a, A: Allocator> Model for SelectedLines<'a, A> {
    ghost use Rattle.std.specs.Prelude.{List, ◌+◌, ◌≤◌, ◌<◌, ◌^◌, filter, length, map};
    ghost use Rattle.daacgrep_command.specs.Ahead.{AreClear};
    ghost use Rattle.daacgrep_command.specs.Lines.{TextLine, lines_from, numbered, pieces_of};
    ghost use Rattle.daacgrep_command.specs.Printed.{is_selected};
    ghost use Rattle.daacgrep_command.specs.Sought.{sought_of};

    ghost Value = { List TextLine };

    ghost view = { λ s. map (numbered s.has_numbers) (filter (λ line. is_selected (sought_of s.searcher.now) s.inverts line.bytes)
        (lines_from s.given s.start (pieces_of s.mark s.rest.now))) };

    ghost invariant = { λ s. (s.given ≤ s.start) × (s.start + length s.rest.now < 2 ^ 64)
        × AreClear (sought_of s.searcher.now) s.mark s.clear s.rest.now };
}

impl<'a, A: Allocator + Copy> SelectedLines<'a, A> {
    /// The selected ones of these lines, where a mark ends each.
    pub fn new(
        searcher: &'a Searcher<A>,
        inverts: bool,
        has_numbers: bool,
        mark: u8,
        part: Part<'a>,
    ) -> Self
        ensures { result ≡ map (numbered has_numbers) (filter (λ line. is_selected (sought_of searcher.entry.now) inverts line.bytes)
            (lines_from part.entry.before part.entry.start (pieces_of mark part.entry.bytes.now))) }
    {
        SelectedLines {
            searcher,
            inverts,
            has_numbers,
            mark,
            rest: part.bytes,
            given: part.before,
            start: part.start,
            clear: 0,
        }
    }
}

impl<'a, A: Allocator + Copy> Iterator for SelectedLines<'a, A> {
    ghost use Rattle.std.specs.Iterator.{YieldsFirstBy, item_count};
    ghost use Rattle.daacgrep_command.specs.Lines.{seen};

    type Item = Line<'a>;

    ghost next_gives = { YieldsFirstBy seen (λ s. s) };

    ghost remaining = { item_count (λ s. s) };

    #[inline]
    fn next(&mut self) -> Option<Line<'a>> {
        let Some(next) = look_ahead(
            self.searcher,
            self.inverts,
            self.mark,
            self.rest,
            self.clear,
        ) else {
            self.rest = &[];
            self.clear = 0;
            return None;
        };
        let from = &self.rest[next.skip..];
        let line = Line {
            number: number_after(
                self.has_numbers,
                self.given,
                self.mark,
                &self.rest[..next.skip],
            ),
            start: self.start + next.skip,
            bytes: &from[..next.len],
        };
        self.given = line.number;
        self.start += next.skip + next.end;
        self.rest = &from[next.end..];
        self.clear = next.clear;
        Some(line)
    }
}

// The number of the line after these lines, if it is asked for, and else 0.
fn number_after(is_asked: bool, given: usize, mark: u8, lines: &[u8]) -> usize
    requires { given + length lines.now + 1 < 2 ^ 64 }
    ensures { result ≡ (if is_asked then given + count_by (λ b. b == mark) lines.now + 1 else 0) }
{
    if is_asked {
        given + count_marks(mark, lines) + 1
    } else {
        0
    }
}
