//! Where a search goes on.

ghost use Rattle.std.specs.Prelude.{◌≡◌, ◌+◌, ◌<◌, ◌≤◌};
ghost use Rattle.daachorse_model.specs.Matches.{shifted};
ghost use Rattle.daachorse_c.specs.Places.{StandsBehind};

use daachorse::Match;

/// Where a search for matches that do not overlap goes on. It begins where all is 0 or false.
#[repr(C)]
#[derive(Clone, Copy)]
pub struct Place {
    /// The offset from which it goes on.
    pub at: usize,
    /// Whether a nonempty match ends there.
    pub after: bool,
    /// Whether no match is left.
    pub over: bool,
}

impl Place {
    /// Moves after a match of the text from here on, and returns it as one of the haystack, which
    /// has `len` bytes. The unit after the match has `step` bytes.
    pub(crate) fn pass(&mut self, found: Match<u32>, step: usize, len: usize) -> Match<u32>
        requires order { found.start ≤ found.end }
        requires within { self.old.at + found.end ≤ len }
        requires step { found.end ≤ found.start → self.old.at + found.end < len → self.old.at + found.end + step ≤ len }
        ensures found { result ≡ shifted self.old.at found }
        ensures behind { StandsBehind result step len self.new }
    {
        let start = self.at + found.start;
        let end = self.at + found.end;
        let is_empty = start == end;
        self.after = !is_empty;
        self.over = is_empty && end == len;
        self.at = if is_empty && end < len {
            end + step
        } else {
            end
        };
        Match {
            start,
            end,
            value: found.value,
        }
    }
}
