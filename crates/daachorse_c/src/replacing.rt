//! Haystacks with their matches replaced, in room that C owns.

ghost use Rattle.std.specs.Prelude.{◌≡◌, ◌↔◌, ◌++◌, ℕ, List, IsTrue, length};
ghost use Rattle.daachorse_c.specs.Held.{haystack_of, searched};
ghost use Rattle.daachorse_c.specs.Patterns.{AreEnds};
ghost use Rattle.daachorse_c.specs.Replacing.{IsCut, instead_of, replaced_by};

use crate::place::Place;
use crate::room::put_in_front;
use crate::searching::Search;

/// Joined texts, and where each ends.
#[derive(Clone, Copy)]
pub struct Texts<'a> {
    /// Their bytes.
    pub bytes: &'a [u8],
    /// Where each ends in the bytes, and the next begins.
    pub ends: &'a [usize],
}

impl<'a> Texts<'a> {
    /// Whether the ends neither decrease nor pass the bytes.
    pub(crate) fn are_right(self) -> bool
        ensures { IsTrue result ↔ AreEnds 0 (length self.entry.bytes.now) self.entry.ends.now }
    {
        let mut start = 0;
        for end in self.ends {
            if *end < start || self.bytes.len() < *end {
                return false;
            }
            start = *end;
        }
        true
    }

    /// The text of this number, or `matched` if there is none.
    fn instead_of(self, number: u32, matched: &'a [u8]) -> &'a [u8]
        requires { AreEnds 0 (length self.bytes.now) self.ends.now }
        ensures { result.now ≡ instead_of self.entry.bytes.now self.entry.ends.now number matched.now }
    {
        let number = number as usize;
        if number >= self.ends.len() {
            return matched;
        }
        if number == 0 {
            return &self.bytes[..self.ends[0]];
        }
        &self.bytes[self.ends[number - 1]..self.ends[number]]
    }
}

impl<'a> Search<'a> {
    /// Writes as much of the haystack with its matches replaced as there is room for, and returns
    /// the length of the whole, or `usize::MAX` if it is longer.
    pub(crate) fn replace(&self, texts: Texts<'_>, out: &mut [u8]) -> usize
        requires { AreEnds 0 (length texts.bytes.now) texts.ends.now }
        ensures { IsCut (replaced_by texts.entry.bytes.now texts.entry.ends.now (haystack_of self.now) (searched self.now)) out.old out.new result }
    {
        let haystack = self.bytes();
        let mut place = Place {
            at: 0,
            after: false,
            over: false,
        };
        let mut behind = 0;
        let mut size = 0;
        while let Some(found) = self.next_match(&mut place) {
            size = put(&haystack[behind..found.start], size, out);
            let matched = &haystack[found.start..found.end];
            size = put(texts.instead_of(found.value, matched), size, out);
            behind = found.end;
        }
        put(&haystack[behind..], size, out)
    }
}

/// Copies to `out` as many bytes as there is room for after the first `size`, and returns how many
/// would be there then, or `usize::MAX` if they are more.
fn put(bytes: &[u8], size: usize, out: &mut [u8]) -> usize
    ensures { (text first : List ℕ) → IsCut text first out.old size → IsCut (text ++ bytes.now) first out.new result }
{
    let all = size.saturating_add(bytes.len());
    let room = out.len();
    if size < room {
        let count = bytes.len().min(room - size);
        put_in_front(&bytes[..count], &mut out[size..]);
    }
    all
}
