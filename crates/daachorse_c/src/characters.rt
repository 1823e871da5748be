//! Places in characters.

ghost use Rattle.std.specs.Prelude.{◌≡◌, count_by};
ghost use Rattle.daachorse_c.specs.Characters.{begins_character, characters_before, in_characters, inside_by};

use crate::found::CMatch;
use std::marker::Model;

/// A place in a text, and how many characters begin before it.
#[derive(Drop)]
pub(crate) struct Cursor<'a> {
    text: &'a [u8],
    place: usize,
    count: usize,
}

impl<'a> Model for Cursor<'a> {
    ghost use Rattle.std.specs.Prelude.{◌≡◌, ◌≤◌, ℕ, List, length};
    ghost use Rattle.daachorse_c.specs.Characters.{characters_before};

    ghost Value = { List ℕ };

    ghost view = { λ s. s.text.now };

    ghost invariant = { λ s. (s.count ≡ characters_before s.text.now s.place) × (s.place ≤ length s.text.now) };
}

impl<'a> Cursor<'a> {
    /// A cursor at the beginning of a text.
    pub(crate) fn new(text: &'a [u8]) -> Self
        ensures { result ≡ text.entry.now }
    {
        Cursor {
            text,
            place: 0,
            count: 0,
        }
    }

    /// Goes to a place, forward or back, and returns how many characters begin before it.
    fn go_to(&mut self, place: usize) -> usize
        ensures text { self.new ≡ self.old }
        ensures count { result ≡ characters_before self.old place }
    {
        let place = place.min(self.text.len());
        let count = if self.place <= place {
            self.count + count_characters(&self.text[self.place..place])
        } else {
            self.count - count_characters(&self.text[place..self.place])
        };
        self.place = place;
        self.count = count;
        count
    }

    /// The match with its places in characters. They count from an origin, and the text comes after
    /// so many bytes and characters.
    pub(crate) fn moved(
        &mut self,
        found: CMatch,
        bytes: usize,
        characters: usize,
        origin: usize,
    ) -> CMatch
        ensures text { self.new ≡ self.old }
        ensures moved { result ≡ in_characters self.old bytes characters origin found }
    {
        let start = found.start.saturating_add(origin).saturating_sub(bytes);
        let end = found.end.saturating_add(origin).saturating_sub(bytes);
        let partial = self.go_to(start);
        let ended = self.go_to(end);
        CMatch {
            start: characters.saturating_add(partial),
            end: characters
                .saturating_add(ended)
                .saturating_sub(self.inside_by(end)),
            value: found.value,
        }
    }

    /// Returns 1 if the place is inside a character, and else 0.
    fn inside_by(&self, place: usize) -> usize
        ensures { result ≡ inside_by self.now place }
    {
        match self.text.get(place) {
            Some(byte) if !begins_character(*byte) => 1,
            _ => 0,
        }
    }
}

/// How many characters begin in the bytes.
fn count_characters(bytes: &[u8]) -> usize
    ensures { result ≡ count_by begins_character bytes.now }
{
    bytes.iter().filter(|byte| begins_character(**byte)).count()
}

/// Whether a character's UTF-8 begins with the byte.
fn begins_character(byte: u8) -> bool
    ensures { result ≡ begins_character byte }
{
    byte < 0x80 || byte >= 0xC0
}
