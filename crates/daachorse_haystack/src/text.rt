//! A string as a haystack of characters.

ghost use Rattle.std.specs.Prelude.{◌≡◌, ◌<◌, ◌^◌};
ghost use Rattle.std.specs.Str.{chars, IsUtf8};
ghost use Rattle.daachorse_model.specs.Folding.{as_read};
ghost use Rattle.daachorse_model.specs.Units.{size, char_width};

use crate::haystack::Haystack;
use daachorse_core::ascii_fold::AsciiFold;
use std::marker::Model;

/// The characters of a string, each read as it is or folded.
#[derive(Drop)]
pub struct Text<'a> {
    text: &'a str,
    // The number of bytes given, which are whole characters.
    given: usize,
    // Whether each character is folded.
    folds: bool,
}

impl<'a> Model for Text<'a> {
    ghost use Rattle.std.specs.Prelude.{List, ℕ, ◌≤◌, drop, length};
    ghost use Rattle.std.specs.Str.{IsUtf8, chars};
    ghost use Rattle.daachorse_model.specs.Folding.{as_read};

    ghost Value = { List ℕ };

    ghost view = { λ s. as_read s.folds (chars (drop s.given s.text.now)) };

    ghost invariant = { λ s. (s.given ≤ length s.text.now) × IsUtf8 (drop s.given s.text.now) };
}

impl<'a> Text<'a> {
    /// All characters of the string, each folded if `folds` is set.
    #[inline(always)]
    pub fn new(haystack: &'a str, folds: bool) -> Self
        ensures characters { result ≡ as_read folds (chars haystack.now) }
        ensures fits { size char_width result < 2 ^ 64 }
    {
        let _len = haystack.len();
        Text {
            text: haystack,
            given: 0,
            folds,
        }
    }

    /// The text still to come, as it is, and whether each character is folded.
    #[inline(always)]
    pub fn unread(&self) -> (&'a str, bool)
        ensures units { as_read result.1 (chars result.0.now) ≡ self.now }
        ensures utf8 { IsUtf8 result.0.now }
    {
        (&self.text[self.given..], self.folds)
    }
}

impl<'a> Iterator for Text<'a> {
    ghost use Rattle.std.specs.Iterator.{YieldsFirst, item_count};

    type Item = char;

    ghost next_gives = { YieldsFirst (λ s. s) };

    ghost remaining = { item_count (λ s. s) };

    #[inline(always)]
    fn next(&mut self) -> Option<char> {
        if self.given == self.text.len() {
            return None;
        }
        let byte = self.text.as_bytes()[self.given];
        // Folding changes no byte and no character past ASCII.
        let first = if self.folds { byte.folded() } else { byte };
        // An ASCII character is its byte, and needs no decoding.
        if first < 0x80 {
            self.given += 1;
            return Some(char::from(first));
        }
        let mut rest = self.text[self.given..].chars();
        let character = rest.next();
        self.given = self.text.len() - rest.as_str().len();
        character
    }
}

impl<'a> Haystack<char> for Text<'a> {
    ghost rest = { λ s. s };

    #[inline(always)]
    fn is_folded(&self) -> bool {
        self.folds
    }

    #[inline(always)]
    fn after(&self, bytes: usize) -> Self {
        Text {
            text: self.text,
            given: self.given + bytes,
            folds: self.folds,
        }
    }

    #[inline(always)]
    fn left(&self) -> usize {
        self.text.len() - self.given
    }

    ghost gives = { λ s r t h. h };

    ghost callable = { λ s. tt };

    ghost ends = { λ s. tt };
}
