//! The characters of a source of UTF-8 bytes.

ghost use Rattle.std.specs.Prelude.{◌≡◌, ◌<◌, ◌+◌, ◌*◌, ℕ, suc, IfSome};
ghost use Rattle.std.specs.Iterator.{MakesProgress};
ghost use Rattle.std.specs.Option.{option_map};
ghost use Rattle.daachorse_model.specs.Units.{char_width};
ghost use Rattle.daachorse_haystack.specs.Midway.{IsMidway, TakesInner};
ghost use Rattle.daachorse_haystack.specs.TextSources.{IsText, GivesCharacter};

use crate::source::Source;
use daachorse_core::ascii_fold::AsciiFold;
use std::marker::Model;

/// The characters of the bytes that an iterator gives.
#[derive(Drop)]
pub struct Decoded<P: Iterator<Item = u8>> {
    bytes: P,
}

impl<P: Iterator<Item = u8>> Model for Decoded<P> {
    ghost Value = { P };

    ghost view = { λ s. s.bytes };
}

impl<P: Iterator<Item = u8>> Decoded<P> {
    /// The characters of the bytes that the iterator still gives.
    #[inline(always)]
    pub fn new(bytes: P) -> Self
        ensures { result ≡ bytes }
    {
        Self { bytes }
    }

    /// Takes the next character, and returns it with its number of bytes.
    #[inline(always)]
    fn take_character(&mut self) -> Option<(char, usize)>
        requires { IsText P.can_next P.next_gives P.remaining self.old }
        ensures steps { GivesCharacter P.can_next P.next_gives P.remaining self.old (option_map (λ taken. taken.0) result) self.new }
        ensures goes { MakesProgress (IsText P.can_next P.next_gives P.remaining) P.remaining self.old (option_map (λ taken. taken.0) result) self.new }
        ensures bytes { IfSome result (λ taken. taken.1 ≡ char_width taken.0) }
    {
        let first = self.bytes.next()?;
        if first < 0x80 {
            return Some((char::from(first), 1));
        }
        let lead = u32::from(first);
        let two = self.take_inner(0);
        if first < 0xe0 {
            let code = (lead - 0xc0) * 64 + two;
            return Some((unsafe { char::from_u32_unchecked(code) }, 2));
        }
        let three = self.take_inner(two);
        if first < 0xf0 {
            let code = (lead - 0xe0) * 4096 + three;
            return Some((unsafe { char::from_u32_unchecked(code) }, 3));
        }
        let four = self.take_inner(three);
        let code = (lead - 0xf0) * 262144 + four;
        Some((unsafe { char::from_u32_unchecked(code) }, 4))
    }

    /// Takes a byte inside a character, and appends its six bits to `code`.
    #[inline(always)]
    fn take_inner(&mut self, code: u32) -> u32
        requires { (source : P) × (first bits more : ℕ) × IsText P.can_next P.next_gives P.remaining source × IsMidway P.can_next P.next_gives P.remaining source first (bits + code) (suc more) self.old }
        ensures takes { TakesInner P.can_next P.next_gives P.remaining code self.old result self.new }
        ensures fits { result < code * 64 + 64 }
    {
        let Some(byte) = self.bytes.next() else {
            unreachable!()
        };
        code * 64 + u32::from(byte) % 64
    }
}

impl<P: Iterator<Item = u8>> Iterator for Decoded<P> {
    ghost use Rattle.daachorse_haystack.specs.TextSources.{IsText, GivesCharacter};

    type Item = char;

    ghost can_next = { IsText P.can_next P.next_gives P.remaining };

    ghost next_gives = { GivesCharacter P.can_next P.next_gives P.remaining };

    ghost remaining = { P.remaining };

    #[inline(always)]
    fn next(&mut self) -> Option<char> {
        let (character, _bytes) = self.take_character()?;
        Some(character)
    }
}

impl<P: Iterator<Item = u8>> Source<char> for Decoded<P> {
    ghost use Rattle.daachorse_model.specs.Units.{size, char_width};
    ghost use Rattle.daachorse_haystack.specs.TextSources.{IsTextFrom};
    ghost use Rattle.daachorse_haystack.specs.DecodedSources.{IsTextFrom-ready, IsTextFrom-kept};

    ghost may_read = { λ s read. IsTextFrom P.can_next P.next_gives P.remaining s (size char_width read) };

    #[inline(always)]
    fn next_at(&mut self, place: &mut usize, folds: bool) -> Option<char> {
        let (character, bytes) = self.take_character()?;
        *place += bytes;
        // Only characters of one byte are ASCII, so the decoder's test serves the fold too.
        if folds && bytes == 1 {
            return Some(character.folded());
        }
        Some(character)
    }

    ghost ready = { IsTextFrom-ready P.can_next P.next_gives P.remaining };

    ghost kept = { λ s read xs t may took fewer ready. IsTextFrom-kept P.can_next P.next_gives P.remaining s read xs t may took ready.callable };
}

/// The characters of the bytes that an iterator gives, each after the offset of its end.
///
/// The bytes must be UTF-8. A call of `next` takes the bytes of its character and no others.
#[derive(Drop)]
pub struct CharWithEndOffsetIterator<P: Iterator<Item = u8>> {
    characters: Decoded<P>,
    place: usize,
}

impl<P: Iterator<Item = u8>> Model for CharWithEndOffsetIterator<P> {
    ghost use Rattle.daachorse_haystack.specs.TextSources.{Placed};

    ghost Value = { Placed P };

    ghost view = { λ s. record { source = s.characters; place = s.place } };
}

impl<P: Iterator<Item = u8>> CharWithEndOffsetIterator<P> {
    /// The characters of the bytes that the iterator still gives. Offsets count from here, in
    /// bytes.
    #[inline(always)]
    pub fn new(inner: P) -> Self
        ensures source { result.source ≡ inner }
        ensures place { result.place ≡ 0 }
    {
        Self {
            characters: Decoded::new(inner),
            place: 0,
        }
    }
}

impl<P: Iterator<Item = u8>> Iterator for CharWithEndOffsetIterator<P> {
    ghost use Rattle.daachorse_haystack.specs.TextSources.{IsTextFrom, GivesEndAndCharacter};

    type Item = (usize, char);

    ghost can_next = { λ s. IsTextFrom P.can_next P.next_gives P.remaining s.source s.place };

    ghost next_gives = { GivesEndAndCharacter P.can_next P.next_gives P.remaining };

    ghost remaining = { λ s. P.remaining s.source };

    #[inline(always)]
    fn next(&mut self) -> Option<(usize, char)> {
        let character = self.characters.next()?;
        self.place += character.len_utf8();
        Some((self.place, character))
    }
}
