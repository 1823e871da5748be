//! The characters of a reader.

ghost use Rattle.std.specs.Prelude.{◌≡◌, ◌+◌, ◌*◌, ◌<◌, ◌≤◌, ◌^◌, ℕ, List, [], ◌∷◌, IfNone, IfSome, Some};
ghost use Rattle.std.specs.Char.{IsScalar, encode_utf8};
ghost use Rattle.std.specs.Iterator.{Yields};
ghost use Rattle.daachorse_search.specs.Readers.{Fails, GivesByte, MayReadCharacters, to_read};
ghost use Rattle.daachorse_search.specs.Spellings.{HasCode, NeedsMore};

use crate::reader::{ReadBytes, ReadSource};
use daachorse_haystack::source::Source;
use std::io::{self, BufRead};
use std::marker::Model;

/// The characters of a reader. It fails at bytes that are no UTF-8, with
/// [`InvalidData`](io::ErrorKind::InvalidData).
#[derive(Drop)]
pub struct ReadChars<R> {
    bytes: ReadBytes<R>,
}

impl<R> Model for ReadChars<R> {
    ghost use Rattle.daachorse_search.specs.Readers.{Reading};

    ghost Value = { Reading R };

    ghost view = { λ s. s.bytes };
}

impl<R: BufRead> ReadChars<R>
where
    R: Drop,
{
    /// What the reader gives from here on.
    pub fn new(reader: R) -> Self
        ensures reader { result ≡ to_read reader }
        ensures may { MayReadCharacters result [] }
    {
        Self {
            bytes: ReadBytes::new(reader),
        }
    }

    /// The bytes of what is still to come.
    pub fn into_bytes(self) -> ReadBytes<R>
        ensures { result ≡ self }
    {
        self.bytes
    }

    /// The characters of what a source of bytes has still to give.
    pub fn from_bytes(bytes: ReadBytes<R>) -> Self
        ensures { result ≡ bytes }
    {
        Self { bytes }
    }

    /// Takes the rest of a character past ASCII.
    fn take_wide(&mut self, first: u8) -> Option<char>
        requires { 128 ≤ first }
        ensures some { IfSome result (λ c. IsScalar c × (inner : List ℕ) × (encode_utf8 c ≡ first ∷ inner) × Yields (GivesByte R.remaining) self.old inner self.new) }
        ensures none { IfNone result (Fails R.remaining (first ∷ []) self.old self.new) }
    {
        let lead = u32::from(first);
        if first < 0xc0 {
            self.bytes.refuse_text();
            return None;
        }
        if first < 0xe0 {
            let code = self.take_inner(lead - 0xc0)?;
            return self.checked(code, 0x80);
        }
        if first < 0xf0 {
            let two = self.take_inner(lead - 0xe0)?;
            let code = self.take_inner(two)?;
            return self.checked(code, 0x800);
        }
        let two = self.take_inner(lead - 0xf0)?;
        let three = self.take_inner(two)?;
        let code = self.take_inner(three)?;
        self.checked(code, 0x10000)
    }

    /// Takes a byte inside a character, and appends its six bits to `code`.
    fn take_inner(&mut self, code: u32) -> Option<u32>
        requires { code < 2 ^ 20 }
        ensures none { IfNone result ((before : List ℕ) → NeedsMore before → Fails R.remaining before self.old self.new) }
        ensures some { IfSome result (λ after. (b : ℕ) × GivesByte R.remaining self.old (Some b) self.new × (128 ≤ b) × (b < 192) × (after + 128 ≡ code * 64 + b)) }
    {
        match self.bytes.next() {
            Some(byte) if 0x80 <= byte && byte < 0xc0 => {
                Some(code * 64 + u32::from(byte - 0x80))
            }
            Some(_) => {
                self.bytes.refuse_text();
                None
            }
            None => {
                self.bytes.refuse_end();
                None
            }
        }
    }

    /// The character of a code that is not less than `least`.
    fn checked(&mut self, code: u32, least: u32) -> Option<char>
        ensures none { IfNone result ((before : List ℕ) → HasCode before code least → Fails R.remaining before self.old self.new) }
        ensures some { IfSome result (λ c. (c ≡ code) × (least ≤ c) × IsScalar c × (self.new ≡ self.old)) }
    {
        if code >= least {
            if let Some(character) = char::from_u32(code) {
                return Some(character);
            }
        }
        self.bytes.refuse_text();
        None
    }
}

impl<R: BufRead> Iterator for ReadChars<R>
where
    R: Drop,
{
    ghost use Rattle.std.specs.Iterator.{at_most};
    ghost use Rattle.daachorse_search.specs.Readers.{GivesCharacter};

    type Item = char;

    ghost next_gives = { GivesCharacter R.remaining };

    ghost remaining = { λ s. at_most s.left };

    #[inline(always)]
    fn next(&mut self) -> Option<char> {
        let first = self.bytes.next()?;
        if first < 0x80 {
            return Some(char::from(first));
        }
        self.take_wide(first)
    }
}

impl<R: BufRead> Source<char> for ReadChars<R>
where
    R: Drop,
{
    ghost use Rattle.daachorse_search.specs.Readers.{MayReadCharacters};
    ghost use Rattle.daachorse_search.specs.CharacterReaders.{MayReadCharacters-ready, MayReadCharacters-kept};

    ghost may_read = { MayReadCharacters };

    ghost ready = { MayReadCharacters-ready R.remaining };

    ghost kept = { λ s read xs t may took fewer ready. MayReadCharacters-kept R.remaining s read xs t may took };
}

impl<R: BufRead> ReadSource<char> for ReadChars<R>
where
    R: Drop,
{
    ghost failure = { λ s. s.failure };

    fn into_failure(self) -> Option<io::Error> {
        self.bytes.into_failure()
    }
}
