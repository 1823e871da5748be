//! The patterns of an automaton: bytes or text.

ghost use Rattle.std.specs.Prelude.{◌≡◌, ℕ, List, IfOk, IfErr, map};
ghost use Rattle.daachorse_core.specs.Refusals.{IsOutOfMemory};

use daachorse_core::edge_label::EdgeLabel;
use daachorse_core::errors::Result;
use std::alloc::Allocator;

/// A pattern of an automaton over labels of type `L`.
pub trait Pattern<L: EdgeLabel>: Copy {
    /// The units of the pattern.
    ghost units: { Self → List ℕ };

    /// The bytes of a text of units.
    ghost spell: { List ℕ → List ℕ };

    /// The labels of the pattern, if need be in the buffer, which loses what it held. Fails if an
    /// allocation does.
    fn labels<'b, A: Allocator>(&'b self, buffer: &'b mut Vec<L, A>) -> Result<&'b [L]>
        ensures ok { IfOk result (λ labels. map L.unit labels.now ≡ units self.now) }
        ensures err { IfErr result IsOutOfMemory };

    /// The bytes of the pattern.
    fn bytes(&self) -> &[u8]
        ensures { result.now ≡ spell (units self.now) };
}

impl<'p> Pattern<u8> for &'p [u8] {
    ghost units = { λ p. p.now };

    ghost spell = { λ w. w };

    /// The bytes themselves; the buffer stays as it is.
    fn labels<'b, A: Allocator>(&'b self, _buffer: &'b mut Vec<u8, A>) -> Result<&'b [u8]> {
        Ok(*self)
    }

    fn bytes(&self) -> &[u8] {
        *self
    }
}

impl<'p> Pattern<char> for &'p str {
    ghost use Rattle.std.specs.Prelude.{encode_utf8_all};
    ghost use Rattle.std.specs.Str.{chars};

    ghost units = { λ p. chars p.now };

    ghost spell = { encode_utf8_all };

    /// The characters, which are put into the buffer.
    fn labels<'b, A: Allocator>(&'b self, buffer: &'b mut Vec<char, A>) -> Result<&'b [char]> {
        buffer.clear();
        for character in self.chars() {
            buffer.push(character)?;
        }
        Ok(buffer.as_slice())
    }

    fn bytes(&self) -> &[u8] {
        self.as_bytes()
    }
}
