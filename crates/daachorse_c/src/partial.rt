//! The bytes of a partial character.

ghost use Rattle.std.specs.Prelude.{◌≡◌, ◌≢◌, ◌<◌, ◌++◌, ◌↔◌, [], ◌∷◌, IsTrue, length};

use std::marker::Model;

/// The bytes of a partial character, at most four.
#[derive(Drop)]
pub struct Partial {
    bytes: [u8; 4],
    len: usize,
}

impl Model for Partial {
    ghost use Rattle.std.specs.Prelude.{◌≤◌, ℕ, List, take};

    ghost Value = { List ℕ };

    ghost view = { λ b. take b.len b.bytes };

    ghost invariant = { λ b. b.len ≤ 4 };
}

impl Partial {
    /// No byte.
    pub(crate) fn none() -> Partial
        ensures { result ≡ [] }
    {
        Partial {
            bytes: [0; 4],
            len: 0,
        }
    }

    /// Whether there is no byte.
    pub(crate) fn is_empty(&self) -> bool
        ensures { IsTrue result ↔ (self.now ≡ []) }
    {
        self.len == 0
    }

    /// The bytes.
    pub(crate) fn as_slice(&self) -> &[u8]
        ensures { result.now ≡ self.now }
    {
        &self.bytes[..self.len]
    }

    /// The bytes and one more.
    pub(crate) fn with(&self, byte: u8) -> Partial
        requires { length self.now < 4 }
        ensures { result ≡ self.now ++ byte ∷ [] }
    {
        let mut bytes = self.bytes;
        bytes[self.len] = byte;
        Partial {
            bytes,
            len: self.len + 1,
        }
    }
}
