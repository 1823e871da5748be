//! What the pieces of a haystack are gathered into.

ghost use Rattle.std.specs.Prelude.{◌≡◌, ℕ, List, Some, []};
ghost use Rattle.std.specs.String.{string_bytes};

use daachorse_streams::appending::Appending;
use daachorse_streams::piece::Piece;
use std::alloc::{AllocError, Allocator};

/// A piece of a haystack that is gathered with others: bytes in a vector, or text in a string.
pub trait Gathers<B: Allocator>: Piece {
    /// A vector of bytes, or a string.
    type Whole: Appending<Self, Self::Whole, Error = AllocError> + Drop;

    /// The bytes that were gathered.
    ghost gathered: { Self.Whole → List ℕ };

    /// Nothing, which takes no memory.
    fn nothing(alloc: B) -> Self::Whole
        ensures { gathered result ≡ [] };

    // They are what was appended.
    ghost taken: { (whole : Self.Whole) → Self.Whole.taken whole ≡ Some (gathered whole) };
}

impl<'a, B: Allocator> Gathers<B> for &'a [u8] {
    ghost use Rattle.std.specs.Prelude.{refl};

    type Whole = Vec<u8, B>;

    ghost gathered = { λ whole. whole.items };

    fn nothing(alloc: B) -> Vec<u8, B>
        ensures { result.items ≡ [] }
    {
        Vec::new(alloc)
    }

    ghost taken = { λ whole. refl };
}

impl<'a, B: Allocator> Gathers<B> for &'a str {
    ghost use Rattle.std.specs.Prelude.{refl};
    ghost use Rattle.std.specs.String.{string_bytes};

    type Whole = String<B>;

    ghost gathered = { λ whole. string_bytes whole };

    fn nothing(alloc: B) -> String<B>
        ensures { string_bytes result ≡ [] }
    {
        String::new(alloc)
    }

    ghost taken = { λ whole. refl };
}
