//! Strings made of characters.

ghost use Rattle.std.specs.Prelude.{◌≡◌, length, take, IfOk, IfErr};
ghost use Rattle.std.specs.Str.{chars, encode_utf8_all};
ghost use Rattle.std.specs.String.{string_bytes};
ghost use Rattle.daachorse_core.specs.Refusals.{IsOutOfMemory};

use daachorse_core::errors::Result;
use std::alloc::Allocator;

/// The string of these characters.
pub(crate) fn text_of<A: Allocator>(alloc: A, characters: &[char]) -> Result<String<A>>
    ensures ok { IfOk result (λ text. chars (string_bytes text) ≡ characters.now) }
    ensures err { IfErr result IsOutOfMemory }
{
    let mut text = String::with_capacity(alloc, num_bytes(characters))?;
    for &c in characters {
        text.push(c)?;
    }
    Ok(text)
}

/// The string of the first ten of these characters. It has at least the first ten bytes of their
/// string, and all if they are fewer.
///
/// # Errors
/// Out of memory.
pub fn first_ten<A: Allocator>(alloc: A, characters: &[char]) -> Result<String<A>>
    ensures ok { IfOk result (λ text. chars (string_bytes text) ≡ take 10 characters.now) }
    ensures err { IfErr result IsOutOfMemory }
{
    let few = characters.len().min(10);
    text_of(alloc, &characters[..few])
}

/// How many bytes the string of these characters takes.
fn num_bytes(characters: &[char]) -> usize
    ensures { result ≡ length (encode_utf8_all characters.now) }
{
    let mut size = 0;
    for &c in characters {
        size += c.len_utf8();
    }
    size
}
