//! Patterns without regard to the case of ASCII letters.

ghost use Rattle.std.specs.Prelude.{◌≡◌, IfOk, IfErr};
ghost use Rattle.std.specs.Str.{chars};
ghost use Rattle.std.specs.String.{string_bytes};
ghost use Rattle.daachorse_core.specs.Refusals.{IsOutOfMemory};
ghost use Rattle.daachorse_model.specs.Folding.{folded_texts};
ghost use Rattle.daachorse_patterns.specs.Patterns.{texts_of};

use daachorse_core::errors::Result;
use std::alloc::Allocator;

/// Copies patterns of bytes, and folds each copy. Fails if an allocation does.
pub fn fold_bytes<V: Copy, A: Allocator + Copy>(
    alloc: A,
    patterns: &[(&[u8], V)],
) -> Result<Vec<(Vec<u8, A>, V), A>>
    ensures ok { IfOk result (λ copies. texts_of (λ c. c.items) copies.items ≡ folded_texts (texts_of (λ p. p.now) patterns.now)) }
    ensures err { IfErr result IsOutOfMemory }
{
    let mut copies = Vec::with_capacity(alloc, patterns.len())?;
    for (pattern, value) in patterns {
        let mut copy = Vec::from_slice(alloc, *pattern)?;
        copy.as_mut_slice().make_ascii_lowercase();
        copies.push((copy, *value))?;
    }
    Ok(copies)
}

/// Lends copies of bytes as patterns. Fails if an allocation does.
pub fn lend_bytes<'c, V: Copy, A: Allocator + Copy>(
    alloc: A,
    copies: &'c [(Vec<u8, A>, V)],
) -> Result<Vec<(&'c [u8], V), A>>
    ensures ok { IfOk result (λ lent. texts_of (λ p. p.now) lent.items ≡ texts_of (λ c. c.items) copies.now) }
    ensures err { IfErr result IsOutOfMemory }
{
    let mut lent = Vec::with_capacity(alloc, copies.len())?;
    for (copy, value) in copies {
        lent.push((copy.as_slice(), *value))?;
    }
    Ok(lent)
}

/// Copies patterns of text, and folds each copy. Fails if an allocation does.
pub fn fold_strings<V: Copy, A: Allocator + Copy>(
    alloc: A,
    patterns: &[(&str, V)],
) -> Result<Vec<(String<A>, V), A>>
    ensures ok { IfOk result (λ copies. texts_of (λ c. chars (string_bytes c)) copies.items ≡ folded_texts (texts_of (λ p. chars p.now) patterns.now)) }
    ensures err { IfErr result IsOutOfMemory }
{
    let mut copies = Vec::with_capacity(alloc, patterns.len())?;
    for (pattern, value) in patterns {
        let mut copy = String::from_str(alloc, *pattern)?;
        copy.make_ascii_lowercase();
        copies.push((copy, *value))?;
    }
    Ok(copies)
}

/// Lends copies of text as patterns. Fails if an allocation does.
pub fn lend_strings<'c, V: Copy, A: Allocator + Copy>(
    alloc: A,
    copies: &'c [(String<A>, V)],
) -> Result<Vec<(&'c str, V), A>>
    ensures ok { IfOk result (λ lent. texts_of (λ p. chars p.now) lent.items ≡ texts_of (λ c. chars (string_bytes c)) copies.now) }
    ensures err { IfErr result IsOutOfMemory }
{
    let mut lent = Vec::with_capacity(alloc, copies.len())?;
    for (copy, value) in copies {
        lent.push((copy.as_str(), *value))?;
    }
    Ok(lent)
}
