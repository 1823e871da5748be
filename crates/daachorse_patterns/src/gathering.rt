//! The items of an iterator, and the value of each item's index.
#![tactic(auto, using(daachorse_core::proofs::Failures::failures))]

ghost use Rattle.std.specs.Prelude.{◌≡◌, ◌⊎◌, IfOk, IfErr};
ghost use Rattle.std.specs.Iterator.{IsFinite};
ghost use Rattle.std.specs.Iterator.Runs.{WholeRun};
ghost use Rattle.daachorse_core.specs.Refusals.{IsOutOfMemory};
ghost use Rattle.daachorse_patterns.specs.Patterns.{AreIndexed, HasNoValue};

use daachorse_core::errors::{DaachorseError, Result};
use std::alloc::Allocator;

/// All items of an iterator. Fails if an allocation does.
///
/// Room is made as they come, not by the iterator's own estimate, so that every refused growth is
/// an error.
pub fn gather<T: Copy, I: Iterator<Item = T> + Drop, A: Allocator>(
    alloc: A,
    items: I,
) -> Result<Vec<T, A>>
    requires can { I.can_next items }
    requires ends { IsFinite (I.remaining items) }
    ensures ok { IfOk result (λ all. WholeRun I.next_gives items (λ p. all.items ≡ p.items)) }
    ensures err { IfErr result IsOutOfMemory }
{
    let mut all = Vec::new(alloc);
    for item in items {
        all.push(item)?;
    }
    Ok(all)
}

/// The items, each with the value that its index, counted from 0, converts to.
///
/// # Errors
/// `InvalidConversion` if an index has no value, or out of memory.
pub fn indexed<T: Copy, V: Copy + TryFrom<usize>, A: Allocator + Copy>(
    alloc: A,
    items: &[T],
) -> Result<Vec<(T, V), A>>
where
    V::Error: Drop,
    ensures ok { IfOk result (λ pairs. AreIndexed V.try_from_gives 0 items.now pairs.items) }
    ensures err { IfErr result (λ e. IsOutOfMemory e
        ⊎ ((e ≡ DaachorseError.InvalidConversion (record {})) × HasNoValue V.try_from_gives items.now)) }
{
    let mut pairs = Vec::with_capacity(alloc, items.len())?;
    for (index, item) in items.iter().enumerate() {
        let Ok(value) = V::try_from(index) else {
            return Err(DaachorseError::invalid_conversion());
        };
        pairs.push((*item, value))?;
    }
    Ok(pairs)
}
