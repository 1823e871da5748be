//! Compares what iterators give with what is expected, and asks on behind the end.

ghost use Rattle.std.specs.Iterator.{IsFinite};

use daachorse::errors::DaachorseError;
use daachorse::{Match, Result};
use std::alloc::Allocator;
use std::io::{self, ErrorKind};

/// The start, the end and the value of a match.
pub type Found = (usize, usize, u32);

/// A match.
pub fn at(start: usize, end: usize, value: u32) -> Match<u32> {
    Match { start, end, value }
}

/// Whether an iterator gives these items, in this order, and nothing behind them, however often it
/// is asked.
pub fn are<T: Copy + PartialEq, I: Iterator<Item = T> + Drop>(mut items: I, expected: &[T]) -> bool
    requires can { (s : I) → I.can_next s }
    requires ends { IsFinite (I.remaining items) }
{
    for wanted in expected {
        if items.next() != Some(*wanted) {
            return false;
        }
    }
    items.next().is_none() && items.next().is_none() && items.next().is_none()
}

/// Whether a search over a reader gives these matches, in this order, then this error, if there is
/// one, and nothing behind it, however often it is asked.
pub fn are_read<I: Iterator<Item = io::Result<Match<u32>>> + Drop>(
    mut items: I,
    expected: &[Found],
    error: Option<ErrorKind>,
) -> bool
    requires can { (s : I) → I.can_next s }
    requires ends { IsFinite (I.remaining items) }
{
    for wanted in expected {
        match items.next() {
            Some(Ok(found)) if (found.start(), found.end(), found.value()) == *wanted => {}
            _ => return false,
        }
    }
    let failure = match items.next() {
        Some(Ok(_)) => return false,
        Some(Err(failure)) => Some(failure.kind()),
        None => None,
    };
    failure == error && items.next().is_none() && items.next().is_none()
}

/// A pattern in bytes.
pub trait Pattern {
    fn bytes(&self) -> &[u8];
}

impl<A: Allocator> Pattern for Vec<u8, A> {
    fn bytes(&self) -> &[u8] {
        self
    }
}

impl<A: Allocator> Pattern for String<A> {
    fn bytes(&self) -> &[u8] {
        self.as_bytes()
    }
}

/// The outcome of a listing that returned an error: the error if nothing follows it, else false.
fn refused(error: DaachorseError, is_last: bool) -> Result<bool> {
    if is_last { Err(error) } else { Ok(false) }
}

/// Whether a listing gives exactly these patterns, in this order, and nothing behind them, however
/// often it is asked. An error is returned if the patterns before it are as expected and nothing
/// follows it.
pub fn are_listed<P: Pattern + Drop, I: Iterator<Item = Result<(P, u32)>> + Drop>(
    mut patterns: I,
    expected: &[(&str, u32)],
) -> Result<bool>
    requires can { (s : I) → I.can_next s }
    requires ends { IsFinite (I.remaining patterns) }
{
    for (text, number) in expected {
        match patterns.next() {
            Some(Ok((pattern, value))) => {
                if pattern.bytes() != text.as_bytes() || value != *number {
                    return Ok(false);
                }
            }
            Some(Err(error)) => return refused(error, patterns.next().is_none()),
            None => return Ok(false),
        }
    }
    Ok(patterns.next().is_none() && patterns.next().is_none())
}
