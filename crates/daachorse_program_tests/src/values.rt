//! Indexes as values: one that the type cannot hold is refused, and `Empty` holds each.

ghost use Rattle.std.specs.Iterator.{IsFinite};
ghost use Rattle.std.specs.Prelude.{◌≡◌};
ghost use Rattle.daachorse_model.specs.declared.MatchKind.TheVariants.{Standard};

use crate::expect;
use daachorse::{DoubleArrayAhoCorasick, Empty, Match, Result};
use std::alloc::Global;
use std::test::Fail;

/// Whether matches have the values 0 to 255 in turn.
fn is_each_byte<I: Iterator<Item = Match<u8>> + Drop>(mut search: I) -> bool
    requires can { (s : I) → I.can_next s }
    requires ends { IsFinite (I.remaining search) }
{
    for value in 0..=255u8 {
        match search.next() {
            Some(found) if found.value() == value => {}
            _ => return false,
        }
    }
    search.next().is_none()
}

/// Whether the matches in a haystack of one letter have the values 0 to 255 in turn.
fn has_each_byte(automaton: &DoubleArrayAhoCorasick<u8>) -> bool
    requires { automaton.now.parts.kind ≡ Standard }
{
    is_each_byte(automaton.find_overlapping_iter(b"a"))
}

/// Whether 256 equal patterns have the values 0 to 255 in turn.
fn are_numbered(alloc: Global) -> Result<bool> {
    let automaton = DoubleArrayAhoCorasick::new(alloc, [b"a".as_slice(); 256])?;
    Ok(has_each_byte(&automaton))
}

#[test]
fn an_index_without_a_value_is_refused(rt: HostRuntime) -> Result<(), Fail> {
    expect(&rt, are_numbered(rt.alloc())?, "256 patterns");
    let refused = DoubleArrayAhoCorasick::<u8>::new(rt.alloc(), [b"a".as_slice(); 257]);
    let Err(error) = refused else {
        panic!(rt; "257 patterns have values of 8 bits");
    };
    let text = error.to_string(rt.alloc())?;
    let same = text.as_str() == "InvalidConversionError: index cannot be converted to V";
    expect(&rt, same, "the text of the error");
    Ok(())
}

/// Whether there are exactly 300 matches.
fn are_300<I: Iterator<Item = Match<Empty>> + Drop>(mut search: I) -> bool
    requires can { (s : I) → I.can_next s }
    requires ends { IsFinite (I.remaining search) }
{
    for _ in 0..300u32 {
        if search.next().is_none() {
            return false;
        }
    }
    search.next().is_none()
}

/// Whether exactly 300 matches are found in a haystack of one letter.
fn has_300(automaton: &DoubleArrayAhoCorasick<Empty>) -> bool
    requires { automaton.now.parts.kind ≡ Standard }
{
    are_300(automaton.find_overlapping_iter(b"a"))
}

#[test]
fn every_index_is_an_empty_value(rt: HostRuntime) -> Result<(), Fail> {
    let automaton = DoubleArrayAhoCorasick::new(rt.alloc(), [b"a".as_slice(); 300])?;
    expect(&rt, has_300(&automaton), "300 patterns");
    Ok(())
}
