//! Texts, where no contract speaks: the characters of a few of them.

use super::expect;
use daachorse_haystack::decoding::CharWithEndOffsetIterator;
use daachorse_haystack::haystack::{Bytes, Haystack};
use daachorse_haystack::text::Text;
use std::alloc::{AllocError, Global};
use std::test::Fail;

/// The characters of a string with their end offsets, decoded from its bytes.
fn characters_with_ends(alloc: Global, text: &str) -> Result<Vec<(usize, char)>, AllocError> {
    CharWithEndOffsetIterator::new(Bytes::new(text.as_bytes(), false)).collect(alloc)
}

/// The first and last character of each width, and those next to surrogates, with end offsets.
const BOUNDS: [(usize, char); 10] = [
    (1, '\0'),
    (2, '\u{7f}'),
    (4, '\u{80}'),
    (6, '\u{7ff}'),
    (9, '\u{800}'),
    (12, '\u{d7ff}'),
    (15, '\u{e000}'),
    (18, '\u{ffff}'),
    (22, '\u{10000}'),
    (26, '\u{10ffff}'),
];

/// One character of each width, with its end offset.
const WIDTHS: [(usize, char); 4] = [(1, 'a'), (3, 'é'), (6, 'に'), (10, '\u{10000}')];

#[test]
fn characters_come_with_their_ends(rt: HostRuntime) -> Result<(), Fail> {
    let pairs = characters_with_ends(rt.alloc(), "aéに\u{10000}")?;
    expect(&rt, pairs.as_slice() == WIDTHS.as_slice(), "each width");
    let text = "\0\u{7f}\u{80}\u{7ff}\u{800}\u{d7ff}\u{e000}\u{ffff}\u{10000}\u{10ffff}";
    let pairs = characters_with_ends(rt.alloc(), text)?;
    expect(&rt, pairs.as_slice() == BOUNDS.as_slice(), "the pairs");
    let mut later = Text::new(text, false);
    for (end, character) in &BOUNDS {
        expect(&rt, later.next() == Some(*character), "the character");
        expect(&rt, later.left() == 26 - end, "what is left");
    }
    expect(&rt, later.next().is_none(), "the end");
    Ok(())
}
