//! Iterators are asked again behind their end.

use crate::automata::{Automaton, BUILT, Bytewise, LONGEST, Patvals};
use crate::expect;
use crate::finding::{are, at};
use daachorse::Result;
use std::alloc::Global;
use std::test::Fail;

const WORDS: Patvals = &[("ab", 0), ("abc", 1), ("ab", 2)];

/// Whether the search of a slice ends.
fn ends_in_slice(words: &Bytewise) -> bool {
    words.match_kind().is_standard() && are(words.find_iter(b"xabcab"), &[at(1, 3, 0), at(4, 6, 0)])
}

/// Whether the leftmost search of a slice ends.
fn ends_leftmost(words: &Bytewise) -> bool {
    !words.match_kind().is_standard()
        && are(
            words.leftmost_find_iter(b"xabcab"),
            &[at(1, 4, 1), at(4, 6, 0)],
        )
}

/// Whether the values of a pattern end.
fn ends_in_values(words: &Bytewise) -> bool {
    are(words.get(b"ab"), &[0, 2])
}

/// Whether the patterns that begin a text end.
fn ends_in_prefixes(words: &Bytewise) -> bool {
    let expected = [at(0, 2, 0), at(0, 2, 2), at(0, 3, 1)];
    are(words.common_prefixes(b"abcab"), &expected)
}

/// Whether a leftmost stream gives what its end decides, and nothing behind it.
fn ends_in_stream(alloc: Global, words: &Bytewise) -> Result<bool> {
    if words.match_kind().is_standard() {
        return Ok(false);
    }
    let marks = words.stream_marks(alloc)?;
    let mut stream = words.leftmost_stream(alloc, &marks)?;
    if stream.next_certain().is_some() {
        return Ok(false);
    }
    stream.end();
    Ok(stream.next_certain().is_none() && stream.next_certain().is_none())
}

#[test]
fn nothing_comes_behind_the_end(rt: HostRuntime) -> Result<(), Fail> {
    let words = Bytewise::built(rt.alloc(), BUILT, WORDS)?;
    expect(&rt, ends_in_slice(&words), "a search");
    expect(&rt, ends_in_values(&words), "values");
    expect(&rt, ends_in_prefixes(&words), "prefixes");
    let words = Bytewise::built(rt.alloc(), LONGEST, WORDS)?;
    expect(&rt, ends_leftmost(&words), "a leftmost search");
    expect(&rt, ends_in_stream(rt.alloc(), &words)?, "a stream");
    Ok(())
}
