//! `daachorse_uses`, where no contract speaks: what is found in a stream.

ghost use Rattle.std.specs.Prelude.{◌≡◌, IfOk};
ghost use Rattle.daachorse_model.specs.declared.MatchKind.TheVariants.{Standard};

use crate::expect;
use daachorse::{CharwiseDoubleArrayAhoCorasick, DoubleArrayAhoCorasick, Match, Result};
use daachorse_uses::stream::{
    count_in_reader, first_in_characters, first_in_reader, name_matches, redact_log,
};
use std::alloc::Global;
use std::io;
use std::test::Fail;

type Bytewise = DoubleArrayAhoCorasick<u32>;

type Charwise = CharwiseDoubleArrayAhoCorasick<u32>;

/// A text, the start, end and value of the match that ends first, what is not read of the text, and
/// the text with the values of its matches.
type StreamRow = (
    &'static str,
    Option<(usize, usize, u32)>,
    &'static str,
    &'static str,
);

const STREAM_ROWS: &[StreamRow] = &[
    ("xbxyy", Some((1, 3, 1)), "yy", "x[1]yy"),
    ("abxabcd", Some((1, 3, 1)), "abcd", "a[1][0]"),
    ("にabcdに", Some((3, 7, 0)), "に", "に[0]に"),
    ("abcabc", None, "", "abcabc"),
    ("", None, "", ""),
];

fn is_first(found: Option<Match<u32>>, expected: Option<(usize, usize, u32)>) -> bool {
    match (found, expected) {
        (Some(found), Some((start, end, value))) => {
            found.start() == start && found.end() == end && found.value() == value
        }
        (None, None) => true,
        _ => false,
    }
}

/// The automaton of the words over bytes.
fn over_bytes(alloc: Global) -> Result<Bytewise>
    ensures { IfOk result (λ a. a.parts.kind ≡ Standard) }
{
    DoubleArrayAhoCorasick::new(alloc, [b"abcd".as_slice(), b"bx"])
}

/// Whether the first match in bytes that are read is that of a row.
fn is_first_read(alloc: Global, row: &StreamRow) -> io::Result<bool> {
    let (text, expected, left, _) = *row;
    let mut bytes = text.as_bytes();
    let found = first_in_reader(&over_bytes(alloc)?, &mut bytes)?;
    Ok(is_first(found, expected) && bytes == left.as_bytes())
}

/// Whether matches in bytes that are read are named as in a row.
fn are_named(alloc: Global, row: &StreamRow) -> io::Result<bool> {
    let (text, _, _, named) = *row;
    let mut out = Vec::new(alloc);
    name_matches(&over_bytes(alloc)?, alloc, text.as_bytes(), &mut out)?;
    Ok(out.as_slice() == named.as_bytes())
}

/// Whether there are as many matches in bytes that are read as in a row.
fn are_counted(alloc: Global, row: &StreamRow) -> io::Result<bool> {
    let (text, _, _, named) = *row;
    let count = count_in_reader(&over_bytes(alloc)?, text.as_bytes())?;
    Ok(count == named.bytes().filter(|byte| *byte == b'[').count())
}

/// Whether the first match in characters that come one by one is that of a row.
fn is_first_given(alloc: Global, row: &StreamRow) -> Result<bool> {
    let (text, expected, _, _) = *row;
    let words: Charwise = CharwiseDoubleArrayAhoCorasick::new(alloc, ["abcd", "bx"])?;
    Ok(is_first(first_in_characters(&words, text.chars()), expected))
}

#[test]
fn streams_are_searched(rt: HostRuntime) -> Result<(), Fail> {
    for row in STREAM_ROWS {
        expect(&rt, is_first_read(rt.alloc(), row)?, row.0);
        expect(&rt, are_named(rt.alloc(), row)?, row.0);
        expect(&rt, are_counted(rt.alloc(), row)?, row.0);
        expect(&rt, is_first_given(rt.alloc(), row)?, row.0);
    }
    Ok(())
}

/// A log, and what is left of it without the secrets `secret` and `secretary`.
const LOGS: &[(&str, &str)] = &[
    ("the secretary", "the [...]"),
    ("a secretion, secret", "a [...]ion, [...]"),
    ("secretsecretary\n", "[...][...]\n"),
    ("secre", "secre"),
    ("", ""),
];

fn is_redacted(alloc: Global, log: &str, expected: &str) -> io::Result<bool> {
    let mut out = Vec::new(alloc);
    redact_log("secret\n\nsecretary\n", alloc, log.as_bytes(), &mut out)?;
    Ok(out.as_slice() == expected.as_bytes())
}

#[test]
fn logs_are_redacted(rt: HostRuntime) -> Result<(), Fail> {
    for (log, expected) in LOGS {
        expect(&rt, is_redacted(rt.alloc(), log, expected)?, log);
    }
    Ok(())
}
