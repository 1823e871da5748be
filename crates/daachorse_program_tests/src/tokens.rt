//! `daactok`: worked rows, over automata as built and as read back.

ghost use Rattle.std.specs.Prelude.{◌≡◌, IfOk};
ghost use Rattle.daachorse.specs.charwise.Automata.{kind_of};

use crate::expect;
use daachorse::{
    CharwiseDoubleArrayAhoCorasick, CharwiseDoubleArrayAhoCorasickBuilder, MatchKind, Result,
};
use daactok::Tokenizer;
use std::alloc::Global;
use std::test::Fail;

type Words = CharwiseDoubleArrayAhoCorasick<u32>;

fn build(alloc: Global, kind: MatchKind, folds: bool, words: &[&str]) -> Result<Words>
    ensures { IfOk result (λ a. kind_of a ≡ kind) }
{
    let builder = CharwiseDoubleArrayAhoCorasickBuilder::new()
        .match_kind(kind)
        .ascii_case_insensitive(folds);
    builder.build(alloc, words.iter().copied())
}

/// Writes an automaton, and reads it back with checks.
fn read_back(alloc: Global, words: &Words) -> Result<Words> {
    let bytes = words.serialize(alloc)?;
    Ok(CharwiseDoubleArrayAhoCorasick::deserialize(alloc, &bytes)?.0)
}

/// A token: its text, its start, its end, and its value if it is a word.
type Piece = (&'static str, usize, usize, Option<u32>);

/// Whether the words cut the text into these tokens; false if the tokenizer is refused.
fn cuts(words: &Words, text: &str, expected: &[Piece]) -> bool {
    if words.match_kind().is_standard() {
        return false;
    }
    let Ok(tokenizer) = Tokenizer::new(words) else {
        return false;
    };
    let mut left = expected.iter();
    for token in tokenizer.tokens(text) {
        let piece = (token.text, token.start, token.end, token.value);
        if left.next() != Some(&piece) {
            return false;
        }
    }
    left.next().is_none()
}

/// A kind of searches, whether they ignore case, words, a text, and its tokens.
type Row = (
    MatchKind,
    bool,
    &'static [&'static str],
    &'static str,
    &'static [Piece],
);

const ROWS: [Row; 6] = [
    (
        MatchKind::LeftmostLongest,
        false,
        &["東京", "京都", "東京都"],
        "東京都に",
        &[("東京都", 0, 9, Some(2)), ("に", 9, 12, None)],
    ),
    (
        MatchKind::LeftmostFirst,
        false,
        &["ab", "abc"],
        "xabcab",
        &[
            ("x", 0, 1, None),
            ("ab", 1, 3, Some(0)),
            ("c", 3, 4, None),
            ("ab", 4, 6, Some(0)),
        ],
    ),
    (
        MatchKind::LeftmostLongest,
        false,
        &["ab"],
        "ab",
        &[("ab", 0, 2, Some(0))],
    ),
    (
        MatchKind::LeftmostLongest,
        false,
        &[],
        "ab",
        &[("ab", 0, 2, None)],
    ),
    (MatchKind::LeftmostLongest, false, &[], "", &[]),
    (
        MatchKind::LeftmostLongest,
        true,
        &["the"],
        "The THE",
        &[
            ("The", 0, 3, Some(0)),
            (" ", 3, 4, None),
            ("THE", 4, 7, Some(0)),
        ],
    ),
];

#[test]
fn a_text_is_cut_at_its_words(rt: HostRuntime) -> Result<(), Fail> {
    for (kind, folds, words, text, expected) in ROWS {
        let words = build(rt.alloc(), kind, folds, words)?;
        expect(&rt, cuts(&words, text, expected), text);
        let read = read_back(rt.alloc(), &words)?;
        expect(&rt, cuts(&read, text, expected), text);
    }
    Ok(())
}

#[test]
fn a_dictionary_with_the_empty_text_is_refused(rt: HostRuntime) -> Result<(), Fail> {
    let words = build(rt.alloc(), MatchKind::LeftmostLongest, false, &["a", ""])?;
    let Err(error) = Tokenizer::new(&words) else {
        panic!(rt; "the empty text is a word");
    };
    let text = error.to_string(rt.alloc())?;
    let same = text.as_str() == "EmptyPattern: the dictionary holds the empty pattern";
    expect(&rt, same, "the text of the error");
    Ok(())
}
