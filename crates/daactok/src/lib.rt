//! A tokenizer: it cuts a text into the words of a dictionary and what stands between them.
//!
//! ```
//! let builder = CharwiseDoubleArrayAhoCorasickBuilder::new();
//! let builder = builder.match_kind(MatchKind::LeftmostLongest);
//! let words = ["東京", "京都", "東京都"];
//! let words: CharwiseDoubleArrayAhoCorasick<u32> = builder.build(rt.alloc(), words)?;
//! let tokenizer = Tokenizer::new(&words)?;
//! for token in tokenizer.tokens("東京都に") {
//!     // 東京都 from 0 to 9 with the value 2, then に from 9 to 12 with none
//!     println!(rt; "{} {} {} {:?}", token.text, token.start, token.end, token.value)?;
//! }
//! ```
#![tactic(auto)]

ghost use Rattle.std.specs.Prelude.{◌≡◌, ◌≢◌, ◌≤◌, ◌++◌, [], IfNone, length, option_to_list};
ghost use Rattle.std.specs.List.{All, AllAdjacentBelow, flat_map};
ghost use Rattle.std.specs.Result.{OkIff};
ghost use Rattle.std.specs.Str.{IsCharBoundary};
ghost use Rattle.daachorse_model.specs.declared.MatchKind.TheVariants.{Standard};
ghost use Rattle.daachorse.specs.charwise.Automata.{dictionary_of, kind_of};
ghost use Rattle.daactok.specs.Tokens.{IsKnownOne, piece, seen, tokens};

use daachorse::charwise::iter::LeftmostFindIterator;
use daachorse::{CharwiseDoubleArrayAhoCorasick, Match};
use std::alloc::{Allocator, Global};
use std::marker::Model;
use thiserror::Error;

/// Why a dictionary cannot be used to cut texts.
#[derive(Clone, Copy, Debug, PartialEq, Eq, Error)]
pub enum TokenizerError {
    /// The empty text is a word, which would match everywhere.
    #[error("EmptyPattern: the dictionary holds the empty pattern")]
    EmptyPattern,
}

/// A part of a text: a word of the dictionary, or a stretch between two words.
#[derive(Clone, Copy, Debug, PartialEq, Eq)]
pub struct Token<'a, V> {
    /// The part itself.
    pub text: &'a str,
    /// The byte offset where it starts.
    pub start: usize,
    /// The offset after its last byte.
    pub end: usize,
    /// The value of the word, or `None` if the part is no word.
    pub value: Option<V>,
}

/// Cuts texts into the words of a dictionary and what stands between them.
#[derive(Drop)]
pub struct Tokenizer<'a, V: Copy, A: Allocator = Global> {
    words: &'a CharwiseDoubleArrayAhoCorasick<V, A>,
}

impl<'a, V: Copy, A: Allocator> Model for Tokenizer<'a, V, A> {
    ghost use Rattle.std.specs.Prelude.{◌≡◌, ◌≢◌, []};
    ghost use Rattle.daachorse_model.specs.declared.MatchKind.TheVariants.{Standard};
    ghost use Rattle.daachorse.specs.charwise.Automata.{Automaton, dictionary_of, kind_of};

    ghost Value = { Automaton V };

    ghost view = { λ t. t.words.now };

    ghost invariant = { λ t. (kind_of t.words.now ≢ Standard) × (dictionary_of t.words.now [] ≡ []) };
}

impl<'a, V: Copy, A: Allocator + Copy> Tokenizer<'a, V, A> {
    /// Makes a tokenizer for the words that the automaton holds. Its kind must be a leftmost one,
    /// and decides between words that start at the same place. Fails if the empty text is a word.
    pub fn new(words: &'a CharwiseDoubleArrayAhoCorasick<V, A>) -> Result<Self, TokenizerError>
        requires { kind_of words.now ≢ Standard }
        ensures { OkIff result (dictionary_of words.entry.now [] ≡ []) words.entry.now }
    {
        match words.leftmost_find_iter("").next() {
            Some(_) => Err(TokenizerError::EmptyPattern),
            None => Ok(Tokenizer { words }),
        }
    }

    /// Cuts a text into tokens: the leftmost matches, and the nonempty stretches between them, with
    /// no value. Tokens keep the case of the text, even if the automaton ignores it.
    #[inline]
    pub fn tokens(&self, text: &'a str) -> Tokens<'a, V, A>
        ensures list { result ≡ tokens self.entry.now.folds (dictionary_of self.entry.now) text.entry.now }
        ensures joined { flat_map (λ t. t.text) result ≡ text.entry.now }
        ensures few { length result ≤ length text.entry.now }
        ensures nonempty { All (λ t. t.text ≢ []) result }
        ensures apart { AllAdjacentBelow IsKnownOne result (length result) }
    {
        Tokens {
            text,
            place: 0,
            known: None,
            matches: self.words.leftmost_find_iter(text),
        }
    }
}

/// The tokens of a text, in order. It allocates nothing.
#[derive(Drop)]
pub struct Tokens<'a, V: Copy, A: Allocator = Global> {
    text: &'a str,
    // Where the next token starts.
    place: usize,
    // The next match, if it was found already.
    known: Option<Match<V>>,
    matches: LeftmostFindIterator<'a, V, A>,
}

impl<'a, V: Copy, A: Allocator> Model for Tokens<'a, V, A> {
    ghost use Rattle.std.specs.Prelude.{List, ◌++◌, option_to_list};
    ghost use Rattle.daactok.specs.Tokens.{FollowOneAnother, Piece, tokens_from};

    ghost Value = { List (Piece V) };

    ghost view = { λ s. tokens_from s.text.now s.place (option_to_list s.known ++ s.matches.left) };

    ghost invariant = { λ s. FollowOneAnother s.text.now s.place (option_to_list s.known ++ s.matches.left) };
}

impl<'a, V: Copy, A: Allocator> Iterator for Tokens<'a, V, A> {
    ghost use Rattle.std.specs.Iterator.{YieldsFirstBy, item_count};

    type Item = Token<'a, V>;

    ghost next_gives = { YieldsFirstBy seen (λ s. s) };

    ghost remaining = { item_count (λ s. s) };

    #[inline]
    fn next(&mut self) -> Option<Token<'a, V>> {
        find_known(&mut self.known, &mut self.matches);
        let start = self.place;
        match self.known {
            Some(found) if start < found.start => {
                self.place = found.start;
                Some(part(self.text, start, found.start, None))
            }
            Some(found) => {
                self.known = None;
                self.place = found.end;
                Some(part(self.text, start, found.end, Some(found.value)))
            }
            None if start < self.text.len() => {
                self.place = self.text.len();
                Some(part(self.text, start, self.text.len(), None))
            }
            None => None,
        }
    }
}

// Finds the next match, unless it was found already.
#[inline(always)]
fn find_known<'a, V: Copy, A: Allocator>(
    known: &mut Option<Match<V>>,
    matches: &mut LeftmostFindIterator<'a, V, A>,
)
    ensures same { option_to_list known.new ++ matches.new.left ≡ option_to_list known.old ++ matches.old.left }
    ensures last { IfNone known.new (matches.new.left ≡ []) }
{
    if known.is_none() {
        *known = matches.next();
    }
}

#[inline(always)]
fn part<V: Copy>(text: &str, start: usize, end: usize, value: Option<V>) -> Token<'_, V>
    requires ordered { start ≤ end }
    requires starts { IsCharBoundary text.now start }
    requires ends { IsCharBoundary text.now end }
    ensures { seen result ≡ piece text.entry.now start end value }
{
    Token {
        text: &text[start..end],
        start,
        end,
        value,
    }
}
