//! Counts the words of a text, and measures its longest token.

ghost use Rattle.std.specs.Prelude.{◌≡◌, count_by, fold, length, map, max};
ghost use Rattle.std.specs.Option.{is_some};
ghost use Rattle.daachorse.specs.charwise.Automata.{dictionary_of};
ghost use Rattle.daactok.specs.Tokens.{tokens};

use daactok::Tokenizer;

/// Returns how many tokens of a text are words of the dictionary.
pub fn count_words<V: Copy>(tokenizer: &Tokenizer<V>, text: &str) -> usize
    ensures { result ≡ count_by (λ t. is_some t.value) (tokens tokenizer.now.folds (dictionary_of tokenizer.now) text.now) }
{
    let mut words = 0;
    for token in tokenizer.tokens(text) {
        if token.value.is_some() {
            words += 1;
        }
    }
    words
}

/// Returns the length of the longest token in bytes, or 0 if there is none.
pub fn longest_token<V: Copy>(tokenizer: &Tokenizer<V>, text: &str) -> usize
    ensures { result ≡ fold max 0 (map (λ t. length t.text) (tokens tokenizer.now.folds (dictionary_of tokenizer.now) text.now)) }
{
    tokenizer
        .tokens(text)
        .fold(0, |longest: usize, token| longest.max(token.text.len()))
}
