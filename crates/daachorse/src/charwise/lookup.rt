//! The automaton as a dictionary: each call walks down from the root, once along the text.

ghost use Rattle.std.specs.Prelude.{◌≡◌, ◌≢◌, ◌↔◌, IsTrue, []};
ghost use Rattle.std.specs.Str.{chars};
ghost use Rattle.daachorse_model.specs.Folding.{as_read};
ghost use Rattle.daachorse_model.specs.Units.{char_width};
ghost use Rattle.daachorse_array.specs.Lookups.{common_prefixes, longest_prefix};
ghost use Rattle.daachorse.specs.charwise.Automata.{dictionary_of};

use super::CharwiseDoubleArrayAhoCorasick;
use super::iter::{CommonPrefixIterator, ValueIterator};
use daachorse_array::longest::longest_prefix;
use daachorse_array::prefixes::CommonPrefixes;
use daachorse_array::values::values_of;
use daachorse_core::Match;
use daachorse_haystack::text::Text;
use std::alloc::Allocator;

impl<V: Copy, A: Allocator> CharwiseDoubleArrayAhoCorasick<V, A> {
    /// Returns the values of the pattern that equals `text`, in order of registration; none if
    /// there is none.
    ///
    /// Here and below an automaton for [`MatchKind::LeftmostFirst`](daachorse_core::MatchKind) has
    /// no pattern that extends one registered earlier.
    pub fn get<'a>(&'a self, text: &str) -> ValueIterator<'a, V>
        ensures { result ≡ dictionary_of self.entry.now (as_read self.entry.now.folds (chars text.now)) }
    {
        values_of(&self.searched.states, Text::new(text, self.searched.folds))
    }

    /// Returns whether `text` is a pattern.
    pub fn contains(&self, text: &str) -> bool
        ensures { IsTrue result ↔ (dictionary_of self.now (as_read self.now.folds (chars text.now)) ≢ []) }
    {
        self.get(text).next().is_some()
    }

    /// Returns the longest pattern that begins `text`, with the value registered first.
    ///
    /// Of `ab`, `abcd` and `b` in `abcde` this is `abcd` from 0 to 4.
    pub fn longest_prefix(&self, text: &str) -> Option<Match<V>>
        ensures { result ≡ longest_prefix char_width (dictionary_of self.now) (as_read self.now.folds (chars text.now)) }
    {
        longest_prefix(&self.searched.states, Text::new(text, self.searched.folds))
    }

    /// Finds each pattern that begins `text`, the shortest first, equal ones in order of
    /// registration.
    ///
    /// Of `ab`, `abcd` and `b` in `abcde` these are `ab` from 0 to 2 and `abcd` from 0 to 4.
    pub fn common_prefixes<'a>(&'a self, text: &'a str) -> CommonPrefixIterator<'a, V, A>
        ensures { result ≡ common_prefixes char_width (dictionary_of self.entry.now) (as_read self.entry.now.folds (chars text.entry.now)) }
    {
        CommonPrefixes::new(&self.searched.states, Text::new(text, self.searched.folds))
    }
}
