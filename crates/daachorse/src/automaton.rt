//! An automaton over what its searches go through.

ghost use Rattle.std.specs.Prelude.{◌≡◌};
ghost use Rattle.daachorse_model.specs.Prefixes.{HasPrefixes};

mod by_kind;
pub mod gathers;
mod readers;
mod replacing;
mod rewriting;
mod searches;
mod streams;

use daachorse_core::MatchKind;
use daachorse_streams::searched::Searched;
use std::marker::Model;

/// An automaton that finds many patterns at once, over what its searches go through: its states, or
/// these with rows.
///
/// Over bytes ([`crate::bytewise`]) a haystack is a `&[u8]`, and over characters
/// ([`crate::charwise`]) a `&str`. That is the type `S::Text` below.
#[derive(Drop)]
pub struct AhoCorasick<S: Drop> {
    pub(crate) searched: S,
}

impl<S: Drop> Model for AhoCorasick<S> {
    ghost Value = { S };

    ghost view = { λ s. s.searched };
}

impl<S: Drop> AhoCorasick<S> {
    /// Returns what its searches go through.
    #[inline(always)]
    pub fn searched(&self) -> &S
        ensures { result.now ≡ self.entry.now }
    {
        &self.searched
    }
}

impl<S: Searched> AhoCorasick<S> {
    /// Returns the kind of searches that the automaton is for.
    pub fn match_kind(&self) -> MatchKind
        ensures { result ≡ S.kind self.now }
    {
        self.searched.match_kind()
    }

    /// Returns whether searches ignore the case of ASCII letters.
    pub fn is_ascii_case_insensitive(&self) -> bool
        ensures { result ≡ S.folds self.now }
    {
        self.searched.is_ascii_case_insensitive()
    }

    /// Returns the number of states: one for each prefix of a pattern, the empty one included.
    pub fn num_states(&self) -> usize
        ensures { HasPrefixes (S.dictionary self.now) result }
    {
        self.searched.num_states()
    }
}
