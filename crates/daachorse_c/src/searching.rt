//! Searches in a haystack that the automaton can read.

ghost use Rattle.std.specs.Prelude.{◌≡◌, ◌≢◌, ◌↔◌, [], ◌∷◌, ℕ, List, IsTrue, MatchOption, drop, length, slice_get};
ghost use Rattle.daachorse_model.specs.Matches.{overlapping};
ghost use Rattle.daachorse_streams.specs.ByKind.{non_overlapping};
ghost use Rattle.daachorse_c.specs.Automata.{Reads, dictionary_of, kind_of, text_read, unit_of, width_of};
ghost use Rattle.daachorse_c.specs.Held.{haystack_of, searched};
ghost use Rattle.daachorse_c.specs.Places.{IsPlaceIn};
ghost use Rattle.daachorse_c.specs.Searches.{ServesKind, finds};
ghost use Rattle.daachorse_c.specs.Units.{units_in};
ghost use Rattle.daachorse_c.specs.Writes.{Writes};

use crate::bytewise::Bytewise;
use crate::charwise::Charwise;
use crate::found::CMatch;
use crate::search::SearchKind;
use daachorse::{Match, MatchKind};

/// An automaton and a haystack that it can read.
#[derive(Drop)]
pub enum Search<'a> {
    /// An automaton over bytes, and bytes.
    Bytes(&'a Bytewise, &'a [u8]),
    /// An automaton over characters, and text.
    Characters(&'a Charwise, &'a str),
}

impl<'a> Search<'a> {
    /// The kind of searches that the automaton is for.
    pub(crate) fn match_kind(&self) -> MatchKind
        ensures { result ≡ kind_of (searched self.now) }
    {
        match self {
            Search::Bytes(bytewise, _) => bytewise.automaton().match_kind(),
            Search::Characters(charwise, _) => charwise.automaton().match_kind(),
        }
    }

    /// The bytes of the haystack.
    pub(crate) fn bytes(&self) -> &'a [u8]
        ensures bytes { result.now ≡ haystack_of self.now }
        ensures text { Reads (searched self.now) result.now }
    {
        match self {
            Search::Bytes(_, haystack) => haystack,
            Search::Characters(_, text) => text.as_bytes(),
        }
    }

    /// The number of bytes of the haystack.
    pub(crate) fn len(&self) -> usize
        ensures { result ≡ length (haystack_of self.now) }
    {
        self.bytes().len()
    }

    /// The same with what comes from a place on. There is nothing after the haystack or inside a
    /// character.
    pub(crate) fn part(&self, from: usize) -> Option<Search<'a>>
        ensures { MatchOption result (¬ IsPlaceIn (searched self.now) (haystack_of self.now) from)
            (λ s. IsPlaceIn (searched self.now) (haystack_of self.now) from × (searched s ≡ searched self.now) × (haystack_of s ≡ drop from (haystack_of self.now))) }
    {
        match self {
            Search::Bytes(bytewise, haystack) => match haystack.get(from..) {
                Some(rest) => Some(Search::Bytes(bytewise, rest)),
                None => None,
            },
            Search::Characters(charwise, text) => match text.get(from..) {
                Some(rest) => Some(Search::Characters(charwise, rest)),
                None => None,
            },
        }
    }

    /// The number of bytes of the first unit of the haystack, or 0 if there is none.
    pub(crate) fn first_len(&self) -> usize
        ensures { (u : ℕ) (rest : List ℕ) → units_in (unit_of (searched self.now)) (haystack_of self.now) ≡ u ∷ rest → result ≡ width_of (searched self.now) u }
    {
        match self {
            Search::Bytes(_, _) => 1,
            Search::Characters(_, text) => match text.chars().next() {
                Some(character) => character.len_utf8(),
                None => 0,
            },
        }
    }

    /// Writes the first matches of a search that serves the automaton's kind.
    pub(crate) fn find(&self, search: SearchKind, out: &mut [CMatch]) -> usize
        requires { ServesKind search (kind_of (searched self.now)) }
        ensures { Writes (finds search (searched self.now) (haystack_of self.now)) out.old out.new result }
    {
        match self {
            Search::Bytes(bytewise, haystack) => bytewise.find(search, haystack, out),
            Search::Characters(charwise, text) => charwise.find(search, text, out),
        }
    }

    /// Returns whether some pattern occurs.
    pub(crate) fn is_match(&self) -> bool
        ensures { IsTrue result ↔ (overlapping (width_of (searched self.now)) (dictionary_of (searched self.now)) (text_read (searched self.now) (haystack_of self.now)) ≢ []) }
    {
        match self {
            Search::Bytes(bytewise, haystack) => bytewise.is_match(haystack),
            Search::Characters(charwise, text) => charwise.is_match(text),
        }
    }

    /// Returns the first match that the search of the automaton's kind finds.
    pub(crate) fn first(&self) -> Option<Match<u32>>
        ensures { result ≡ slice_get (non_overlapping (kind_of (searched self.now)) (width_of (searched self.now)) (dictionary_of (searched self.now)) (text_read (searched self.now) (haystack_of self.now))) 0 }
    {
        match self {
            Search::Bytes(bytewise, haystack) => bytewise.first(haystack),
            Search::Characters(charwise, text) => charwise.first(text),
        }
    }
}
