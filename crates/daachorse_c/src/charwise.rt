//! An automaton over characters, alone or with rows of the states near its root.

ghost use Rattle.std.specs.Prelude.{◌≡◌, ◌≢◌, ◌↔◌, [], Err, IfErr, IfOk, IfSome, IsTrue, None, Ok, false, slice_get};
ghost use Rattle.std.specs.Str.{chars};
ghost use Rattle.daachorse_model.specs.Folding.{as_read};
ghost use Rattle.daachorse_model.specs.Matches.{overlapping};
ghost use Rattle.daachorse_model.specs.Units.{char_width};
ghost use Rattle.daachorse_charwise_states.specs.StateRows.{HasNoRoom};
ghost use Rattle.daachorse.specs.charwise.Automata.{dictionary_of, kind_of, states_of};
ghost use Rattle.daachorse_streams.specs.ByKind.{non_overlapping};
ghost use Rattle.daachorse_c.specs.declared.refusal.Refusal.TheVariants.{OutOfMemory};
ghost use Rattle.daachorse_c.specs.declared.search.SearchKind.TheVariants.{Whole};
ghost use Rattle.daachorse_c.specs.Held.{has_character_rows, over_characters};
ghost use Rattle.daachorse_c.specs.Refusals.{refusal_of};
ghost use Rattle.daachorse_c.specs.Searches.{ServesKind, found_by};
ghost use Rattle.daachorse_c.specs.Writes.{Writes};

use crate::found::{CMatch, fill};
use crate::refusal::Refusal;
use crate::search::SearchKind;
use daachorse::charwise::{AccelerateError, Accelerated};
use daachorse::{CharwiseDoubleArrayAhoCorasick, Match};
use std::alloc::Global;

/// What searches text.
#[derive(Drop)]
pub enum Charwise {
    /// The automaton.
    Plain(CharwiseDoubleArrayAhoCorasick<u32, Global>),
    /// The automaton with rows, which finds the same faster.
    Rowed(Accelerated<u32, Global>),
}

impl Charwise {
    /// A copy of the automaton, with rows unless it is too large. Fails only if an allocation
    /// fails.
    pub(crate) fn accelerated(&self, alloc: Global) -> Result<Charwise, Refusal>
        ensures same { IfOk result (λ s. over_characters s ≡ over_characters self.now) }
        ensures rows { IfOk result (λ s. has_character_rows s ≡ false → HasNoRoom (states_of (over_characters self.now))) }
        ensures err { IfErr result (λ r. r ≡ OutOfMemory) }
    {
        Charwise::of_answer(self.automaton().clone()?.accelerate(alloc))
    }

    /// The automaton with its rows, or alone if it is too large for them. Fails if an allocation
    /// failed.
    fn of_answer(
        answer: Result<
            Accelerated<u32, Global>,
            AccelerateError<CharwiseDoubleArrayAhoCorasick<u32, Global>>,
        >,
    ) -> Result<Charwise, Refusal>
        ensures rowed { IfOk answer (λ a. result ≡ Ok (Charwise.Rowed a)) }
        ensures plain { IfErr answer (λ e. e.refusal ≡ None → result ≡ Ok (Charwise.Plain e.automaton)) }
        ensures err { IfErr answer (λ e. IfSome e.refusal (λ error. result ≡ Err (refusal_of error))) }
    {
        match answer {
            Ok(rowed) => Ok(Charwise::Rowed(rowed)),
            Err(AccelerateError { automaton, refusal }) => match refusal {
                None => Ok(Charwise::Plain(automaton)),
                Some(error) => Err(error.into()),
            },
        }
    }

    /// The automaton alone.
    pub(crate) fn automaton(&self) -> &CharwiseDoubleArrayAhoCorasick<u32, Global>
        ensures { result.now ≡ over_characters self.now }
    {
        match self {
            Charwise::Plain(automaton) => automaton,
            Charwise::Rowed(rowed) => rowed.automaton(),
        }
    }

    /// Writes the first matches of a search that serves the automaton's kind.
    pub(crate) fn find(&self, search: SearchKind, haystack: &str, out: &mut [CMatch]) -> usize
        requires { ServesKind search (kind_of (over_characters self.now)) }
        ensures { Writes (found_by char_width search (dictionary_of (over_characters self.now)) (as_read (over_characters self.now).folds (chars haystack.now))) out.old out.new result }
    {
        match search {
            SearchKind::Find => match self {
                Charwise::Plain(plain) => fill(plain.find_iter(haystack), out),
                Charwise::Rowed(rowed) => fill(rowed.find_iter(haystack), out),
            },
            SearchKind::Overlapping => match self {
                Charwise::Plain(plain) => fill(plain.find_overlapping_iter(haystack), out),
                Charwise::Rowed(rowed) => fill(rowed.find_overlapping_iter(haystack), out),
            },
            SearchKind::NoSuffix => match self {
                Charwise::Plain(plain) => fill(
                    plain.find_overlapping_no_suffix_iter(haystack),
                    out,
                ),
                Charwise::Rowed(rowed) => fill(
                    rowed.find_overlapping_no_suffix_iter(haystack),
                    out,
                ),
            },
            SearchKind::Leftmost => match self {
                Charwise::Plain(plain) => fill(plain.leftmost_find_iter(haystack), out),
                Charwise::Rowed(rowed) => fill(rowed.leftmost_find_iter(haystack), out),
            },
            SearchKind::Whole => find_whole(self.automaton(), haystack, out),
            SearchKind::Prefixes => fill(self.automaton().common_prefixes(haystack), out),
        }
    }

    /// Returns whether some pattern occurs.
    pub(crate) fn is_match(&self, haystack: &str) -> bool
        ensures { IsTrue result ↔ (overlapping char_width (dictionary_of (over_characters self.now)) (as_read (over_characters self.now).folds (chars haystack.now)) ≢ []) }
    {
        match self {
            Charwise::Plain(plain) => plain.is_match(haystack),
            Charwise::Rowed(rowed) => rowed.is_match(haystack),
        }
    }

    /// Returns the first match that the search of the automaton's kind finds.
    pub(crate) fn first(&self, haystack: &str) -> Option<Match<u32>>
        ensures { result ≡ slice_get (non_overlapping (kind_of (over_characters self.now)) char_width (dictionary_of (over_characters self.now)) (as_read (over_characters self.now).folds (chars haystack.now))) 0 }
    {
        match self {
            Charwise::Plain(plain) => plain.find(haystack),
            Charwise::Rowed(rowed) => rowed.find(haystack),
        }
    }
}

/// Writes the patterns that are the whole text.
fn find_whole(
    automaton: &CharwiseDoubleArrayAhoCorasick<u32, Global>,
    text: &str,
    out: &mut [CMatch],
) -> usize
    ensures { Writes (found_by char_width Whole (dictionary_of automaton.now) (as_read automaton.now.folds (chars text.now))) out.old out.new result }
{
    let end = text.len();
    let values = automaton.get(text);
    fill(
        values.map(|value| Match {
            start: 0,
            end,
            value,
        }),
        out,
    )
}
