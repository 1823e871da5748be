//! An automaton over bytes, alone or with rows of the states near its root.

ghost use Rattle.std.specs.Prelude.{◌≡◌, ◌≢◌, ◌↔◌, [], Err, IfErr, IfOk, IfSome, IsTrue, None, Ok, false, slice_get};
ghost use Rattle.daachorse_model.specs.Folding.{as_read};
ghost use Rattle.daachorse_model.specs.Matches.{overlapping};
ghost use Rattle.daachorse_model.specs.Units.{byte_width};
ghost use Rattle.daachorse_bytewise_states.specs.StateRows.{HasNoRoom};
ghost use Rattle.daachorse.specs.bytewise.Automata.{dictionary_of, kind_of, states_of};
ghost use Rattle.daachorse_streams.specs.ByKind.{non_overlapping};
ghost use Rattle.daachorse_c.specs.declared.refusal.Refusal.TheVariants.{OutOfMemory};
ghost use Rattle.daachorse_c.specs.declared.search.SearchKind.TheVariants.{Whole};
ghost use Rattle.daachorse_c.specs.Held.{has_byte_rows, over_bytes};
ghost use Rattle.daachorse_c.specs.Refusals.{refusal_of};
ghost use Rattle.daachorse_c.specs.Searches.{ServesKind, found_by};
ghost use Rattle.daachorse_c.specs.Writes.{Writes};

use crate::found::{CMatch, fill};
use crate::refusal::Refusal;
use crate::search::SearchKind;
use daachorse::bytewise::{AccelerateError, Accelerated};
use daachorse::{DoubleArrayAhoCorasick, Match};
use std::alloc::Global;

/// What searches bytes.
#[derive(Drop)]
pub enum Bytewise {
    /// The automaton.
    Plain(DoubleArrayAhoCorasick<u32, Global>),
    /// The automaton with rows, which finds the same faster.
    Rowed(Accelerated<u32, Global>),
}

impl Bytewise {
    /// A copy of the automaton, with rows unless it is too large. Fails only if an allocation
    /// fails.
    pub(crate) fn accelerated(&self, alloc: Global) -> Result<Bytewise, Refusal>
        ensures same { IfOk result (λ s. over_bytes s ≡ over_bytes self.now) }
        ensures rows { IfOk result (λ s. has_byte_rows s ≡ false → HasNoRoom (states_of (over_bytes self.now))) }
        ensures err { IfErr result (λ r. r ≡ OutOfMemory) }
    {
        Bytewise::of_answer(self.automaton().clone()?.accelerate(alloc))
    }

    /// The automaton with its rows, or alone if it is too large for them. Fails if an allocation
    /// failed.
    fn of_answer(
        answer: Result<
            Accelerated<u32, Global>,
            AccelerateError<DoubleArrayAhoCorasick<u32, Global>>,
        >,
    ) -> Result<Bytewise, Refusal>
        ensures rowed { IfOk answer (λ a. result ≡ Ok (Bytewise.Rowed a)) }
        ensures plain { IfErr answer (λ e. e.refusal ≡ None → result ≡ Ok (Bytewise.Plain e.automaton)) }
        ensures err { IfErr answer (λ e. IfSome e.refusal (λ error. result ≡ Err (refusal_of error))) }
    {
        match answer {
            Ok(rowed) => Ok(Bytewise::Rowed(rowed)),
            Err(AccelerateError { automaton, refusal }) => match refusal {
                None => Ok(Bytewise::Plain(automaton)),
                Some(error) => Err(error.into()),
            },
        }
    }

    /// The automaton alone.
    pub(crate) fn automaton(&self) -> &DoubleArrayAhoCorasick<u32, Global>
        ensures { result.now ≡ over_bytes self.now }
    {
        match self {
            Bytewise::Plain(automaton) => automaton,
            Bytewise::Rowed(rowed) => rowed.automaton(),
        }
    }

    /// Writes the first matches of a search that serves the automaton's kind.
    pub(crate) fn find(&self, search: SearchKind, haystack: &[u8], out: &mut [CMatch]) -> usize
        requires { ServesKind search (kind_of (over_bytes self.now)) }
        ensures { Writes (found_by byte_width search (dictionary_of (over_bytes self.now)) (as_read (over_bytes self.now).folds haystack.now)) out.old out.new result }
    {
        match search {
            SearchKind::Find => match self {
                Bytewise::Plain(plain) => fill(plain.find_iter(haystack), out),
                Bytewise::Rowed(rowed) => fill(rowed.find_iter(haystack), out),
            },
            SearchKind::Overlapping => match self {
                Bytewise::Plain(plain) => fill(plain.find_overlapping_iter(haystack), out),
                Bytewise::Rowed(rowed) => fill(rowed.find_overlapping_iter(haystack), out),
            },
            SearchKind::NoSuffix => match self {
                Bytewise::Plain(plain) => fill(
                    plain.find_overlapping_no_suffix_iter(haystack),
                    out,
                ),
                Bytewise::Rowed(rowed) => fill(
                    rowed.find_overlapping_no_suffix_iter(haystack),
                    out,
                ),
            },
            SearchKind::Leftmost => match self {
                Bytewise::Plain(plain) => fill(plain.leftmost_find_iter(haystack), out),
                Bytewise::Rowed(rowed) => fill(rowed.leftmost_find_iter(haystack), out),
            },
            SearchKind::Whole => find_whole(self.automaton(), haystack, out),
            SearchKind::Prefixes => fill(self.automaton().common_prefixes(haystack), out),
        }
    }

    /// Returns whether some pattern occurs.
    pub(crate) fn is_match(&self, haystack: &[u8]) -> bool
        ensures { IsTrue result ↔ (overlapping byte_width (dictionary_of (over_bytes self.now)) (as_read (over_bytes self.now).folds haystack.now) ≢ []) }
    {
        match self {
            Bytewise::Plain(plain) => plain.is_match(haystack),
            Bytewise::Rowed(rowed) => rowed.is_match(haystack),
        }
    }

    /// Returns the first match that the search of the automaton's kind finds.
    pub(crate) fn first(&self, haystack: &[u8]) -> Option<Match<u32>>
        ensures { result ≡ slice_get (non_overlapping (kind_of (over_bytes self.now)) byte_width (dictionary_of (over_bytes self.now)) (as_read (over_bytes self.now).folds haystack.now)) 0 }
    {
        match self {
            Bytewise::Plain(plain) => plain.find(haystack),
            Bytewise::Rowed(rowed) => rowed.find(haystack),
        }
    }
}

/// Writes the patterns that are the whole text.
fn find_whole(
    automaton: &DoubleArrayAhoCorasick<u32, Global>,
    text: &[u8],
    out: &mut [CMatch],
) -> usize
    ensures { Writes (found_by byte_width Whole (dictionary_of automaton.now) (as_read automaton.now.folds text.now)) out.old out.new result }
{
    let end = text.len();
    let values = automaton.get(text);
    fill(
        values.map(|value| Match {
            start: 0,
            end,
            value,
        }),
        out,
    )
}
