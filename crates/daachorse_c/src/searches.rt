//! The automaton that handles share, over bytes or over characters.

ghost use Rattle.std.specs.Prelude.{◌≡◌, IfErr, IfOk, false};
ghost use Rattle.daachorse_c.specs.declared.refusal.Refusal.TheVariants.{InvalidUtf8, OutOfMemory};
ghost use Rattle.daachorse_c.specs.Automata.{HasNoRoom, Reads, folds_of, kind_of};
ghost use Rattle.daachorse_c.specs.Counts.{AreCounts};
ghost use Rattle.daachorse_c.specs.Held.{automaton_of, has_rows, haystack_of, searched};
ghost use Rattle.daachorse_c.specs.Written.{IsWhole, form_of};

use crate::bytewise::Bytewise;
use crate::charwise::Charwise;
use crate::counts::{Counts, counts_of_bytes, counts_of_characters};
use crate::refusal::Refusal;
use crate::searching::Search;
use daachorse::MatchKind;
use std::alloc::Global;

/// What searches haystacks.
#[derive(Drop)]
pub enum Searches {
    /// An automaton over bytes.
    Bytes(Bytewise),
    /// An automaton over the characters of UTF-8.
    Characters(Charwise),
}

impl Searches {
    /// A copy with rows, unless it is too large. Fails only if an allocation fails.
    pub(crate) fn accelerated(&self, alloc: Global) -> Result<Searches, Refusal>
        ensures same { IfOk result (λ s. automaton_of s ≡ automaton_of self.now) }
        ensures rows { IfOk result (λ s. has_rows s ≡ false → HasNoRoom (automaton_of self.now)) }
        ensures err { IfErr result (λ r. r ≡ OutOfMemory) }
    {
        match self {
            Searches::Bytes(bytewise) => Ok(Searches::Bytes(bytewise.accelerated(alloc)?)),
            Searches::Characters(charwise) => {
                Ok(Searches::Characters(charwise.accelerated(alloc)?))
            }
        }
    }

    /// The kind of searches that the automaton is for.
    pub(crate) fn match_kind(&self) -> MatchKind
        ensures { result ≡ kind_of (automaton_of self.now) }
    {
        match self {
            Searches::Bytes(bytewise) => bytewise.automaton().match_kind(),
            Searches::Characters(charwise) => charwise.automaton().match_kind(),
        }
    }

    /// Whether searches ignore the case of ASCII letters.
    pub(crate) fn is_ascii_case_insensitive(&self) -> bool
        ensures { result ≡ folds_of (automaton_of self.now) }
    {
        match self {
            Searches::Bytes(bytewise) => bytewise.automaton().is_ascii_case_insensitive(),
            Searches::Characters(charwise) => charwise.automaton().is_ascii_case_insensitive(),
        }
    }

    /// Counts what the automaton holds. Fails only if an allocation fails.
    pub(crate) fn counts(&self, alloc: Global) -> Result<Counts, Refusal>
        ensures counts { IfOk result (AreCounts (automaton_of self.now)) }
        ensures err { IfErr result (λ r. r ≡ OutOfMemory) }
    {
        match self {
            Searches::Bytes(bytewise) => counts_of_bytes(alloc, bytewise.automaton()),
            Searches::Characters(charwise) => counts_of_characters(alloc, charwise.automaton()),
        }
    }

    /// The written form of the automaton. Fails only if an allocation fails.
    pub(crate) fn form(&self, alloc: Global) -> Result<Vec<u8, Global>, Refusal>
        ensures whole { IfOk result (λ _. IsWhole (automaton_of self.now)) }
        ensures form { IfOk result (λ v. v.items ≡ form_of (automaton_of self.now)) }
        ensures err { IfErr result (λ r. r ≡ OutOfMemory) }
    {
        match self {
            Searches::Bytes(bytewise) => Ok(bytewise.automaton().serialize(alloc)?),
            Searches::Characters(charwise) => Ok(charwise.automaton().serialize(alloc)?),
        }
    }

    /// The automaton beside a haystack. Fails if it is over characters, and the haystack is no
    /// UTF-8.
    pub(crate) fn reading<'a>(&'a self, haystack: &'a [u8]) -> Result<Search<'a>, Refusal>
        ensures automaton { IfOk result (λ s. searched s ≡ automaton_of self.entry.now) }
        ensures haystack { IfOk result (λ s. haystack_of s ≡ haystack.entry.now) }
        ensures text { IfOk result (λ _. Reads (automaton_of self.entry.now) haystack.entry.now) }
        ensures err { IfErr result (λ r. (r ≡ InvalidUtf8) × ¬ Reads (automaton_of self.entry.now) haystack.entry.now) }
    {
        match self {
            Searches::Bytes(bytewise) => Ok(Search::Bytes(bytewise, haystack)),
            Searches::Characters(charwise) => match str::from_utf8(haystack) {
                Ok(text) => Ok(Search::Characters(charwise, text)),
                Err(_) => Err(Refusal::InvalidUtf8),
            },
        }
    }
}
