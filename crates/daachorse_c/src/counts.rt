//! What an automaton is, in numbers.

ghost use Rattle.std.specs.Prelude.{◌≡◌, ℕ, List, IfErr, IfOk, max};
ghost use Rattle.std.specs.List.{fold};
ghost use Rattle.daachorse_model.specs.Prefixes.{IsListing};
ghost use Rattle.daachorse_model.specs.Units.{char_width, size};
ghost use Rattle.daachorse.specs.charwise.Automata.{dictionary_of};
ghost use Rattle.daachorse_c.specs.declared.refusal.Refusal.TheVariants.{OutOfMemory};
ghost use Rattle.daachorse_c.specs.Automata.{Bytes, Characters};
ghost use Rattle.daachorse_c.specs.Counts.{AreCounts};

use crate::refusal::Refusal;
use daachorse::{CharwiseDoubleArrayAhoCorasick, DoubleArrayAhoCorasick};
use std::alloc::Global;

/// How much an automaton holds.
#[repr(C)]
#[derive(Clone, Copy)]
pub struct Counts {
    /// The number of patterns, where equal ones count each.
    pub patterns: usize,
    /// The number of states: one for each prefix of a pattern, the empty one included.
    pub states: usize,
    /// The number of bytes of the written form.
    pub size: usize,
    /// The number of bytes of the longest pattern, or 0 if there is none.
    pub longest: usize,
}

/// Counts what an automaton over bytes holds. Fails only if an allocation fails.
pub(crate) fn counts_of_bytes(
    alloc: Global,
    automaton: &DoubleArrayAhoCorasick<u32, Global>,
) -> Result<Counts, Refusal>
    ensures counts { IfOk result (AreCounts (Bytes automaton.now)) }
    ensures err { IfErr result (λ r. r ≡ OutOfMemory) }
{
    Ok(Counts {
        patterns: automaton.num_patterns(alloc)?,
        states: automaton.num_states(),
        size: automaton.serialize(alloc)?.len(),
        longest: automaton.max_pattern_len(alloc)?,
    })
}

/// Counts what an automaton over characters holds. Fails only if an allocation fails.
pub(crate) fn counts_of_characters(
    alloc: Global,
    automaton: &CharwiseDoubleArrayAhoCorasick<u32, Global>,
) -> Result<Counts, Refusal>
    ensures counts { IfOk result (AreCounts (Characters automaton.now)) }
    ensures err { IfErr result (λ r. r ≡ OutOfMemory) }
{
    Ok(Counts {
        patterns: automaton.num_patterns(alloc)?,
        states: automaton.num_states(),
        size: automaton.serialize(alloc)?.len(),
        longest: longest_text(alloc, automaton)?,
    })
}

/// The number of bytes of the longest pattern. Fails only if an allocation fails.
fn longest_text(
    alloc: Global,
    automaton: &CharwiseDoubleArrayAhoCorasick<u32, Global>,
) -> Result<usize, Refusal>
    ensures longest { IfOk result (λ n. (listed : List (List ℕ × ℕ)) × IsListing (dictionary_of automaton.now) listed × (n ≡ fold (λ longest r. max longest (size char_width r.0)) 0 listed)) }
    ensures err { IfErr result (λ r. r ≡ OutOfMemory) }
{
    let mut longest = 0;
    for item in automaton.iter(alloc)? {
        let (pattern, _value) = item?;
        longest = longest.max(pattern.as_str().len());
    }
    Ok(longest)
}
