//! The automaton over characters, written to bytes and read back.

ghost use Rattle.std.specs.Prelude.{◌≡◌, ◌⊎◌, ◌++◌, ℕ, List, [], IfOk, IfErr};
ghost use Rattle.daachorse_core.specs.Refusals.{IsOutOfMemory};
ghost use Rattle.daachorse.specs.charwise.Automata.{Automaton};
ghost use Rattle.daachorse_serializer.specs.Forms.{IsReadRefusal};
ghost use Rattle.daachorse.specs.charwise.ReadForms.{GivesAutomaton, GivesNoAutomaton};
ghost use Rattle.daachorse_charwise_states.specs.PartForms.{IsOfParts};
ghost use Rattle.daachorse.specs.charwise.WrittenForms.{BeginsWithAutomaton, IsAutomaton, without_depths, written_form};

use super::CharwiseDoubleArrayAhoCorasick;
use super::states::States;
use daachorse_core::errors::{DaachorseError, Result};
use daachorse_serializer::serializer::Serializable;
use std::alloc::Allocator;

impl<V: Serializable + Copy, A: Allocator> CharwiseDoubleArrayAhoCorasick<V, A> {
    /// Returns the written form of the automaton, in memory from `alloc`. Cached depths are not
    /// written. Fails only if an allocation fails.
    pub fn serialize<B: Allocator>(&self, alloc: B) -> Result<Vec<u8, B>>
        ensures ok { IfOk result (λ bytes. bytes.items ≡ written_form V.form self.now) }
        ensures automaton { IsAutomaton V.is_value self.now }
        ensures err { IfErr result IsOutOfMemory }
    {
        self.searched
            .states
            .serialize(alloc, self.searched.folds, &self.searched.filter)
    }
}

impl<V: Serializable + Copy, A: Allocator + Copy> CharwiseDoubleArrayAhoCorasick<V, A> {
    /// Reads an automaton from any bytes, and returns it with the bytes after it.
    ///
    /// The bytes need not be trusted: searches of an accepted automaton are right for the patterns
    /// that it lists. The check takes memory linear in the bytes. No depths are cached.
    ///
    /// Fails with [`InvalidAutomaton`](daachorse_core::errors::DaachorseError::InvalidAutomaton) if
    /// the bytes give no automaton, if the prefilter would miss a pattern, or if case is ignored
    /// and a pattern has one of A to Z. Fails with the error of a value that cannot be read, or if
    /// an allocation fails.
    pub fn deserialize(alloc: A, source: &[u8]) -> Result<(Self, &[u8])>
        ensures given { IfOk result (λ r. GivesAutomaton V.taken source.now r.0 r.1.now) }
        ensures depths { IfOk result (λ r. r.0.depths ≡ []) }
        ensures err { IfErr result (λ e. IsOutOfMemory e ⊎ GivesNoAutomaton V.taken source.now) }
        ensures cause { IfErr result (IsReadRefusal (IsOfParts V.taken V.own_refusal source.now)) }
        // What was written is read back.
        ensures back { IfOk result (λ r. (a : Automaton V) (rest : List ℕ) → IsAutomaton V.is_value a → source.now ≡ written_form V.form a ++ rest
            → (r.0 ≡ without_depths a) × (r.1.now ≡ rest)) }
        ensures memory { IfErr result (λ e. BeginsWithAutomaton V.is_value V.form source.now → IsOutOfMemory e) }
    {
        let (read, rest) = States::deserialize(alloc, source)?;
        let (states, folds, filter) = read;
        if !states.may_fold(alloc, folds)? {
            return Err(DaachorseError::invalid_automaton());
        }
        if !states.passes(alloc, &filter)? {
            return Err(DaachorseError::invalid_automaton());
        }
        Ok((Self::of_states(alloc, states, folds, filter), rest))
    }

    /// Reads an automaton that [`Self::serialize`] wrote, and returns it with the bytes after it.
    ///
    /// It checks nothing, and takes memory for the automaton alone. It is for bytes that a contract
    /// says were written. No contract says what a file holds: use [`Self::deserialize`] for that.
    /// Fails only if an allocation fails.
    pub fn deserialize_unchecked(alloc: A, source: &[u8]) -> Result<(Self, &[u8])>
        requires { BeginsWithAutomaton V.is_value V.form source.now }
        ensures ok { IfOk result (λ r. (a : Automaton V) (rest : List ℕ) → IsAutomaton V.is_value a → source.now ≡ written_form V.form a ++ rest
            → (r.0 ≡ without_depths a) × (r.1.now ≡ rest)) }
        ensures err { IfErr result IsOutOfMemory }
    {
        let (read, rest) = States::deserialize_unchecked(alloc, source)?;
        let (states, folds, filter) = read;
        Ok((Self::of_states(alloc, states, folds, filter), rest))
    }
}
