//! Looks a text up in a written dictionary.

ghost use Rattle.std.specs.Prelude.{◌≡◌, ◌⊎◌, ◌++◌, ℕ, List, IfOk, IfErr, slice_get};
ghost use Rattle.daachorse_model.specs.Folding.{as_read};
ghost use Rattle.daachorse.specs.bytewise.Automata.{Automaton, dictionary_of};
ghost use Rattle.daachorse.specs.bytewise.ReadForms.{GivesAutomaton, GivesNoAutomaton};
ghost use Rattle.daachorse.specs.Refusals.{IsOutOfMemory};
ghost use Rattle.daachorse.specs.bytewise.WrittenForms.{IsAutomaton, written_form};

use daachorse::{DoubleArrayAhoCorasick, Result, Serializable};
use std::alloc::Allocator;

/// Returns the first value that the dictionary in `bytes` has for a text, if any.
///
/// The bytes may be untrusted, and the automaton of any kind. To look up more than once, read the
/// dictionary once and call [`value_of`]. The errors are those of
/// [`DoubleArrayAhoCorasick::deserialize`].
pub fn lookup<V: Serializable + Copy, A: Allocator + Copy>(
    alloc: A,
    bytes: &[u8],
    text: &[u8],
) -> Result<Option<V>>
    ensures given { IfOk result (λ value. (a : Automaton V) × (rest : List ℕ) × GivesAutomaton V.taken bytes.now a rest
        × (value ≡ slice_get (dictionary_of a (as_read a.folds text.now)) 0)) }
    ensures written { IfOk result (λ value. (a : Automaton V) (rest : List ℕ) → IsAutomaton V.is_value a → bytes.now ≡ written_form V.form a ++ rest
        → value ≡ slice_get (dictionary_of a (as_read a.folds text.now)) 0) }
    ensures err { IfErr result (λ e. IsOutOfMemory e ⊎ GivesNoAutomaton V.taken bytes.now) }
{
    let (words, _rest) = DoubleArrayAhoCorasick::deserialize(alloc, bytes)?;
    Ok(value_of(&words, text))
}

/// Returns the first value that an automaton of any kind has for a text, if that is a pattern. It
/// reads the text once, and allocates nothing.
pub fn value_of<V: Copy, A: Allocator>(
    words: &DoubleArrayAhoCorasick<V, A>,
    text: &[u8],
) -> Option<V>
    ensures { result ≡ slice_get (dictionary_of words.now (as_read words.now.folds text.now)) 0 }
{
    words.get(text).next()
}
