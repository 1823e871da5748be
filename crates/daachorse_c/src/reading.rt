//! Reads an automaton from untrusted bytes.

ghost use Rattle.std.specs.Prelude.{◌≡◌, None, IfErr, IfOk};
ghost use Rattle.daachorse_c.specs.declared.unit.Unit.TheVariants.{Byte, Character};
ghost use Rattle.daachorse_c.specs.Held.{automaton_of};
ghost use Rattle.daachorse_c.specs.Written.{IsRead, IsReadCause};

use crate::automaton::Searcher;
use crate::bytewise::Bytewise;
use crate::charwise::Charwise;
use crate::refusal::Refusal;
use crate::searches::Searches;
use crate::unit::Unit;
use daachorse::errors::DaachorseError;
use daachorse::{CharwiseDoubleArrayAhoCorasick, DoubleArrayAhoCorasick};
use std::alloc::Global;

/// Returns the automaton over this unit that the bytes begin with, and its length. Fails if there
/// is none, or if an allocation fails.
pub(crate) fn read(
    alloc: Global,
    unit: Unit,
    bytes: &[u8],
) -> Result<(Box<Searcher, Global>, usize), Refusal>
    ensures read { IfOk result (λ r. IsRead unit bytes.now r.0.value.searches r.1) }
    ensures stream { IfOk result (λ r. r.0.value.stream ≡ None) }
    ensures err { IfErr result (IsReadCause unit bytes.now) }
{
    let (searches, taken) = match unit {
        Unit::Byte => read_bytewise(alloc, bytes)?,
        Unit::Character => read_charwise(alloc, bytes)?,
    };
    Ok((Searcher::new(alloc, searches)?, taken))
}

/// Does this for an automaton over bytes.
fn read_bytewise(alloc: Global, bytes: &[u8]) -> Result<(Searches, usize), Refusal>
    ensures read { IfOk result (λ r. IsRead Byte bytes.now (automaton_of r.0) r.1) }
    ensures err { IfErr result (IsReadCause Byte bytes.now) }
{
    match DoubleArrayAhoCorasick::deserialize(alloc, bytes) {
        Ok((automaton, rest)) => Ok((
            Searches::Bytes(Bytewise::Plain(automaton)),
            bytes.len() - rest.len(),
        )),
        Err(DaachorseError::OutOfMemory(_)) => Err(Refusal::OutOfMemory),
        Err(_) => Err(Refusal::InvalidAutomaton),
    }
}

/// Does this for an automaton over characters.
fn read_charwise(alloc: Global, bytes: &[u8]) -> Result<(Searches, usize), Refusal>
    ensures read { IfOk result (λ r. IsRead Character bytes.now (automaton_of r.0) r.1) }
    ensures err { IfErr result (IsReadCause Character bytes.now) }
{
    match CharwiseDoubleArrayAhoCorasick::deserialize(alloc, bytes) {
        Ok((automaton, rest)) => Ok((
            Searches::Characters(Charwise::Plain(automaton)),
            bytes.len() - rest.len(),
        )),
        Err(DaachorseError::OutOfMemory(_)) => Err(Refusal::OutOfMemory),
        Err(_) => Err(Refusal::InvalidAutomaton),
    }
}
