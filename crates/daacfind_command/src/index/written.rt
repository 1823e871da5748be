//! Automata that one run writes and others search with.

ghost use Rattle.std.specs.Prelude.{◌≡◌, ◌⊎◌, ◌+◌, ℕ, List, IfErr, OnOk};
ghost use Rattle.std.specs.Int.{w32};
ghost use Rattle.std.specs.Io.KnownBytes.{Appends, Keeps};
ghost use Rattle.daachorse.specs.Refusals.{IsOutOfMemory};
ghost use Rattle.daachorse_model.specs.Program.{pattern_lines};
ghost use Rattle.daachorse.specs.Forms.{IsReadRefusal, take_number};
ghost use Rattle.daachorse.specs.bytewise.Building.{IsBuildRefusal};
ghost use Rattle.daachorse.specs.bytewise.ReadForms.{GivesNoAutomaton};
ghost use Rattle.daachorse.specs.Replaced.{AppendsBeginning};
ghost use Rattle.daacfind_command.specs.Modes.{kind_of_mode, text_of_mode};
ghost use Rattle.daacfind_command.specs.Runs.{value_gives};
ghost use Rattle.daacfind_command.specs.Written.{BeginsWithForm, IfRefused, IsFormOf, IsOfAnotherKind, IsTextBy, OnFailure, OnKind, OnRefusal};

use crate::mode::Mode;
use crate::run::{build, write_found};
use crate::sink::{Sink, SinkError, write_whole};
use daachorse::DoubleArrayAhoCorasick;
use daachorse::errors::DaachorseError;
use std::alloc::Allocator;
use thiserror::Error;

/// Why an automaton was not written, or not searched with.
#[derive(Debug, Drop, Error)]
pub enum IndexError {
    /// The build refused the patterns, no automaton begins the bytes, or an allocation failed.
    #[error(transparent)]
    Refused(DaachorseError),
    /// The automaton is not of the mode's kind.
    #[error("daacindex: the automaton is for another kind of search")]
    Kind,
    /// The sink failed.
    #[error("daacindex: cannot write")]
    Write,
}

impl From<DaachorseError> for IndexError {
    ghost use Rattle.daacfind_command.specs.declared.index.written.IndexError.TheVariants.{Refused};

    ghost from_gives = { λ refusal e. e ≡ Refused refusal };

    fn from(refusal: DaachorseError) -> IndexError {
        IndexError::Refused(refusal)
    }
}

impl From<SinkError> for IndexError {
    ghost use Rattle.daacfind_command.specs.declared.index.written.IndexError.TheVariants.{Write};

    ghost from_gives = { λ _ e. e ≡ Write };

    fn from(_failure: SinkError) -> IndexError {
        IndexError::Write
    }
}

/// Writes the automaton of the lines of `patterns`, for searches of the mode, and flushes the sink.
///
/// # Errors
///
/// [`IndexError::Refused`] if the build refuses the patterns, or an allocation fails; nothing was
/// written then. [`IndexError::Write`] if the sink fails; a prefix of the automaton was written, or
/// all of it if only the flush failed.
pub fn write<S: Sink, A: Allocator + Copy>(
    alloc: A,
    mode: Mode,
    patterns: &[u8],
    out: &mut S,
) -> Result<(), IndexError>
    ensures written { OnOk result ((bytes : List ℕ) × IsFormOf (kind_of_mode mode) patterns.now bytes × Appends (S.taken out.old) (S.taken out.new) bytes) }
    ensures unfailed { OnOk result (S.failures out.new ≡ S.failures out.old) }
    ensures beginning { IfErr result (λ e. OnFailure e ((bytes : List ℕ) × IsFormOf (kind_of_mode mode) patterns.now bytes × AppendsBeginning (S.taken out.old) (S.taken out.new) bytes)) }
    ensures failed { IfErr result (λ e. OnFailure e (S.failures out.new ≡ S.failures out.old + 1)) }
    ensures refusal { IfErr result (λ e. IfRefused e (IsBuildRefusal value_gives (kind_of_mode mode) (pattern_lines patterns.now))) }
    ensures kind { IfErr result (λ e. OnKind e ⊥) }
    ensures unwritten { IfErr result (λ e. OnRefusal e (Keeps (S.taken out.old) (S.taken out.new))) }
    ensures untried { IfErr result (λ e. OnRefusal e (S.failures out.new ≡ S.failures out.old)) }
{
    let automaton = build(alloc, mode.match_kind(), patterns)?;
    let bytes = automaton.serialize(alloc)?;
    write_whole(out, &bytes)?;
    out.flush()?;
    Ok(())
}

/// Writes the matches in `haystack` of the automaton that the bytes begin with, as
/// [`run`](crate::run::run) writes them. What follows the automaton is ignored.
///
/// # Errors
///
/// [`IndexError::Refused`] if the bytes begin with no automaton, or an allocation fails, and
/// [`IndexError::Kind`] if it is not of the mode's kind; nothing was written then.
/// [`IndexError::Write`] if the sink fails; a prefix of the text was written, or all of it if only
/// the flush failed.
pub fn run_written<S: Sink, A: Allocator + Copy>(
    alloc: A,
    mode: Mode,
    automaton: &[u8],
    haystack: &[u8],
    out: &mut S,
) -> Result<(), IndexError>
    ensures written { OnOk result ((text : List ℕ) × IsTextBy mode automaton.now haystack.now text × Appends (S.taken out.old) (S.taken out.new) text) }
    ensures unfailed { OnOk result (S.failures out.new ≡ S.failures out.old) }
    ensures beginning { IfErr result (λ e. OnFailure e ((text : List ℕ) × IsTextBy mode automaton.now haystack.now text × AppendsBeginning (S.taken out.old) (S.taken out.new) text)) }
    ensures failed { IfErr result (λ e. OnFailure e (S.failures out.new ≡ S.failures out.old + 1)) }
    ensures invalid { IfErr result (λ e. IfRefused e (λ cause. IsOutOfMemory cause ⊎ GivesNoAutomaton (take_number w32) automaton.now)) }
    ensures cause { IfErr result (λ e. IfRefused e (IsReadRefusal (λ _. ⊥))) }
    ensures kind { IfErr result (λ e. OnKind e (IsOfAnotherKind mode automaton.now)) }
    ensures unwritten { IfErr result (λ e. OnRefusal e (Keeps (S.taken out.old) (S.taken out.new))) }
    ensures untried { IfErr result (λ e. OnRefusal e (S.failures out.new ≡ S.failures out.old)) }
    // For an automaton that `write` wrote.
    ensures back { OnOk result ((patterns : List ℕ) → BeginsWithForm mode patterns automaton.now → Appends (S.taken out.old) (S.taken out.new) (text_of_mode mode patterns haystack.now)) }
    ensures memory { IfErr result (λ e. (patterns : List ℕ) → BeginsWithForm mode patterns automaton.now → IfRefused e IsOutOfMemory × OnKind e ⊥) }
{
    let (searches, _rest) = DoubleArrayAhoCorasick::<u32, A>::deserialize(alloc, automaton)?;
    if searches.match_kind() != mode.match_kind() {
        return Err(IndexError::Kind);
    }
    write_found(alloc, mode, searches, haystack, out)?;
    out.flush()?;
    Ok(())
}
