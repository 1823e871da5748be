//! The errors, and the exact text of each.

ghost use Rattle.std.specs.Prelude.{◌≡◌, Some, string_bytes};
ghost use Rattle.std.specs.IoError.{error_kind};
ghost use Rattle.daachorse_core.specs.Texts.{scale_text, argument_text, conversion_text, automaton_text, memory_text, duplicate_text, error_text, io_kind};
ghost use Rattle.daachorse_core.specs.declared.errors.DaachorseError.TheVariants.{OutOfMemory};

use std::alloc::{AllocError, AllocFailed, Allocator, Global};
use std::error::Error;
use std::{fmt, io, result};

const ARGUMENT: &str = "InvalidArgumentError: pattern.len() must be <= 4294967295";

const CONVERSION: &str = "InvalidConversionError: index cannot be converted to V";

const AUTOMATON: &str = "InvalidAutomatonError: invalid serialized automaton";

const MEMORY: &str = "OutOfMemoryError: memory allocation failed";

/// A `Result` whose error is [`DaachorseError`] unless another is named. `?` turns a failed
/// allocation into [`DaachorseError::OutOfMemory`].
pub type Result<T, E = DaachorseError> = result::Result<T, E>;

/// The errors that the calls of daachorse return. `?` turns this type into an `io::Error` too. It
/// owns no memory.
#[derive(Clone, Copy, Debug, PartialEq, Eq)]
pub enum DaachorseError {
    /// A pattern is too long.
    InvalidArgument(InvalidArgumentError),
    /// The automaton would exceed a limit.
    AutomatonScale(AutomatonScaleError),
    /// The index of a pattern has no value of the type asked for.
    InvalidConversion(InvalidConversionError),
    /// The bytes are not those of an automaton.
    InvalidAutomaton(InvalidAutomatonError),
    /// An allocation failed.
    OutOfMemory(OutOfMemoryError),
}

/// A limit of an automaton. [`AutomatonScaleError`] names it.
#[derive(Clone, Copy, Debug, PartialEq, Eq)]
pub enum Limit {
    /// 16,777,215 kept patterns, in a bytewise automaton.
    PatternValues,
    /// The state id 4,294,967,295.
    StateId,
    /// 4,294,967,295 elements of the double array.
    NumElements,
    /// 4,294,967,295 outputs.
    Outputs,
    /// The output position 16,777,215, in a bytewise automaton.
    OutputPos,
}

/// A pattern has more than 4,294,967,295 bytes. A build returns it for the first such pattern.
#[derive(Clone, Copy, Debug, PartialEq, Eq)]
pub struct InvalidArgumentError;

/// The automaton would exceed a limit. A build returns it for the first limit that it would exceed.
#[derive(Clone, Copy, Debug, PartialEq, Eq)]
pub struct AutomatonScaleError {
    /// The limit that would be exceeded.
    pub limit: Limit,
}

/// The index of a pattern has no value of the type asked for.
///
/// A build returns it before it adds any pattern. The index 256 has no value of type `u8`.
#[derive(Clone, Copy, Debug, PartialEq, Eq)]
pub struct InvalidConversionError;

/// The bytes are not those of an automaton. The checked read, `deserialize`, returns it.
#[derive(Clone, Copy, Debug, PartialEq, Eq)]
pub struct InvalidAutomatonError;

/// An allocation failed. All that the call had allocated is freed.
#[derive(Clone, Copy, Debug, PartialEq, Eq)]
pub struct OutOfMemoryError;

/// A pattern was registered twice. No call returns this error: equal patterns are all kept.
#[derive(Debug, Drop)]
pub struct DuplicatePatternError<A: Allocator = Global> {
    /// The pattern.
    pub pattern: String<A>,
}

impl DaachorseError {
    /// Makes the error for a pattern that is too long.
    pub fn invalid_argument() -> DaachorseError
        ensures { result ≡ DaachorseError.InvalidArgument (record {}) }
    {
        DaachorseError::InvalidArgument(InvalidArgumentError)
    }

    /// Makes the error for an automaton that would exceed a limit.
    pub fn automaton_scale(limit: Limit) -> DaachorseError
        ensures { result ≡ DaachorseError.AutomatonScale (record { limit = limit }) }
    {
        DaachorseError::AutomatonScale(AutomatonScaleError { limit })
    }

    /// Makes the error for an index that has no value.
    pub fn invalid_conversion() -> DaachorseError
        ensures { result ≡ DaachorseError.InvalidConversion (record {}) }
    {
        DaachorseError::InvalidConversion(InvalidConversionError)
    }

    /// Makes the error for bytes that are not those of an automaton.
    pub fn invalid_automaton() -> DaachorseError
        ensures { result ≡ DaachorseError.InvalidAutomaton (record {}) }
    {
        DaachorseError::InvalidAutomaton(InvalidAutomatonError)
    }

    fn text(self) -> &'static str
        ensures { result.now ≡ error_text self }
    {
        match self {
            DaachorseError::InvalidArgument(_) => ARGUMENT,
            DaachorseError::AutomatonScale(e) => e.limit.text(),
            DaachorseError::InvalidConversion(_) => CONVERSION,
            DaachorseError::InvalidAutomaton(_) => AUTOMATON,
            DaachorseError::OutOfMemory(_) => MEMORY,
        }
    }

    fn io_kind(self) -> io::ErrorKind
        ensures { result ≡ io_kind self }
    {
        match self {
            DaachorseError::InvalidArgument(_)
            | DaachorseError::AutomatonScale(_)
            | DaachorseError::InvalidConversion(_) => io::ErrorKind::InvalidInput,
            DaachorseError::InvalidAutomaton(_) => io::ErrorKind::InvalidData,
            DaachorseError::OutOfMemory(_) => io::ErrorKind::OutOfMemory,
        }
    }
}

impl Limit {
    fn text(self) -> &'static str
        ensures { result.now ≡ scale_text self }
    {
        match self {
            Limit::PatternValues => "AutomatonScaleError: patvals.len() must be <= 16777215",
            Limit::StateId => "AutomatonScaleError: state_id must be <= 4294967295",
            Limit::NumElements => "AutomatonScaleError: num_elements must be <= 4294967295",
            Limit::Outputs => "AutomatonScaleError: outputs.len() must be <= 4294967295",
            Limit::OutputPos => "AutomatonScaleError: output_pos must be <= 16777215",
        }
    }
}

impl From<AllocError> for DaachorseError {
    ghost from_gives = { λ _ e. e ≡ OutOfMemory (record {}) };

    fn from(_error: AllocError) -> DaachorseError {
        DaachorseError::OutOfMemory(OutOfMemoryError)
    }
}

impl<T: Drop> From<AllocFailed<T>> for DaachorseError {
    ghost from_gives = { λ _ e. e ≡ OutOfMemory (record {}) };

    fn from(_error: AllocFailed<T>) -> DaachorseError {
        DaachorseError::OutOfMemory(OutOfMemoryError)
    }
}

impl From<DaachorseError> for io::Error {
    ghost from_gives = { λ refusal e. error_kind e ≡ io_kind refusal };

    fn from(refusal: DaachorseError) -> io::Error {
        io::Error::new(refusal.io_kind(), refusal.text())
    }
}

impl fmt::Display for InvalidArgumentError {
    ghost output = { λ _. Some argument_text };

    fn fmt<W: fmt::Write>(&self, f: &mut fmt::Formatter<W>) -> fmt::Result {
        f.write_str(ARGUMENT)
    }
}

impl fmt::Display for AutomatonScaleError {
    ghost output = { λ e. Some (scale_text e.limit) };

    fn fmt<W: fmt::Write>(&self, f: &mut fmt::Formatter<W>) -> fmt::Result {
        f.write_str(self.limit.text())
    }
}

impl fmt::Display for InvalidConversionError {
    ghost output = { λ _. Some conversion_text };

    fn fmt<W: fmt::Write>(&self, f: &mut fmt::Formatter<W>) -> fmt::Result {
        f.write_str(CONVERSION)
    }
}

impl fmt::Display for InvalidAutomatonError {
    ghost output = { λ _. Some automaton_text };

    fn fmt<W: fmt::Write>(&self, f: &mut fmt::Formatter<W>) -> fmt::Result {
        f.write_str(AUTOMATON)
    }
}

impl fmt::Display for OutOfMemoryError {
    ghost output = { λ _. Some memory_text };

    fn fmt<W: fmt::Write>(&self, f: &mut fmt::Formatter<W>) -> fmt::Result {
        f.write_str(MEMORY)
    }
}

impl<A: Allocator> fmt::Display for DuplicatePatternError<A> {
    ghost output = { λ e. Some (duplicate_text (string_bytes e.pattern)) };

    fn fmt<W: fmt::Write>(&self, f: &mut fmt::Formatter<W>) -> fmt::Result {
        let pattern = &self.pattern;
        write!(f, "DuplicatePatternError: {pattern}")
    }
}

impl fmt::Display for DaachorseError {
    ghost output = { λ e. Some (error_text e) };

    fn fmt<W: fmt::Write>(&self, f: &mut fmt::Formatter<W>) -> fmt::Result {
        f.write_str(self.text())
    }
}

impl Error for DaachorseError {}

impl Error for InvalidArgumentError {}

impl Error for AutomatonScaleError {}

impl Error for InvalidConversionError {}

impl Error for InvalidAutomatonError {}

impl Error for OutOfMemoryError {}

impl<A: Allocator + fmt::Debug> Error for DuplicatePatternError<A> {}
