//! Why a call from C is refused, and the number that it returns then.

ghost use Rattle.std.specs.Prelude.{◌≡◌, ◌<◌};
ghost use Rattle.daachorse_c.specs.Refusals.{limit_refusal, refusal_number, refusal_of};
ghost use Rattle.daachorse_c.specs.declared.refusal.Refusal.TheVariants.{OutOfMemory};

use daachorse::errors::{DaachorseError, Limit};
use std::alloc::{AllocError, AllocFailed};

/// Why a call is refused.
#[derive(Clone, Copy, Debug, PartialEq, Eq)]
pub enum Refusal {
    /// An allocation failed.
    OutOfMemory,
    /// The handle is empty.
    EmptyHandle,
    /// No kind has the given number.
    UnknownKind,
    /// The search does not serve automata of this kind.
    WrongKind,
    /// The ends decrease or pass the bytes, or are not as many as the values.
    WrongPatterns,
    /// A pattern has more than 4,294,967,295 bytes.
    PatternTooLong,
    /// The patterns have more distinct prefixes than an automaton can have states.
    TooManyStates,
    /// There are more patterns than an automaton can hold.
    TooManyPatterns,
    /// The double array would have too many elements.
    TooManyElements,
    /// The bytes do not begin with an automaton.
    InvalidAutomaton,
    /// The output is longer than the room for it.
    NoRoom,
    /// No stream was partial.
    NoStream,
    /// An offset in the stream, or the number of its matches, would pass 64 bits.
    StreamTooLong,
    /// An option is neither 0 nor 1, or one without a name is not 0.
    UnknownOption,
    /// The place from which a search goes on is after the haystack, or inside a character.
    WrongPlace,
    /// No search of a stream has the given number.
    UnknownSearch,
    /// The stream has ended, so it takes no more bytes.
    StreamEnded,
    /// The automaton is over characters, and the bytes are no UTF-8.
    InvalidUtf8,
}

impl Refusal {
    /// The number that a call returns.
    pub(crate) fn number(self) -> u32
        ensures is { result ≡ refusal_number self }
        ensures above { 0 < result }
    {
        match self {
            Refusal::OutOfMemory => 1,
            Refusal::EmptyHandle => 2,
            Refusal::UnknownKind => 3,
            Refusal::WrongKind => 4,
            Refusal::WrongPatterns => 5,
            Refusal::PatternTooLong => 6,
            Refusal::TooManyStates => 7,
            Refusal::TooManyPatterns => 8,
            Refusal::TooManyElements => 9,
            Refusal::InvalidAutomaton => 10,
            Refusal::NoRoom => 11,
            Refusal::NoStream => 12,
            Refusal::StreamTooLong => 13,
            Refusal::UnknownOption => 14,
            Refusal::WrongPlace => 15,
            Refusal::UnknownSearch => 16,
            Refusal::StreamEnded => 17,
            Refusal::InvalidUtf8 => 18,
        }
    }
}

impl From<AllocError> for Refusal {
    ghost from_gives = { λ _ r. r ≡ OutOfMemory };

    fn from(_error: AllocError) -> Refusal {
        Refusal::OutOfMemory
    }
}

impl<T: Drop> From<AllocFailed<T>> for Refusal {
    ghost from_gives = { λ _ r. r ≡ OutOfMemory };

    fn from(_error: AllocFailed<T>) -> Refusal {
        Refusal::OutOfMemory
    }
}

impl From<DaachorseError> for Refusal {
    ghost from_gives = { λ e r. r ≡ refusal_of e };

    fn from(error: DaachorseError) -> Refusal {
        match error {
            DaachorseError::InvalidArgument(_) => Refusal::PatternTooLong,
            DaachorseError::AutomatonScale(scale) => of_limit(scale.limit),
            DaachorseError::InvalidConversion(_) => Refusal::InvalidAutomaton,
            DaachorseError::InvalidAutomaton(_) => Refusal::InvalidAutomaton,
            DaachorseError::OutOfMemory(_) => Refusal::OutOfMemory,
        }
    }
}

/// The refusal of a build that would pass a limit. There are as many outputs as patterns.
fn of_limit(limit: Limit) -> Refusal
    ensures { result ≡ limit_refusal limit }
{
    match limit {
        Limit::StateId => Refusal::TooManyStates,
        Limit::NumElements => Refusal::TooManyElements,
        Limit::PatternValues => Refusal::TooManyPatterns,
        Limit::Outputs => Refusal::TooManyPatterns,
        Limit::OutputPos => Refusal::TooManyPatterns,
    }
}
