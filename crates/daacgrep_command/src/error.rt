//! Why a command fails.

ghost use Rattle.std.specs.Prelude.{◌≡◌};

use crate::options::OptionError;
use daacfind_command::sink::SinkError;
use daachorse::errors::DaachorseError;
use std::alloc::AllocError;
use thiserror::Error;

/// Why a command failed. Its text is the line for standard error.
#[derive(Debug, Drop, Error)]
pub enum CommandError<'a> {
    /// The words ask for nothing that can be done.
    #[error(transparent)]
    Options(OptionError<'a>),
    /// There is no pattern.
    #[error("daacgrep: no pattern: -e PATTERN, -f FILE or --load FILE is wanted; see daacgrep --help")]
    NoPattern,
    /// A file of patterns or an automaton cannot be read.
    #[error("daacgrep: cannot read {0}")]
    Read(&'a str),
    /// The build refused the patterns.
    #[error("daacgrep: {0}")]
    Build(DaachorseError),
    /// A file begins with no automaton, or an allocation failed.
    #[error("daacgrep: cannot load {0}: {1}")]
    Load(&'a str, DaachorseError),
    /// An automaton was saved with other options.
    #[error("daacgrep: {0} was saved with other options: -i, --first and --overlapping must be as there")]
    OtherOptions(&'a str),
    /// An automaton cannot be written.
    #[error("daacgrep: cannot write {0}")]
    Save(&'a str),
    /// An allocation failed.
    #[error("daacgrep: {0}")]
    OutOfMemory(AllocError),
    /// The sink failed.
    #[error("daacgrep: cannot write")]
    Write,
}

impl<'a> From<OptionError<'a>> for CommandError<'a> {
    ghost use Rattle.daacgrep_command.specs.declared.error.CommandError.TheVariants.{Options};

    ghost from_gives = { λ cause e. e ≡ Options cause };

    fn from(cause: OptionError<'a>) -> Self {
        CommandError::Options(cause)
    }
}

impl From<DaachorseError> for CommandError<'_> {
    ghost use Rattle.daacgrep_command.specs.declared.error.CommandError.TheVariants.{Build};

    ghost from_gives = { λ cause e. e ≡ Build cause };

    fn from(cause: DaachorseError) -> Self {
        CommandError::Build(cause)
    }
}

impl From<AllocError> for CommandError<'_> {
    ghost use Rattle.std.specs.Prelude.{alloc_error};
    ghost use Rattle.daacgrep_command.specs.declared.error.CommandError.TheVariants.{OutOfMemory};

    ghost from_gives = { λ _ e. e ≡ OutOfMemory alloc_error };

    fn from(error: AllocError) -> Self {
        CommandError::OutOfMemory(error)
    }
}

impl From<SinkError> for CommandError<'_> {
    ghost use Rattle.daacgrep_command.specs.declared.error.CommandError.TheVariants.{Write};

    ghost from_gives = { λ _ e. e ≡ Write };

    fn from(_failure: SinkError) -> Self {
        CommandError::Write
    }
}
