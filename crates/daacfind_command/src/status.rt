//! The status of a command, and the line on standard error if it fails.

ghost use Rattle.std.specs.Prelude.{◌≡◌};
ghost use Rattle.daacfind_command.specs.Commands.{status_of};

use crate::sink::{Sink, SinkText};
use std::fmt::{Display, Write};

/// Why a command failed.
#[derive(Debug, Drop)]
pub enum CommandError<'a, E> {
    /// The arguments ask for nothing.
    Usage,
    /// The file of this name cannot be read.
    Read(&'a str),
    /// What the arguments ask for failed.
    Run(E),
}

/// Returns the status of an attempt: 0 if it succeeded, 2 after wrong usage, else 1. If it failed,
/// a line on `err` gives the cause. A failure of `err` is ignored.
pub fn status<E: Display + Drop, S: Sink>(
    attempt: Result<(), CommandError<'_, E>>,
    program: &str,
    usage: &str,
    err: &mut S,
) -> u8
    ensures { result ≡ status_of attempt.entry }
{
    match attempt {
        Ok(()) => 0,
        Err(error) => {
            report(&error, program, usage, err);
            match error {
                CommandError::Usage => 2,
                CommandError::Read(_) | CommandError::Run(_) => 1,
            }
        }
    }
}

fn report<E: Display, S: Sink>(
    error: &CommandError<'_, E>,
    program: &str,
    usage: &str,
    err: &mut S,
) {
    let mut err = SinkText { sink: err };
    let _ = match error {
        CommandError::Usage => writeln!(err, "usage: {program} {usage}"),
        CommandError::Read(name) => writeln!(err, "{program}: cannot read {name}"),
        CommandError::Run(error) => writeln!(err, "{error}"),
    };
}
