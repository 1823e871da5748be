//! What the command says beside its text.

ghost use Rattle.std.specs.Prelude.{◌∷◌, [], List, Option};
ghost use Rattle.daacgrep_command.specs.Messages.{Notice, Sends, notice_of};

use crate::error::CommandError;
use daacfind_command::sink::{SinkText, WriterSink};
use std::fmt::Write as _;
use std::io::Write;
use thiserror::Error;

/// A message of the command. Its text is the line for standard error.
#[derive(Debug, Drop, Error)]
pub enum Message<'a> {
    /// The command failed.
    #[error(transparent)]
    Failure(CommandError<'a>),
    /// A file cannot be read, or not to its end, and the search goes on with the next.
    #[error("daacgrep: cannot read {0}")]
    Unread(&'a str),
    /// A line of the patterns ends with a carriage return.
    #[error("daacgrep: a line of patterns ends with a carriage return, which is part of it")]
    CarriageReturn,
}

/// Where the command's messages go.
pub trait Messages {
    // The messages that were sent, in order, if known.
    ghost sent: { Self → Option (List Notice) };

    /// Sends a message. A failure changes nothing else.
    fn send(&mut self, message: Message<'_>)
        ensures { Sends (sent self.old) (sent self.new) (notice_of message.entry ∷ []) };
}

impl<W: Write> Messages for WriterSink<W> {
    ghost use Rattle.std.specs.Prelude.{None};

    // A writer shows bytes, and no messages.
    ghost sent = { λ _. None };

    fn send(&mut self, message: Message<'_>) {
        let _ = writeln!(SinkText { sink: self }, "{message}");
    }
}
