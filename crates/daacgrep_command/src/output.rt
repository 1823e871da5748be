//! Where the command's text goes.

ghost use Rattle.std.specs.Prelude.{◌≡◌, OnOk};
ghost use Rattle.std.specs.Io.KnownBytes.{Keeps};
ghost use Rattle.daacfind_command.specs.Failures.{failures_after_flush};
ghost use Rattle.daacgrep_command.specs.Sending.{IsWritten, Sent};

use daacfind_command::sink::{Sink, SinkError, write_whole};

/// Where the command's text goes.
pub trait Output {
    // What was sent.
    ghost sees: { Self → Sent };

    /// Writes all bytes. If it fails, a beginning of them was taken.
    fn write(&mut self, bytes: &[u8]) -> Result<(), SinkError>
        ensures { IsWritten (sees self.old) (sees self.new) result bytes.now };

    /// Passes on what is buffered.
    fn flush(&mut self) -> Result<(), SinkError>
        ensures taken { Keeps (sees self.old).taken (sees self.new).taken }
        ensures failures { (sees self.new).failures ≡ failures_after_flush result (sees self.old).failures }
        ensures flushed { OnOk result ((sees self.new).unflushed ≡ 0) };
}

impl<S: Sink> Output for S {
    ghost sees = { λ s. record { taken = S.taken s; failures = S.failures s; unflushed = S.unflushed s } };

    fn write(&mut self, bytes: &[u8]) -> Result<(), SinkError> {
        write_whole(self, bytes)
    }

    fn flush(&mut self) -> Result<(), SinkError> {
        Sink::flush(self)
    }
}
