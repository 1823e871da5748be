//! Where text goes.

ghost use Rattle.std.specs.Prelude.{◌≡◌, ℕ, ◌+◌, ◌≤◌, List, Option, length, IfOk, OnOk, OnErr};
ghost use Rattle.std.specs.Io.KnownBytes.{Appends, Keeps, WriteAppends};
ghost use Rattle.daachorse.specs.Replaced.{AppendsBeginning};
ghost use Rattle.daacfind_command.specs.Failures.{failures_after_write, failures_after_flush};

use daachorse::counter::Counter;
use std::fmt;
use std::io::Write;
use std::marker::Model;

/// A sink could not take bytes.
#[derive(Clone, Copy, Debug, PartialEq, Eq)]
pub struct SinkError;

/// A place that takes bytes, perhaps only some at a time, and counts its failures: errors, and
/// writes that take none of some bytes.
pub trait Sink {
    // The bytes that the sink took, if known.
    ghost taken: { Self → Option (List ℕ) };

    // The number of failures.
    ghost failures: { Self → ℕ };

    // The number of writes after the last flush.
    ghost unflushed: { Self → ℕ };

    /// Takes the first `n` bytes and returns `n`. An error means that it took none.
    fn write(&mut self, bytes: &[u8]) -> Result<usize, SinkError>
        ensures bound { IfOk result (λ n. n ≤ length bytes.now) }
        ensures taken { WriteAppends (taken self.old) (taken self.new) result bytes.now }
        ensures failures { failures self.new ≡ failures_after_write result bytes.now (failures self.old) }
        ensures unflushed { unflushed self.new ≡ unflushed self.old + 1 };

    /// Passes on what is buffered.
    fn flush(&mut self) -> Result<(), SinkError>
        ensures taken { Keeps (taken self.old) (taken self.new) }
        ensures failures { failures self.new ≡ failures_after_flush result (failures self.old) }
        ensures flushed { OnOk result (unflushed self.new ≡ 0) };
}

/// A sink over a writer. Its counts are for contracts alone, and take no space.
#[derive(Drop)]
pub struct WriterSink<W: Write> {
    writer: W,
    failures: Counter,
    unflushed: Counter,
}

impl<W: Write> Model for WriterSink<W> {
    ghost use Rattle.daacfind_command.specs.Sinks.{CountedWriter};

    ghost Value = { CountedWriter W };

    ghost view = { λ s. record { writer = s.writer; failures = s.failures; unflushed = s.unflushed } };
}

impl<W: Write> WriterSink<W> {
    /// Makes a sink over the writer, with no failure and no write so far.
    pub fn new(writer: W) -> Self
        ensures writer { result.writer ≡ writer }
        ensures failures { result.failures ≡ 0 }
        ensures unflushed { result.unflushed ≡ 0 }
    {
        WriterSink {
            writer,
            failures: Counter::new(),
            unflushed: Counter::new(),
        }
    }

    /// Returns the writer.
    pub fn writer(&self) -> &W
        ensures { result.now ≡ self.now.writer }
    {
        &self.writer
    }

    fn fail(&mut self) -> SinkError
        ensures writer { self.new.writer ≡ self.old.writer }
        ensures failures { self.new.failures ≡ self.old.failures + 1 }
        ensures unflushed { self.new.unflushed ≡ self.old.unflushed }
    {
        self.failures.increment();
        SinkError
    }
}

impl<W: Write> Sink for WriterSink<W> {
    ghost taken = { λ s. W.contents s.writer };

    ghost failures = { λ s. s.failures };

    ghost unflushed = { λ s. s.unflushed };

    fn write(&mut self, bytes: &[u8]) -> Result<usize, SinkError> {
        self.unflushed.increment();
        match self.writer.write(bytes) {
            Ok(0) if !bytes.is_empty() => {
                self.fail();
                Ok(0)
            }
            Ok(n) => Ok(n),
            Err(_) => Err(self.fail()),
        }
    }

    fn flush(&mut self) -> Result<(), SinkError> {
        match self.writer.flush() {
            Ok(()) => {
                self.unflushed = Counter::new();
                Ok(())
            }
            Err(_) => Err(self.fail()),
        }
    }
}

/// Writes all bytes, in as many writes as the sink needs. If it fails, it has taken a prefix of
/// them, and no write follows the failure.
pub fn write_whole<S: Sink>(out: &mut S, bytes: &[u8]) -> Result<(), SinkError>
    ensures whole { OnOk result (Appends (S.taken out.old) (S.taken out.new) bytes.now) }
    ensures unfailed { OnOk result (S.failures out.new ≡ S.failures out.old) }
    ensures beginning { OnErr result (AppendsBeginning (S.taken out.old) (S.taken out.new) bytes.now) }
    ensures failed { OnErr result (S.failures out.new ≡ S.failures out.old + 1) }
{
    let mut rest = bytes;
    while !rest.is_empty() {
        match out.write(rest)? {
            0 => return Err(SinkError),
            n => rest = &rest[n..],
        }
    }
    Ok(())
}

/// A sink that takes formatted text.
#[derive(Drop)]
pub struct SinkText<'a, S: Sink> {
    /// The sink.
    pub sink: &'a mut S,
}

impl<S: Sink> fmt::Write for SinkText<'_, S> {
    ghost use Rattle.std.specs.Io.KnownBytes.{Appends};

    ghost write_str_gives = { λ old text new. Appends (S.taken old.sink.now) (S.taken new.sink.now) text };

    fn write_str(&mut self, text: &str) -> fmt::Result {
        write_whole(self.sink, text.as_bytes()).map_err(|_| fmt::Error)
    }
}
