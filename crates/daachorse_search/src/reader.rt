//! Sources that read from a reader, up to its end or its first error.

ghost use Rattle.std.specs.Prelude.{◌≡◌, [], None, Option, Some, IfErr, IfOk, IfSome, MatchOption, OnErr};
ghost use Rattle.std.specs.IoError.{error_kind};
ghost use Rattle.std.specs.declared.io.Error.{Error};
ghost use Rattle.std.specs.declared.io.ErrorKind.TheVariants.{OutOfMemory};
ghost use Rattle.std.specs.Io.KnownBytes.{Keeps};
ghost use Rattle.daachorse_search.specs.Readers.{IsInBlocks, IsLasting, IsWrongText, MayReadBytes, TakesNext, to_read};

use crate::reader_end::ReaderEnd;
use daachorse_core::ascii_fold::AsciiFold;
use daachorse_haystack::source::Source;
use std::alloc::Allocator;
use std::io::{self, BufRead, BufReader, ErrorKind, Read};
use std::marker::Model;

/// A source that reads from a reader, and may fail.
pub trait ReadSource<U: AsciiFold>: Source<U> {
    /// The error at which it ended, if it did.
    ghost failure: { Self → Option Error };

    /// Returns the error at which it ended, or `None` if the reader came to its end.
    fn into_failure(self) -> Option<io::Error>
        ensures failure { result ≡ failure self }
        ensures lasting { IfSome result IsLasting };
}

// How many bytes a block holds.
const BLOCK: usize = 65536;

/// Reads by blocks of 64 KiB, which take the one allocation.
pub fn in_blocks<R: Read, A: Allocator>(alloc: A, reader: R) -> io::Result<BufReader<R, A>>
where
    R: Drop,
    ensures reads { IfOk result (IsInBlocks R.remaining reader) }
    ensures err { IfErr result (λ e. error_kind e ≡ OutOfMemory) }
{
    BufReader::with_capacity(alloc, BLOCK, reader)
}

/// The bytes of a reader.
#[derive(Drop)]
pub struct ReadBytes<R> {
    reader: R,
    // How many more bytes have a place that fits.
    left: u64,
    failure: Option<io::Error>,
    end: ReaderEnd,
}

impl<R> Model for ReadBytes<R> {
    ghost use Rattle.std.specs.Prelude.{IfSome, []};
    ghost use Rattle.daachorse_search.specs.Readers.{IsLasting, Reading};

    ghost Value = { Reading R };

    ghost view = { λ s. record { reader = s.reader; ahead = []; left = s.left; failure = s.failure; end = s.end } };

    ghost invariant = { λ s. IfSome s.failure IsLasting };
}

impl<R: BufRead> ReadBytes<R> {
    /// What the reader gives from here on.
    pub fn new(reader: R) -> Self
        ensures reader { result ≡ to_read reader }
        ensures may { MayReadBytes result [] }
    {
        Self {
            reader,
            left: u64::MAX,
            failure: None,
            end: ReaderEnd::none(),
        }
    }

    /// The reader, and how many more of its bytes have a place that fits.
    pub fn into_parts(self) -> (R, u64)
        ensures reader { result.0 ≡ self.reader }
        ensures left { result.1 ≡ self.left }
        ensures ahead { self.ahead ≡ [] }
    {
        (self.reader, self.left)
    }

    /// A source that goes on with a reader, of which so many more bytes have a place that fits.
    pub fn from_parts(reader: R, left: u64) -> Self
        ensures { result ≡ record { reader = reader; ahead = []; left = left; failure = None; end = None } }
    {
        Self {
            reader,
            left,
            failure: None,
            end: ReaderEnd::none(),
        }
    }

    /// A source whose reader has ended, with an error or with none.
    ///
    /// # Conditions
    /// The error is no interruption.
    pub fn ended(reader: R, left: u64, failure: Option<io::Error>) -> Self
        requires { IfSome failure IsLasting }
        ensures { result ≡ record { reader = reader; ahead = []; left = left; failure = failure; end = Some failure } }
    {
        let end = ReaderEnd::with(&failure);
        Self {
            reader,
            left,
            failure,
            end,
        }
    }

    /// Fails at what was read last, which is no UTF-8.
    pub(crate) fn refuse_text(&mut self)
        ensures same { self.new ≡ record self.old { failure = self.new.failure } }
        ensures failure { IsWrongText self.new.failure }
    {
        self.failure = Some(io::Error::from(ErrorKind::InvalidData));
    }

    /// Fails at the end of what it reads, which is no UTF-8, unless it has failed.
    pub(crate) fn refuse_end(&mut self)
        ensures same { self.new ≡ record self.old { failure = self.new.failure } }
        ensures failure { MatchOption self.old.failure (IsWrongText self.new.failure) (λ e. self.new.failure ≡ Some e) }
    {
        if self.failure.is_none() {
            self.refuse_text();
        }
    }

    /// Ends as the reader did, with an error or with none.
    fn end(&mut self, failure: Option<io::Error>)
        requires { IfSome failure IsLasting }
        ensures { self.new ≡ record self.old { failure = failure; end = Some failure } }
    {
        self.end = ReaderEnd::with(&failure);
        self.failure = failure;
    }
}

impl<R: BufRead> Iterator for ReadBytes<R>
where
    R: Drop,
{
    ghost use Rattle.std.specs.Iterator.{at_most};
    ghost use Rattle.daachorse_search.specs.Readers.{GivesByte};

    type Item = u8;

    ghost next_gives = { GivesByte R.remaining };

    ghost remaining = { λ s. at_most s.left };

    #[inline(always)]
    fn next(&mut self) -> Option<u8> {
        if self.left == 0 {
            self.failure = Some(io::Error::from(ErrorKind::FileTooLarge));
            return None;
        }
        match take_lasting(&mut self.reader) {
            Ok(Some(byte)) => {
                self.left -= 1;
                Some(byte)
            }
            Ok(None) => {
                self.end(None);
                None
            }
            Err(error) => {
                self.end(Some(error));
                None
            }
        }
    }
}

impl<R: BufRead> Source<u8> for ReadBytes<R>
where
    R: Drop,
{
    ghost use Rattle.daachorse_search.specs.Readers.{MayReadBytes};
    ghost use Rattle.daachorse_search.specs.ByteReaders.{MayReadBytes-ready, MayReadBytes-kept};

    ghost may_read = { MayReadBytes };

    ghost ready = { MayReadBytes-ready R.remaining };

    ghost kept = { λ s read xs t may took fewer ready. MayReadBytes-kept R.remaining s read xs t may took };
}

impl<R: BufRead> ReadSource<u8> for ReadBytes<R>
where
    R: Drop,
{
    ghost failure = { λ s. s.failure };

    fn into_failure(self) -> Option<io::Error> {
        self.failure
    }
}

/// Takes the next byte, or returns `None` at the end. Tries again after an interruption.
#[inline(always)]
fn take_lasting<R: BufRead>(reader: &mut R) -> io::Result<Option<u8>>
    ensures taken { IfOk result (λ byte. TakesNext (R.remaining reader.old) byte (R.remaining reader.new)) }
    ensures kept { OnErr result (Keeps (R.remaining reader.old) (R.remaining reader.new)) }
    ensures lasting { IfErr result IsLasting }
{
    for _ in 0..u64::MAX {
        match take_byte(reader) {
            Err(error) if error.kind() == ErrorKind::Interrupted => {}
            taken => return taken,
        }
    }
    Err(io::Error::from(ErrorKind::TimedOut))
}

/// Takes the next byte, or returns `None` at the end.
#[inline(always)]
fn take_byte<R: BufRead>(reader: &mut R) -> io::Result<Option<u8>>
    ensures taken { IfOk result (λ byte. TakesNext (R.remaining reader.old) byte (R.remaining reader.new)) }
    ensures kept { OnErr result (Keeps (R.remaining reader.old) (R.remaining reader.new)) }
{
    let shown = reader.fill_buf()?;
    if shown.is_empty() {
        return Ok(None);
    }
    let byte = shown[0];
    reader.consume(1);
    Ok(Some(byte))
}
