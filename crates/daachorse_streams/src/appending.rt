//! Where pieces go: to the end of a vector or a string, or into a writer.

ghost use Rattle.std.specs.Prelude.{◌≡◌, ℕ, List, Option, Some, OnErr, OnOk, length};
ghost use Rattle.std.specs.Io.KnownBytes.{Appends};
ghost use Rattle.std.specs.String.{string_bytes};
ghost use Rattle.daachorse_streams.specs.Replaced.{AppendsBeginning, AppendsPart};

use crate::piece::Piece;
use std::alloc::{AllocError, Allocator};
use std::io::{self, ErrorKind, Write};

/// A way to append pieces `P` to an output `O`.
pub trait Appending<P: Piece, O> {
    /// What the output holds, if that is known.
    ghost taken: { O → Option (List ℕ) };

    /// Why an output refuses.
    type Error;

    /// Appends the piece. An output that refuses has taken a prefix of it.
    fn append(out: &mut O, piece: P) -> Result<(), Self::Error>
        ensures whole { OnOk result (Appends (taken out.old) (taken out.new) (P.bytes piece)) }
        ensures beginning { OnErr result (AppendsBeginning (taken out.old) (taken out.new) (P.bytes piece)) };
}

/// A vector takes bytes.
impl<'a, A: Allocator> Appending<&'a [u8], Vec<u8, A>> for Vec<u8, A> {
    ghost taken = { λ v. Some v.items };

    type Error = AllocError;

    #[inline(always)]
    fn append(out: &mut Vec<u8, A>, piece: &'a [u8]) -> Result<(), AllocError> {
        out.extend_from_slice(piece)
    }
}

/// A string takes text.
impl<'a, A: Allocator> Appending<&'a str, String<A>> for String<A> {
    ghost taken = { λ s. Some (string_bytes s) };

    type Error = AllocError;

    #[inline(always)]
    fn append(out: &mut String<A>, piece: &'a str) -> Result<(), AllocError> {
        out.push_str(piece)
    }
}

/// Writes bytes or text into a writer.
pub struct ToWriter;

impl<P: Piece, W: Write> Appending<P, W> for ToWriter {
    ghost taken = { W.contents };

    type Error = io::Error;

    #[inline(always)]
    fn append(out: &mut W, piece: P) -> Result<(), io::Error> {
        write_whole(out, piece.as_bytes())
    }
}

/// Writes all bytes, in as many writes as the writer needs. Fails with its first error, or with
/// [`ErrorKind::WriteZero`] if it takes none of some bytes, after a prefix was written.
pub fn write_whole<W: Write>(out: &mut W, bytes: &[u8]) -> io::Result<()>
    ensures whole { OnOk result (Appends (W.contents out.old) (W.contents out.new) bytes.now) }
    ensures part { OnErr result (AppendsPart (W.contents out.old) (W.contents out.new) bytes.now) }
{
    let mut rest = bytes;
    while !rest.is_empty() {
        match out.write(rest)? {
            0 => return Err(io::Error::from(ErrorKind::WriteZero)),
            n => rest = &rest[n..],
        }
    }
    Ok(())
}
