//! A writer with little room, and what takes the place of matches.

use crate::automata::{Automaton, BUILT, Bytewise, Charwise, LONGEST, Patvals, Way};
use crate::expect_over;
use crate::readers::slowly;
use daachorse::Match;
use std::alloc::{AllocError, Allocator, Global};
use std::io::{self, ErrorKind, Write};
use std::test::Fail;

/// The replacement of a match: `-` for value 0, and else the match itself.
pub fn instead(found: Match<u32>, part: &[u8]) -> &[u8] {
    if found.value() == 0 { b"-" } else { part }
}

/// The replacement of a match in a text: `-` for value 0, and else the match itself.
pub fn instead_of_text(found: Match<u32>, part: &str) -> &str {
    if found.value() == 0 { "-" } else { part }
}

/// Appends the part in brackets.
pub fn bracket<A: Allocator>(part: &[u8], out: &mut Vec<u8, A>) -> Result<(), AllocError> {
    out.push(b'[')?;
    out.extend_from_slice(part)?;
    out.push(b']')?;
    Ok(())
}

/// Appends the part of a text in brackets.
pub fn bracket_text<A: Allocator>(part: &str, out: &mut String<A>) -> Result<(), AllocError> {
    out.push('[')?;
    out.push_str(part)?;
    out.push(']')?;
    Ok(())
}

/// Writes the part of a match in brackets.
pub fn write_bracketed<W: Write>(_found: Match<u32>, part: &[u8], out: &mut W) -> io::Result<()> {
    out.write_all(b"[")?;
    out.write_all(part)?;
    out.write_all(b"]")
}

/// A writer that takes one byte a call, and fails if there is no room.
#[derive(Drop)]
struct Narrow {
    room: usize,
    taken: Vec<u8>,
}

impl Write for Narrow {
    fn write(&mut self, buf: &[u8]) -> io::Result<usize> {
        match buf.first() {
            None => Ok(0),
            Some(_) if self.room == 0 => Err(io::Error::from(ErrorKind::Other)),
            Some(byte) => {
                self.taken.push(*byte)?;
                self.room -= 1;
                Ok(1)
            }
        }
    }

    fn flush(&mut self) -> io::Result<()> {
        Ok(())
    }
}

/// A way, patterns, what a reader gives, and that with each match in brackets.
type Row = (Way, Patvals, &'static str, &'static str);

const ROWS: [Row; 2] = [
    (
        BUILT,
        &[("世界", 0), ("ab", 1), ("b", 2)],
        "xab世界世b",
        "x[ab][世界]世[b]",
    ),
    (
        LONGEST,
        &[("secret", 0), ("secretary", 1)],
        "a secretion, secret",
        "a [secret]ion, [secret]",
    ),
];

/// Whether what a row says is written up to the room of the writer, which fails if that is not all.
fn holds<S: Automaton<Alloc = Global>>(alloc: Global, row: &Row) -> io::Result<bool> {
    let (way, patvals, text, expected) = *row;
    let words = S::built(alloc, way, patvals)?;
    for room in 0..expected.len() + 2 {
        let mut writer = Narrow {
            room,
            taken: Vec::new(alloc),
        };
        let outcome = words.brackets(alloc, slowly(text.as_bytes(), None), &mut writer);
        let whole = expected.as_bytes();
        let len = room.min(whole.len());
        if writer.taken[..] != whole[..len] || outcome.is_ok() != (len == whole.len()) {
            return Ok(false);
        }
    }
    Ok(true)
}

#[test]
fn a_writer_that_fails_ends_a_replacement(rt: HostRuntime) -> Result<(), Fail> {
    for row in &ROWS {
        expect_over(&rt, holds::<Bytewise>(rt.alloc(), row)?, row.2, "bytes");
        expect_over(
            &rt,
            holds::<Charwise>(rt.alloc(), row)?,
            row.2,
            "characters",
        );
    }
    Ok(())
}
