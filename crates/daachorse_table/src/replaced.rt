//! What is written in place of matches, and where it goes.

use crate::case::Case;
use crate::report::{Differences, Form, Stop};
use crate::searched::Searched;
use daachorse::Match;
use std::alloc::{AllocError, Global};
use std::io::{self, ErrorKind, Read, Write};

/// What is written for a match.
#[derive(Clone, Copy, PartialEq, Eq)]
pub enum Style {
    /// A hyphen for value 0, nothing for 1, and else the match itself.
    Replaced,
    /// The match in brackets; a match of value 9 fails.
    Bracketed,
}

/// The replacement of a match.
pub fn instead(found: Match<u32>, part: &[u8]) -> &[u8] {
    match found.value() {
        0 => b"-",
        1 => b"",
        _ => part,
    }
}

/// The replacement of a match in a text.
pub fn instead_of_text(found: Match<u32>, part: &str) -> &str {
    match found.value() {
        0 => "-",
        1 => "",
        _ => part,
    }
}

/// Writes what stands for a match.
pub fn write_styled<W: Write>(
    style: Style,
    found: Match<u32>,
    part: &[u8],
    out: &mut W,
) -> io::Result<()> {
    match style {
        Style::Replaced => out.write_all(instead(found, part)),
        Style::Bracketed => write_bracketed(found, part, out),
    }
}

fn write_bracketed<W: Write>(found: Match<u32>, part: &[u8], out: &mut W) -> io::Result<()> {
    if found.value() == 9 {
        return Err(io::Error::from(ErrorKind::Other));
    }
    out.write_all(b"[")?;
    out.write_all(part)?;
    out.write_all(b"]")
}

/// Appends what stands for a match.
pub fn append_styled(
    style: Style,
    found: Match<u32>,
    part: &[u8],
    out: &mut Vec<u8>,
) -> Result<(), AllocError> {
    match style {
        Style::Replaced => out.extend_from_slice(instead(found, part)),
        Style::Bracketed => append_bracketed(found, part, out),
    }
}

fn append_bracketed(found: Match<u32>, part: &[u8], out: &mut Vec<u8>) -> Result<(), AllocError> {
    if found.value() == 9 {
        return Err(AllocError);
    }
    out.push(b'[')?;
    out.extend_from_slice(part)?;
    out.push(b']')?;
    Ok(())
}

/// Appends what stands for a match in a text.
pub fn append_text_styled(
    style: Style,
    found: Match<u32>,
    part: &str,
    out: &mut String,
) -> Result<(), AllocError> {
    match style {
        Style::Replaced => out.push_str(instead_of_text(found, part)),
        Style::Bracketed => append_bracketed_text(found, part, out),
    }
}

fn append_bracketed_text(
    found: Match<u32>,
    part: &str,
    out: &mut String,
) -> Result<(), AllocError> {
    if found.value() == 9 {
        return Err(AllocError);
    }
    out.push('[')?;
    out.push_str(part)?;
    out.push(']')
}

/// A writer that takes one byte a call, and fails if there is no room.
#[derive(Drop)]
pub struct Narrow {
    room: usize,
    taken: Vec<u8>,
}

impl Write for Narrow {
    fn write(&mut self, buf: &[u8]) -> io::Result<usize> {
        match buf.first() {
            None => Ok(0),
            Some(_) if self.room == 0 => Err(io::Error::from(ErrorKind::Other)),
            Some(byte) => {
                self.taken.push(*byte)?;
                self.room -= 1;
                Ok(1)
            }
        }
    }

    fn flush(&mut self) -> io::Result<()> {
        Ok(())
    }
}

/// A reader that gives at most three bytes a call, and is interrupted three times before each.
#[derive(Drop)]
pub struct Slow<'a> {
    left: &'a [u8],
    interruptions: u8,
}

impl<'a> Slow<'a> {
    pub fn new(left: &'a [u8]) -> Self {
        Self {
            left,
            interruptions: 0,
        }
    }
}

impl<'a> Read for Slow<'a> {
    fn read(&mut self, room: &mut [u8]) -> io::Result<usize> {
        if self.interruptions < 3 {
            self.interruptions += 1;
            return Err(io::Error::from(ErrorKind::Interrupted));
        }
        self.interruptions = 0;
        let count = room.len().min(3);
        self.left.read(&mut room[..count])
    }
}

/// What is to be written.
#[derive(Drop)]
pub struct Written {
    pub style: Style,
    pub whole: Vec<u8>,
    /// Whether an error comes behind it.
    pub fails: bool,
}

impl Written {
    /// Whether a writer with this room took as much as it had room for, and there was an error if
    /// that is not all.
    fn is_begun(&self, outcome: io::Result<()>, writer: &Narrow, room: usize) -> bool {
        let taken = room.min(self.whole.len());
        let is_all = taken == self.whole.len() && !self.fails;
        writer.taken[..] == self.whole[..taken] && outcome.is_ok() == is_all
    }

    /// Whether a vector holds all, and there was an error if one comes behind it.
    fn is_whole(&self, outcome: Option<(Vec<u8>, bool)>) -> bool {
        match outcome {
            Some((taken, is_ok)) => taken == self.whole && is_ok != self.fails,
            None => false,
        }
    }

    /// The rooms to try: each up to more than enough, or those near none and enough of a long text.
    /// Only the greatest one unless `in_each_room`.
    fn rooms(&self, alloc: Global, in_each_room: bool) -> Result<Vec<usize>, AllocError> {
        let len = self.whole.len();
        let mut rooms = Vec::new(alloc);
        for room in 0..=len {
            if in_each_room && (room < 16 || room >= len.saturating_sub(1)) {
                rooms.push(room)?;
            }
        }
        rooms.push(len.saturating_add(1))?;
        Ok(rooms)
    }
}

fn make_narrow(alloc: Global, room: usize) -> Narrow {
    Narrow {
        room,
        taken: Vec::new(alloc),
    }
}

/// Compares what a search writes in place of matches, by each call, with what a row says.
pub fn compare_replaced<S: Searched>(
    alloc: Global,
    searched: &S,
    case: &Case,
    written: &Written,
    in_each_room: bool,
    differences: &mut Differences,
) -> Result<(), Stop> {
    for room in &written.rooms(alloc, in_each_room)? {
        compare_read(alloc, searched, case, written, *room, differences);
    }
    if !case.is_invalid(S::width()) {
        for room in &written.rooms(alloc, true)? {
            compare_written(alloc, searched, case, written, *room, differences);
        }
        compare_vectors(alloc, searched, case, written, differences);
    }
    Ok(())
}

fn compare_vectors<S: Searched>(
    alloc: Global,
    searched: &S,
    case: &Case,
    written: &Written,
    differences: &mut Differences,
) {
    if written.style == Style::Replaced {
        let holds = written.is_whole(searched.replaced(alloc, case));
        differences.note(Form::Vector, holds);
    }
    let holds = written.is_whole(searched.replaced_with(alloc, written.style, case));
    differences.note(Form::VectorWith, holds);
}

fn compare_written<S: Searched>(
    alloc: Global,
    searched: &S,
    case: &Case,
    written: &Written,
    room: usize,
    differences: &mut Differences,
) {
    if written.style == Style::Replaced {
        let mut writer = make_narrow(alloc, room);
        let outcome = searched.replaces_into(case, &mut writer);
        differences.note(Form::Writer, written.is_begun(outcome, &writer, room));
    }
    let mut writer = make_narrow(alloc, room);
    let outcome = searched.replaces_into_with(written.style, case, &mut writer);
    differences.note(Form::WriterWith, written.is_begun(outcome, &writer, room));
}

fn compare_read<S: Searched>(
    alloc: Global,
    searched: &S,
    case: &Case,
    written: &Written,
    room: usize,
    differences: &mut Differences,
) {
    let mut writer = make_narrow(alloc, room);
    let reader = Slow::new(&case.bytes);
    let outcome = searched.replaces_from_reader(alloc, written.style, reader, &mut writer);
    differences.note(Form::SlowReader, written.is_begun(outcome, &writer, room));
}
