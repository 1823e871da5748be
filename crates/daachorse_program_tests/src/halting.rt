//! A writer that takes so many bytes, and then no more.

use std::alloc::Global;
use std::io::{self, Write};

/// What a writer does once it takes no more.
#[derive(Clone, Copy)]
pub enum Halt {
    Fails,
    TakesNothing,
}

/// A writer that takes `left` bytes, one a call, and then halts. A flush records how many bytes were
/// taken, and fails unless `can_flush`.
#[derive(Drop)]
pub struct Halting {
    pub left: usize,
    pub halt: Halt,
    pub taken: Vec<u8>,
    pub can_flush: bool,
    pub flushes: Vec<usize>,
}

impl Halting {
    /// A writer that takes this many bytes, and then fails.
    pub fn new(alloc: Global, left: usize) -> Halting {
        Halting {
            left,
            halt: Halt::Fails,
            taken: Vec::new(alloc),
            can_flush: true,
            flushes: Vec::new(alloc),
        }
    }
}

impl Write for Halting {
    fn write(&mut self, buf: &[u8]) -> io::Result<usize> {
        let byte = match (self.left, self.halt, buf.first()) {
            (0, Halt::Fails, _) => return Err(io::Error::from(io::ErrorKind::Other)),
            (0, Halt::TakesNothing, _) | (_, _, None) => return Ok(0),
            (_, _, Some(byte)) => *byte,
        };
        self.taken.push(byte)?;
        self.left -= 1;
        Ok(1)
    }

    fn flush(&mut self) -> io::Result<()> {
        self.flushes.push(self.taken.len())?;
        if self.can_flush {
            Ok(())
        } else {
            Err(io::Error::from(io::ErrorKind::Other))
        }
    }
}
