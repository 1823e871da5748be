//! What the command is given: its files and its arguments.

ghost use Rattle.std.specs.Prelude.{◌≡◌, ℕ, List, None, Option};
ghost use Rattle.std.specs.Option.{option_map};
ghost use Rattle.daacfind_command.specs.Commands.{Tells};

use std::alloc::{AllocError, Global};
use std::env::FillError;
use std::fs;
use std::rt::{Env, Files};

// One more than any command takes, so that too many are noticed.
const MOST_ARGUMENTS: usize = 5;

/// Files by name.
pub trait Inputs {
    // The files' bytes by name, if known, and none for a file that cannot be read.
    ghost given: { Self → Option (List ℕ → Option (List ℕ)) };

    /// Reads the bytes of a file, or returns `None` if it cannot be read.
    fn read(&mut self, name: &str) -> Option<Vec<u8>>
        ensures told { Tells (given self.old) name.now (option_map (λ bytes. bytes.items) result) }
        ensures same { given self.new ≡ given self.old };
}

/// The files of the system.
#[derive(Drop)]
pub struct FileInputs<'a, R: Files + AllocGlobal> {
    rt: &'a R,
}

impl<'a, R: Files + AllocGlobal> FileInputs<'a, R> {
    /// The files that `rt` reaches.
    pub fn new(rt: &'a R) -> Self {
        FileInputs { rt }
    }
}

impl<R: Files + AllocGlobal> Inputs for FileInputs<'_, R> {
    // No contract can say what a file has.
    ghost given = { λ _. None };

    fn read(&mut self, name: &str) -> Option<Vec<u8>> {
        fs::read(self.rt, name).ok()
    }
}

/// The bytes of the arguments after the program's name, at most five of them.
#[derive(Drop)]
pub struct Arguments {
    list: Vec<Vec<u8>>,
}

impl Arguments {
    /// Reads the arguments that `rt` has. Fails if an allocation does.
    pub fn read(rt: &impl Env, alloc: Global) -> Result<Arguments, AllocError> {
        let mut list = Vec::new(alloc);
        for place in 1..=MOST_ARGUMENTS {
            match argument(rt, alloc, place)? {
                Some(argument) => list.push(argument)?,
                None => break,
            }
        }
        Ok(Arguments { list })
    }

    /// Returns each argument as text, or `None` if it is not UTF-8. Fails if an allocation does.
    pub fn texts(&self, alloc: Global) -> Result<Vec<Option<&str>>, AllocError> {
        let mut texts = Vec::with_capacity(alloc, self.list.len())?;
        for argument in &self.list {
            texts.push(str::from_utf8(argument).ok())?;
        }
        Ok(texts)
    }
}

// The argument at a place, in a buffer that is doubled until it fits.
fn argument(rt: &impl Env, alloc: Global, place: usize) -> Result<Option<Vec<u8>>, AllocError> {
    let mut buffer = Vec::from_elem(alloc, 0u8, 256)?;
    for _ in 0..u64::BITS {
        match rt.arg(place, &mut buffer) {
            Ok(len) => {
                buffer.truncate(len);
                return Ok(Some(buffer));
            }
            Err(FillError::NotPresent) => return Ok(None),
            Err(FillError::TooLong) => {
                let len = buffer.len().saturating_mul(2);
                buffer.resize(len, 0)?;
            }
        }
    }
    Err(AllocError)
}
