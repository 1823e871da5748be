//! What the program has around its command: its words, its files and its streams.

ghost use Rattle.std.specs.Prelude.{◌≤◌, IfOk, length};
ghost use Rattle.std.specs.Io.KnownBytes.{ReadConsumes};

use crate::command::command;
use crate::file_system::{FileSystem, ReadError};
use daacfind_command::sink::{SinkError, WriterSink};
use daachorse::counter::Counter;
use std::alloc::Global;
use std::fs::File;
use std::io::{self, BufWriter, ErrorKind, Read, Write};
use std::process::ExitCode;
use std::rt::{Env, Files};
use std::{env, fs};

/// The files of the system, and by the name `-` standard input, or standard output where a file is
/// written.
#[derive(Drop)]
pub struct SystemFiles<'a, R: Files + Input + Print + AllocGlobal> {
    rt: &'a R,
    // What is read piece by piece.
    opened: Option<Opened<R::File, R::Reader>>,
    // How often a file could not be read, for contracts alone.
    failures: Counter,
}

#[derive(Drop)]
enum Opened<F, I> {
    File(F),
    Input(I),
}

// How often a read that was interrupted is tried again.
const TRIES: u32 = 1000;

impl<R: Files + Input + Print + AllocGlobal> SystemFiles<'_, R> {
    fn bytes_of(&self, name: &str) -> Option<Vec<u8>> {
        if name == "-" {
            let mut bytes = Vec::new(self.rt.alloc());
            self.rt.reader().read_to_end(&mut bytes).ok()?;
            Some(bytes)
        } else {
            fs::read(self.rt, name).ok()
        }
    }
}

impl<R: Files + Input + Print + AllocGlobal> FileSystem for SystemFiles<'_, R> {
    ghost use Rattle.std.specs.Prelude.{None};

    // No contract can say what a file has.
    ghost sees = { λ s. record { given = None; saved = None; failures = s.failures } };

    ghost left = { λ _. None };

    fn read(&mut self, name: &str) -> Option<Vec<u8>> {
        let bytes = self.bytes_of(name);
        if bytes.is_none() {
            self.failures.increment();
        }
        bytes
    }

    fn open(&mut self, name: &str) -> bool {
        self.opened = if name == "-" {
            Some(Opened::Input(self.rt.reader()))
        } else {
            match File::open(self.rt, name) {
                Ok(file) => Some(Opened::File(file)),
                Err(_) => {
                    self.failures.increment();
                    None
                }
            }
        };
        self.opened.is_some()
    }

    fn read_next(&mut self, buffer: &mut [u8]) -> Result<usize, ReadError> {
        let read = match &mut self.opened {
            Some(Opened::File(file)) => read_of(file, buffer),
            Some(Opened::Input(input)) => read_of(input, buffer),
            None => Err(ReadError),
        };
        if read.is_err() {
            self.failures.increment();
        }
        read
    }

    fn give_up(&mut self) {
        self.opened = None;
        self.failures.increment();
    }

    fn write(&mut self, name: &str, bytes: &[u8]) -> Result<(), SinkError> {
        let written = if name == "-" {
            io::writer(self.rt).write_all(bytes)
        } else {
            fs::write(self.rt, name, bytes)
        };
        written.map_err(|_| SinkError)
    }
}

// Reads the next bytes, and returns how many. A read that was interrupted is tried again.
fn read_of<R: Read>(from: &mut R, buffer: &mut [u8]) -> Result<usize, ReadError>
    ensures bound { IfOk result (λ n. n ≤ length buffer.new) }
    ensures bytes { ReadConsumes (R.remaining from.old) (R.remaining from.new) result buffer.new }
{
    for _try in 0..TRIES {
        match from.read(buffer) {
            Ok(count) => return Ok(count),
            Err(error) if error.kind() == ErrorKind::Interrupted => {}
            Err(_) => return Err(ReadError),
        }
    }
    Err(ReadError)
}

/// Runs the command with the program's own words, files and streams.
pub fn run_program(rt: &HostRuntime) -> ExitCode {
    match status(rt) {
        Ok(status) => ExitCode::from(status),
        Err(error) => {
            let _ = eprintln!(rt; "daacgrep: {error}");
            ExitCode::from(2)
        }
    }
}

fn status(rt: &HostRuntime) -> io::Result<u8> {
    let mut given = Vec::new(rt.alloc());
    for word in env::args(rt)?.skip(1) {
        given.push(word)?;
    }
    let mut words = Vec::with_capacity(rt.alloc(), given.len())?;
    for word in &given {
        words.push(word.as_str())?;
    }
    let out = BufWriter::new(rt.alloc(), io::writer(rt))?;
    Ok(command(
        rt.alloc(),
        &words,
        &mut SystemFiles {
            rt,
            opened: None,
            failures: Counter::new(),
        },
        &mut WriterSink::new(out),
        &mut WriterSink::new(rt.stderr()),
    ))
}
