//! What a program has around its command: its arguments, its files and its streams.

use crate::inputs::{Arguments, FileInputs};
use crate::sink::WriterSink;
use daachorse::errors::DaachorseError;
use std::alloc::{AllocError, Global};
use std::io::{self, BufWriter, Printer, Stderr};
use std::process::ExitCode;

// Standard output.
type Output<'a> = WriterSink<BufWriter<Printer<'a, HostRuntime>>>;

/// Runs the command with the program's own arguments, files and streams. Its status is the exit
/// code, or 1, with the cause on standard error, if it could not begin.
pub fn run_program<'a, C>(rt: &'a HostRuntime, command: C) -> ExitCode
where
    C: FnOnce(
        Global,
        &[Option<&str>],
        &mut FileInputs<'a, HostRuntime>,
        &mut Output<'a>,
        &mut WriterSink<Stderr>,
    ) -> u8,
    requires { C.IsAlwaysCallable command }
{
    match status(rt, command) {
        Ok(status) => ExitCode::from(status),
        Err(error) => {
            let _ = eprintln!(rt; "{error}");
            ExitCode::from(1)
        }
    }
}

fn status<'a, C>(rt: &'a HostRuntime, command: C) -> Result<u8, DaachorseError>
where
    C: FnOnce(
        Global,
        &[Option<&str>],
        &mut FileInputs<'a, HostRuntime>,
        &mut Output<'a>,
        &mut WriterSink<Stderr>,
    ) -> u8,
    requires { C.IsAlwaysCallable command }
{
    let arguments = Arguments::read(rt, rt.alloc())?;
    let texts = arguments.texts(rt.alloc())?;
    let out = BufWriter::new(rt.alloc(), io::writer(rt)).map_err(|_| AllocError)?;
    Ok(command(
        rt.alloc(),
        &texts,
        &mut FileInputs::new(rt),
        &mut WriterSink::new(out),
        &mut WriterSink::new(rt.stderr()),
    ))
}
