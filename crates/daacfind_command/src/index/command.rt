//! The command: from arguments to a status, and to a line on standard error if it fails.

ghost use Rattle.std.specs.Prelude.{◌≡◌, IfSome, None};
ghost use Rattle.daacfind_command.specs.declared.index.command.Request.TheVariants.{Form, Matches};
ghost use Rattle.daacfind_command.specs.Commands.{status_of, words_of};
ghost use Rattle.daacfind_command.specs.IndexCommands.{Ask, AskNothing, Attempts, EndsBy, EndsFor};

use crate::index::written::{IndexError, run_written, write};
use crate::inputs::Inputs;
use crate::mode::Mode;
use crate::sink::Sink;
use crate::status::{CommandError, status};
use std::alloc::Allocator;

const USAGE: &str =
    "write MODE PATTERNS | search MODE AUTOMATON HAYSTACK, MODE overlapping, nosuffix, find, longest or first";

/// What the arguments ask for.
#[derive(Clone, Copy)]
enum Request<'a> {
    /// The written automaton of a file of patterns.
    Form(Mode, &'a str),
    /// What a written automaton finds in a haystack.
    Matches(Mode, &'a str, &'a str),
}

/// Runs the command, and returns its status: 0 if all was written, 2 after wrong usage, else 1.
///
/// The arguments are `write`, a mode and a file of patterns, one a line; or `search`, a mode, a
/// file with a written automaton, and a haystack. The automaton or the matches go to `out`. If it
/// fails, a line on `err` gives the cause; after wrong usage nothing was read. A failure of `err`
/// is ignored.
pub fn command<A: Allocator + Copy, I: Inputs, S: Sink, E: Sink>(
    alloc: A,
    args: &[Option<&str>],
    files: &mut I,
    out: &mut S,
    err: &mut E,
) -> u8
    ensures ends { EndsBy (words_of args.now) (I.given files.old) (S.taken out.old) (S.taken out.new) (S.failures out.old) (S.failures out.new) result }
    ensures untouched { result ≡ 2 → (files.new ≡ files.old) × (out.new ≡ out.old) }
{
    let attempt = attempt(alloc, args, files, out);
    status(attempt, "daacindex", USAGE, err)
}

fn attempt<'a, A: Allocator + Copy, I: Inputs, S: Sink>(
    alloc: A,
    args: &[Option<&'a str>],
    files: &mut I,
    out: &mut S,
) -> Result<(), CommandError<'a, IndexError>>
    ensures ends { Attempts (words_of args.now) (I.given files.old) (S.taken out.old) (S.taken out.new) (S.failures out.old) (S.failures out.new) result }
    ensures untouched { status_of result ≡ 2 → (files.new ≡ files.old) × (out.new ≡ out.old) }
{
    match asked(args) {
        Some(Request::Form(mode, patterns)) => write_form(alloc, mode, patterns, files, out),
        Some(Request::Matches(mode, automaton, haystack)) => {
            write_matches(alloc, mode, automaton, haystack, files, out)
        }
        None => Err(CommandError::Usage),
    }
}

// What the arguments ask for, if anything.
fn asked<'a>(args: &[Option<&'a str>]) -> Option<Request<'a>>
    ensures asked { IfSome result (Ask (words_of args.now)) }
    ensures nothing { result ≡ None → AskNothing (words_of args.now) }
{
    match *args {
        [Some("write"), Some(mode), Some(patterns)] => {
            Some(Request::Form(Mode::from_word(mode)?, patterns))
        }
        [Some("search"), Some(mode), Some(automaton), Some(haystack)] => Some(Request::Matches(
            Mode::from_word(mode)?,
            automaton,
            haystack,
        )),
        _ => None,
    }
}

// Writes the automaton of the lines of a file.
fn write_form<'a, A: Allocator + Copy, I: Inputs, S: Sink>(
    alloc: A,
    mode: Mode,
    patterns: &'a str,
    files: &mut I,
    out: &mut S,
) -> Result<(), CommandError<'a, IndexError>>
    ensures { EndsFor (I.given files.old) (Form mode patterns.entry) (S.taken out.old) (S.taken out.new) (S.failures out.old) (S.failures out.new) result }
{
    let Some(lines) = files.read(patterns) else {
        return Err(CommandError::Read(patterns));
    };
    match write(alloc, mode, &lines, out) {
        Ok(()) => Ok(()),
        Err(error) => Err(CommandError::Run(error)),
    }
}

// Writes what the automaton in a file finds in a haystack.
fn write_matches<'a, A: Allocator + Copy, I: Inputs, S: Sink>(
    alloc: A,
    mode: Mode,
    automaton: &'a str,
    haystack: &'a str,
    files: &mut I,
    out: &mut S,
) -> Result<(), CommandError<'a, IndexError>>
    ensures { EndsFor (I.given files.old) (Matches mode automaton.entry haystack.entry) (S.taken out.old) (S.taken out.new) (S.failures out.old) (S.failures out.new) result }
{
    let Some(form) = files.read(automaton) else {
        return Err(CommandError::Read(automaton));
    };
    let Some(bytes) = files.read(haystack) else {
        return Err(CommandError::Read(haystack));
    };
    match run_written(alloc, mode, &form, &bytes, out) {
        Ok(()) => Ok(()),
        Err(error) => Err(CommandError::Run(error)),
    }
}
