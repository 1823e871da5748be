//! The command: from arguments to a status, and to a line on standard error if it fails.

ghost use Rattle.std.specs.Prelude.{◌≡◌, IfErr, IfSome, None};
ghost use Rattle.daacfind_command.specs.Commands.{status_of, words_of};
ghost use Rattle.daacfind_command.specs.FindCommands.{Ask, AskNothing, EndsBy, IsCause};

use crate::inputs::Inputs;
use crate::mode::Mode;
use crate::run::{RunError, run};
use crate::sink::Sink;
use crate::status::{CommandError, status};
use std::alloc::Allocator;

const USAGE: &str = "overlapping|nosuffix|find|longest|first PATTERNS HAYSTACK";

/// Runs the command, and returns its status: 0 if all was written, 2 after wrong usage, else 1.
///
/// The arguments are a mode and the names of two files: the patterns, one a line, and the haystack.
/// An argument that is not UTF-8 is `None`. The matches go to `out`. If it fails, a line on `err`
/// gives the cause: the usage, a file that cannot be read, the refusal of a build, or a failure to
/// write. A failure of `err` is ignored.
pub fn command<A: Allocator + Copy, I: Inputs, S: Sink, E: Sink>(
    alloc: A,
    args: &[Option<&str>],
    files: &mut I,
    out: &mut S,
    err: &mut E,
) -> u8
    ensures ends { EndsBy (words_of args.now) (I.given files.old) (S.taken out.old) (S.taken out.new) (S.failures out.old) (S.failures out.new) result }
    ensures flushed { result ≡ 0 → S.unflushed out.new ≡ 0 }
    ensures untouched { result ≡ 2 → (files.new ≡ files.old) × (out.new ≡ out.old) }
{
    let attempt = attempt(alloc, args, files, out);
    status(attempt, "daacfind", USAGE, err)
}

fn attempt<'a, A: Allocator + Copy, I: Inputs, S: Sink>(
    alloc: A,
    args: &[Option<&'a str>],
    files: &mut I,
    out: &mut S,
) -> Result<(), CommandError<'a, RunError>>
    ensures ends { EndsBy (words_of args.now) (I.given files.old) (S.taken out.old) (S.taken out.new) (S.failures out.old) (S.failures out.new) (status_of result) }
    ensures cause { IfErr result (IsCause (words_of args.now) (I.given files.old)) }
    ensures flushed { status_of result ≡ 0 → S.unflushed out.new ≡ 0 }
    ensures untouched { status_of result ≡ 2 → (files.new ≡ files.old) × (out.new ≡ out.old) }
{
    let Some((mode, patterns, haystack)) = asked(args) else {
        return Err(CommandError::Usage);
    };
    let Some(lines) = files.read(patterns) else {
        return Err(CommandError::Read(patterns));
    };
    let Some(bytes) = files.read(haystack) else {
        return Err(CommandError::Read(haystack));
    };
    match run(alloc, mode, &lines, &bytes, out) {
        Ok(()) => Ok(()),
        Err(error) => Err(CommandError::Run(error)),
    }
}

// The mode and the names of the two files.
fn asked<'a>(args: &[Option<&'a str>]) -> Option<(Mode, &'a str, &'a str)>
    ensures asked { IfSome result (λ r. Ask (words_of args.now) r.0 r.1.now r.2.now) }
    ensures nothing { result ≡ None → AskNothing (words_of args.now) }
{
    match *args {
        [Some(mode), Some(patterns), Some(haystack)] => {
            Some((Mode::from_word(mode)?, patterns, haystack))
        }
        _ => None,
    }
}
