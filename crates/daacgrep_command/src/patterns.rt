//! The patterns that are asked for.

ghost use Rattle.std.specs.Prelude.{◌≡◌, ◌++◌, ◌∷◌, [], IfErr, IfOk, OnOk, flat_map, map, true};
ghost use Rattle.daachorse_model.specs.Program.{pattern_lines};
ghost use Rattle.daacgrep_command.specs.Asked.{GivesPatterns, HasRead, closed, names_patterns};
ghost use Rattle.daacgrep_command.specs.Causes.{IsNoText, IsNotRead};
ghost use Rattle.daacgrep_command.specs.FileSystems.{OnlyReads};
ghost use Rattle.daacgrep_command.specs.Messages.{Warns};

use crate::error::CommandError;
use crate::file_system::FileSystem;
use crate::lines::Lines;
use crate::messages::{Message, Messages};
use crate::options::Options;
use std::alloc::{AllocError, Global};

/// Returns the text whose lines are those of the patterns that are asked for. A carriage return at
/// the end of one is reported on `err`.
///
/// # Errors
///
/// [`CommandError::NoPattern`] if no pattern and no written automaton is named,
/// [`CommandError::Read`] if a file of patterns cannot be read, and [`CommandError::OutOfMemory`] if
/// an allocation fails.
pub fn text<'a, F: FileSystem, M: Messages>(
    alloc: Global,
    options: &Options<'a, Global>,
    files: &mut F,
    err: &mut M,
) -> Result<Vec<u8>, CommandError<'a>>
    ensures reads { OnlyReads (F.sees files.old) (F.sees files.new) }
    ensures ok { IfOk result (λ text. GivesPatterns options.now (F.sees files.old).given text.items) }
    ensures named { OnOk result (names_patterns options.now ≡ true) }
    ensures warned { OnOk result (Warns (M.sent err.old) (M.sent err.new)) }
    ensures err { IfErr result (IsNoText options.now (F.sees files.old) (F.sees files.new)) }
{
    if !names_patterns(options) {
        return Err(CommandError::NoPattern);
    }
    let text = pattern_text(alloc, options, files)?;
    report_returns(&text, err);
    Ok(text)
}

// A pattern, a file of patterns or a written automaton is named.
fn names_patterns(options: &Options<'_, Global>) -> bool
    ensures { result ≡ names_patterns options.now }
{
    !options.patterns().is_empty()
        || !options.pattern_files().is_empty()
        || options.load_file().is_some()
}

// The text whose lines are the patterns.
fn pattern_text<'a, F: FileSystem>(
    alloc: Global,
    options: &Options<'a, Global>,
    files: &mut F,
) -> Result<Vec<u8>, CommandError<'a>>
    ensures reads { OnlyReads (F.sees files.old) (F.sees files.new) }
    ensures ok { IfOk result (λ text. GivesPatterns options.now (F.sees files.old).given text.items) }
    ensures err { IfErr result (IsNotRead (F.sees files.old) (F.sees files.new) options.now.pattern_files) }
{
    let mut text = Vec::new(alloc);
    add_patterns(options.patterns(), &mut text)?;
    add_files(options.pattern_files(), files, &mut text)?;
    Ok(text)
}

// Adds each pattern, with a line feed after it.
fn add_patterns(patterns: &[&str], text: &mut Vec<u8>) -> Result<(), AllocError>
    ensures { OnOk result (text.new.items ≡ text.old.items ++ flat_map (λ p. p ++ 10 ∷ []) (map (λ p. p.now) patterns.now)) }
{
    for pattern in patterns {
        add_line(pattern, text)?;
    }
    Ok(())
}

// Adds a line.
fn add_line(line: &str, text: &mut Vec<u8>) -> Result<(), AllocError>
    ensures { OnOk result (text.new.items ≡ text.old.items ++ (line.now ++ 10 ∷ [])) }
{
    text.extend_from_slice(line.as_bytes())?;
    text.extend_from_slice(b"\n")
}

// Adds the files of these names.
fn add_files<'a, F: FileSystem>(
    names: &[&'a str],
    files: &mut F,
    text: &mut Vec<u8>,
) -> Result<(), CommandError<'a>>
    ensures reads { OnlyReads (F.sees files.old) (F.sees files.new) }
    ensures ok { OnOk result (HasRead (F.sees files.old).given (map (λ n. n.now) names.now) text.old.items text.new.items) }
    ensures err { IfErr result (IsNotRead (F.sees files.old) (F.sees files.new) (map (λ n. n.now) names.now)) }
{
    for name in names {
        let Some(bytes) = files.read(name) else {
            return Err(CommandError::Read(name));
        };
        add_closed(&bytes, text)?;
    }
    Ok(())
}

// Adds a text, with a line feed after its last line.
fn add_closed(bytes: &[u8], text: &mut Vec<u8>) -> Result<(), AllocError>
    ensures { OnOk result (text.new.items ≡ text.old.items ++ closed bytes.now) }
{
    text.extend_from_slice(bytes)?;
    if !bytes.is_empty() && bytes[bytes.len() - 1] != b'\n' {
        text.extend_from_slice(b"\n")?;
    }
    Ok(())
}

fn report_returns<M: Messages>(text: &[u8], err: &mut M)
    ensures { Warns (M.sent err.old) (M.sent err.new) }
{
    if text.windows(2).any(|pair| pair == b"\r\n".as_slice()) {
        err.send(Message::CarriageReturn);
    }
}

/// Returns the lines of a text.
pub fn lines(alloc: Global, text: &[u8]) -> Result<Vec<&[u8]>, AllocError>
    ensures { IfOk result (λ v. map (λ line. line.now) v.items ≡ pattern_lines text.now) }
{
    let mut lines = Vec::new(alloc);
    for line in Lines::new(text, b'\n') {
        lines.push(line.bytes)?;
    }
    Ok(lines)
}
