//! What is written of a line, of a match, and of a number of lines.

ghost use Rattle.std.specs.Prelude.{◌+◌, ◌<◌, ◌∷◌, ◌++◌, [], decimal};
ghost use Rattle.daacgrep_command.specs.Fields.{entry, name_field, number_field};
ghost use Rattle.daacgrep_command.specs.Sending.{IsWritten};

use crate::output::Output;
use daacfind_command::sink::SinkError;

/// What stands in front of a line or a match, each with a colon after it, and what stands after it.
#[derive(Clone, Copy, Debug, PartialEq, Eq)]
pub struct Labels {
    /// The name of the file.
    pub names: bool,
    /// The number of the line.
    pub numbers: bool,
    /// The place of the first byte.
    pub places: bool,
    /// The value of the pattern.
    pub values: bool,
    /// The byte after it.
    pub end: u8,
}

/// Writes a text with its labels.
pub fn write_entry<S: Output>(
    labels: Labels,
    name: &str,
    number: usize,
    place: usize,
    value: &[u8],
    text: &[u8],
    out: &mut S,
) -> Result<(), SinkError>
    ensures { IsWritten (S.sees out.old) (S.sees out.new) result (entry labels name.now number place value.now text.now) }
{
    write_name(labels.names, name.as_bytes(), out)?;
    write_field(labels.numbers, number, out)?;
    write_field(labels.places, place, out)?;
    write_name(labels.values, value, out)?;
    write_marked(text, labels.end, out)
}

/// Writes a number of lines and a line feed, after the file's name if that is wanted.
pub fn write_count<S: Output>(
    is_named: bool,
    name: &str,
    count: usize,
    out: &mut S,
) -> Result<(), SinkError>
    ensures { IsWritten (S.sees out.old) (S.sees out.new) result (name_field is_named name.now ++ (decimal count ++ 10 ∷ [])) }
{
    write_name(is_named, name.as_bytes(), out)?;
    write_marked_number(count, b'\n', out)
}

/// Writes a text and a mark after it.
pub fn write_marked<S: Output>(text: &[u8], mark: u8, out: &mut S) -> Result<(), SinkError>
    ensures { IsWritten (S.sees out.old) (S.sees out.new) result (text.now ++ mark ∷ []) }
{
    out.write(text)?;
    out.write(&[mark])
}

// Writes a name or a value.
fn write_name<S: Output>(is_wanted: bool, name: &[u8], out: &mut S) -> Result<(), SinkError>
    ensures { IsWritten (S.sees out.old) (S.sees out.new) result (name_field is_wanted name.now) }
{
    if is_wanted {
        write_marked(name, b':', out)
    } else {
        Ok(())
    }
}

fn write_field<S: Output>(is_wanted: bool, number: usize, out: &mut S) -> Result<(), SinkError>
    ensures { IsWritten (S.sees out.old) (S.sees out.new) result (number_field is_wanted number) }
{
    if is_wanted {
        write_marked_number(number, b':', out)
    } else {
        Ok(())
    }
}

// Writes a number and a mark after it.
fn write_marked_number<S: Output>(number: usize, mark: u8, out: &mut S) -> Result<(), SinkError>
    ensures { IsWritten (S.sees out.old) (S.sees out.new) result (decimal number ++ mark ∷ []) }
{
    write_number(number, out)?;
    out.write(&[mark])
}

fn write_number<S: Output>(number: usize, out: &mut S) -> Result<(), SinkError>
    ensures { IsWritten (S.sees out.old) (S.sees out.new) result (decimal number) }
{
    if number < 10 {
        return write_digit(number, out);
    }
    write_number(number / 10, out)?;
    write_digit(number % 10, out)
}

fn write_digit<S: Output>(digit: usize, out: &mut S) -> Result<(), SinkError>
    requires { digit < 10 }
    ensures { IsWritten (S.sees out.old) (S.sees out.new) result ((48 + digit) ∷ []) }
{
    out.write(&[b'0' + digit as u8])
}
