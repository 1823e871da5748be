//! A line of a text.

ghost use Rattle.std.specs.Prelude.{◌<◌, ◌≤◌, ◌+◌, ◌^◌, length};

/// A line of a text.
#[derive(Clone, Copy, Debug, PartialEq, Eq)]
pub struct Line<'a> {
    /// Its number, where the first line has the number 1.
    pub number: usize,
    /// The place of its first byte in the text.
    pub start: usize,
    /// Its bytes, without the line feed after them.
    pub bytes: &'a [u8],
    ghost within: { start + length bytes.now < 2 ^ 64 },
}

/// Lines that stand one after the other in a text.
#[derive(Clone, Copy, Debug, PartialEq, Eq)]
pub struct Part<'a> {
    /// How many lines stand before them, if lines are numbered.
    pub before: usize,
    /// The place of their first byte in the text.
    pub start: usize,
    /// Their bytes, with the marks after them.
    pub bytes: &'a [u8],
    ghost few: { before ≤ start },
    ghost within: { start + length bytes.now < 2 ^ 64 },
}
