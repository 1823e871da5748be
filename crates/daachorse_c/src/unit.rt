//! What patterns and haystacks are made of.

ghost use Rattle.std.specs.Prelude.{◌≡◌, ◌≤◌};
ghost use Rattle.daachorse_c.specs.Units.{unit_numbered};

/// A unit of the patterns and haystacks of an automaton.
#[derive(Clone, Copy, PartialEq, Eq)]
pub enum Unit {
    /// A byte.
    Byte,
    /// A character, in UTF-8.
    Character,
}

impl Unit {
    /// The unit with this number in C.
    pub(crate) fn numbered(number: u32) -> Unit
        requires { number ≤ 1 }
        ensures { result ≡ unit_numbered number }
    {
        if number == 1 {
            Unit::Character
        } else {
            Unit::Byte
        }
    }
}
