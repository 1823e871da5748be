//! Outputs: the values of a state, chained from the longest pattern to the shortest.

ghost use Rattle.std.specs.Prelude.{◌≡◌, ◌-◌, ◌≤◌, IsOk};
ghost use Rattle.daachorse_core.specs.Outputs.{value_of, length_of, parent_of, number};

use daachorse_model::Match;
use std::convert::Infallible;
use std::num::NonZeroU32;

/// An output of a state: a value, the length of its pattern in bytes, and the position of the
/// state's next output, counted from 1. It takes 8 bytes and its value.
#[derive(Clone, Copy, Debug, PartialEq, Eq, Hash)]
pub struct Output<V> {
    value: V,
    length: u32,
    // 0 stands for none: an `Option<NonZeroU32>` would take twice the bytes.
    parent: u32,
}

impl<V: Copy> Output<V> {
    /// Makes an output of its parts.
    pub fn new(value: V, length: u32, parent: Option<NonZeroU32>) -> Self
        ensures value { value_of result ≡ value }
        ensures length { length_of result ≡ length }
        ensures parent { parent_of result ≡ number parent }
    {
        Self {
            value,
            length,
            parent: parent.map_or(0, NonZeroU32::get),
        }
    }

    /// Returns the value of the pattern.
    pub fn value(&self) -> V
        ensures { result ≡ value_of self.now }
    {
        self.value
    }

    /// Returns the length of the pattern, in bytes.
    pub fn length(&self) -> u32
        ensures { result ≡ length_of self.now }
    {
        self.length
    }

    /// Returns the position of the next output of the state, if there is one.
    pub fn parent(&self) -> Option<NonZeroU32>
        ensures { number result ≡ parent_of self.now }
    {
        NonZeroU32::new(self.parent)
    }

    /// Returns the match that ends at byte `end`, which is at least the length of the pattern.
    pub fn to_match(&self, end: usize) -> Match<V>
        requires { length_of self.now ≤ end }
        ensures { result ≡ record { start = end - length_of self.now; end = end; value = value_of self.now } }
    {
        Match {
            start: end - self.length as usize,
            end,
            value: self.value,
        }
    }
}

/// A value type of size zero, for automata whose matches need no value. Every index converts to it.
#[derive(Clone, Copy, Debug, Default, PartialEq, Eq, Hash)]
pub struct Empty;

impl From<usize> for Empty {
    fn from(_index: usize) -> Self {
        Self
    }
}

impl TryFrom<usize> for Empty {
    type Error = Infallible;

    ghost try_from_gives = { λ _ r. IsOk r };

    fn try_from(_index: usize) -> Result<Self, Infallible> {
        Ok(Self)
    }
}
