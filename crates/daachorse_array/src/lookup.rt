//! Automata as lookups see them.

ghost use Rattle.std.specs.Prelude.{◌≡◌, ◌<◌, ◌≤◌, ℕ, length, IfSome};
ghost use Rattle.daachorse_core.specs.Outputs.{ParentsFall, number};
ghost use Rattle.daachorse_array.specs.Machines.{Machine};

use daachorse_core::Output;
use daachorse_core::edge_label::EdgeLabel;
use std::num::NonZeroU32;

/// An automaton as lookups see it: what a unit leads to from an element, and outputs.
pub trait Lookup<V: Copy> {
    /// The units of texts: bytes or characters.
    type Unit: EdgeLabel;

    /// The machine that it is.
    ghost machine: { Self → Machine V };

    /// The number of its elements.
    ghost count: { Self → ℕ };

    /// The element of the empty text.
    fn root(&self) -> u32
        ensures root { result ≡ 0 }
        ensures inside { result < count self.now };

    /// The element that a unit leads to, if there is one.
    fn child(&self, element: u32, unit: Self::Unit) -> Option<u32>
        requires { element < count self.now }
        ensures child { result ≡ (machine self.now).child element (Self.Unit.unit unit) }
        ensures inside { IfSome result (λ next. next < count self.now) };

    /// The position of an element's first output, if it has one.
    fn first(&self, element: u32) -> Option<NonZeroU32>
        requires { element < count self.now }
        ensures first { number result ≡ (machine self.now).output element }
        ensures inside { number result ≤ length (machine self.now).outputs };

    /// All outputs.
    fn outputs(&self) -> &[Output<V>]
        ensures all { result.now ≡ (machine self.now).outputs }
        ensures falls { ParentsFall result.now };
}
