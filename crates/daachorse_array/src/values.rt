//! The values of one text.

ghost use Rattle.std.specs.Prelude.{◌≡◌, ◌<◌, Some};
ghost use Rattle.daachorse_array.specs.Machines.{content};
ghost use Rattle.daachorse_array.specs.Descents.{IsWalk, values_in};

use crate::lookup::Lookup;
use daachorse_core::Output;
use daachorse_haystack::haystack::Haystack;
use std::marker::Model;
use std::num::NonZeroU32;

/// An iterator over the values of one pattern, in order of registration.
///
/// It borrows the automaton, and not the text.
#[derive(Drop)]
pub struct Values<'a, V: Copy> {
    outputs: &'a [Output<V>],
    // The position of the next output.
    position: Option<NonZeroU32>,
    // The length of the pattern in bytes. Behind its own outputs come those of shorter patterns.
    length: usize,
}

impl<'a, V: Copy> Model for Values<'a, V> {
    ghost use Rattle.std.specs.Prelude.{List};
    ghost use Rattle.daachorse_core.specs.Outputs.{number, outputs_at};
    ghost use Rattle.daachorse_array.specs.Descents.{MayRead, own_values};

    ghost Value = { List V };

    ghost view = { λ s. own_values s.length (outputs_at s.outputs.now (number s.position)) };

    ghost invariant = { λ s. MayRead s.outputs.now (number s.position) };
}

impl<'a, V: Copy> Values<'a, V> {
    /// The own values of an element whose text has this length in bytes.
    pub(crate) fn of<L: Lookup<V>>(lookup: &'a L, element: u32, length: usize) -> Self
        requires { element < L.count lookup.now }
        ensures { result ≡ values_in (L.machine lookup.entry.now) length (Some element) }
    {
        Values {
            outputs: lookup.outputs(),
            position: lookup.first(element),
            length,
        }
    }
}

impl<'a, V: Copy> Iterator for Values<'a, V> {
    ghost use Rattle.std.specs.Iterator.{YieldsFirst, item_count};

    type Item = V;

    ghost next_gives = { YieldsFirst (λ s. s) };

    ghost remaining = { item_count (λ s. s) };

    fn next(&mut self) -> Option<V> {
        let position = self.position?;
        let outputs = self.outputs;
        let output = outputs[position.get() as usize - 1];
        if output.length() as usize != self.length {
            return None;
        }
        self.position = output.parent();
        Some(output.value())
    }
}

/// Returns the values of a text, in order of registration; none if it is no pattern.
pub fn values_of<'a, V: Copy, L: Lookup<V>, H: Haystack<L::Unit>>(
    lookup: &'a L,
    text: H,
) -> Values<'a, V>
    ensures { result ≡ content L.Unit.width (L.machine lookup.entry.now) (H.rest text) }
{
    let length = text.left();
    match element_of(lookup, text) {
        Some(element) => Values::of(lookup, element, length),
        None => Values {
            outputs: lookup.outputs(),
            position: None,
            length,
        },
    }
}

/// The element that a text leads to, if there is one.
fn element_of<V: Copy, L: Lookup<V>, H: Haystack<L::Unit>>(lookup: &L, text: H) -> Option<u32>
    ensures { IsWalk (L.machine lookup.now) (L.count lookup.now) (H.rest text) result }
{
    let mut text = text;
    let mut element = lookup.root();
    'units: loop {
        let Some(unit) = text.next() else {
            return Some(element);
        };
        element = lookup.child(element, unit)?;
    }
}
