//! An array whose elements have children, failure links and outputs.
//!
//! It may be an automaton's or untrusted. An element's own outputs end where those of its failure
//! link begin.

ghost use Rattle.std.specs.Prelude.{◌≡◌, ◌<◌, ◌≤◌, ◌^◌, IfSome};
ghost use Rattle.daachorse_array.specs.Arrays.{ArrayView};
ghost use Rattle.daachorse_array.specs.Listing.{has_own, own_end, unit_of};

use daachorse_core::{DEAD_STATE_IDX, ROOT_STATE_IDX};

/// Elements with children, failure links and first outputs. Bytes spell each unit.
///
/// The children of an element are a group, which has a number. Each element knows the group that it
/// is in and the unit that leads to it.
pub trait Array {
    /// What contracts see of it.
    ghost sees: { Self → ArrayView };

    /// The number of elements.
    fn num_elements(&self) -> usize
        ensures all { result ≡ (sees self.now).count }
        ensures few { result < 2 ^ 32 };

    /// Every unit is below this.
    fn num_units(&self) -> usize
        ensures bound { result ≡ (sees self.now).units }
        ensures few { result < 2 ^ 32 };

    /// The number of the group of an element's children; `None` if it has none.
    fn group(&self, element: usize) -> Option<usize>
        requires { element < (sees self.now).count }
        ensures { result ≡ (sees self.now).group element };

    /// The number of the group that an element is in, and the unit that leads to it; `None` if it
    /// is no child.
    fn edge(&self, element: usize) -> Option<(usize, usize)>
        requires { element < (sees self.now).count }
        ensures edge { result ≡ (sees self.now).edge element }
        ensures inside { IfSome result (λ e. (e.0 < (sees self.now).count) × (e.1 < (sees self.now).units)) }
        ensures few { IfSome result (λ e. e.1 < 2 ^ 32) };

    /// The failure link of an element.
    fn fail(&self, element: usize) -> u32
        requires { element < (sees self.now).count }
        ensures { result ≡ (sees self.now).fail element };

    /// The position of an element's first output; 0 if there is none. Any number may be asked for:
    /// links of an untrusted array may be out of range.
    fn first(&self, element: usize) -> u32
        ensures { result ≡ (sees self.now).first element };

    /// How many bytes a unit takes.
    fn width(&self, unit: u32) -> usize
        requires { unit < (sees self.now).units }
        ensures value { result ≡ (sees self.now).width unit }
        ensures short { result ≤ 4 };

    /// Writes the bytes of the unit that leads to an element into `buffer`, and returns them.
    fn spell<'b>(&self, element: usize, buffer: &'b mut [u8; 4]) -> &'b [u8]
        requires { element < (sees self.now).count }
        ensures { result.now ≡ (sees self.now).bytes (unit_of ((sees self.now).edge element)) };
}

/// The position of the first output after an element's own; 0 if there is none.
pub fn own_end<E: Array>(elements: &E, element: usize) -> u32
    requires { element < (E.sees elements.now).count }
    ensures { let view = E.sees elements.now in result ≡ own_end view.fail view.first element }
{
    if element == ROOT_STATE_IDX as usize {
        return 0;
    }
    let link = elements.fail(element);
    if link == DEAD_STATE_IDX {
        return 0;
    }
    elements.first(link as usize)
}

/// Whether an element has outputs of its own.
pub fn has_own<E: Array>(elements: &E, element: usize) -> bool
    requires { element < (E.sees elements.now).count }
    ensures { let view = E.sees elements.now in result ≡ has_own view.fail view.first element }
{
    elements.first(element) != own_end(elements, element)
}
