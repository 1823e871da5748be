//! The length of the longest text with outputs, as the outputs say it.

ghost use Rattle.std.specs.Prelude.{◌≡◌, ◌≢◌, ◌<◌, ◌≤◌, ◌⊎◌, ℕ, Bool, List, [], true};
ghost use Rattle.daachorse_model.specs.Units.{size};
ghost use Rattle.daachorse_array.specs.Arrays.{machine_of};
ghost use Rattle.daachorse_array.specs.Depths.{IsDepthTable};
ghost use Rattle.daachorse_array.specs.Edges.{IsTree};
ghost use Rattle.daachorse_array.specs.Listing.{has_own};
ghost use Rattle.daachorse_array.specs.Machines.{IsMachine, content};
ghost use Rattle.daachorse_array.specs.Texts.{IsReached, text_of};

use crate::array::has_own;
use crate::depths::NOT_REACHED;
use crate::patterns::Keys;
use std::alloc::Allocator;

/// The number of bytes of the longest text with outputs, in one pass over the elements; 0 if there
/// is none.
pub fn longest_text<V: Copy, E: Keys<V, A>, A: Allocator>(elements: &E, depths: &[u32]) -> usize
    requires machine { let view = E.sees elements.now in (leftmost : Bool) × IsMachine view.width (machine_of view (E.outputs elements.now)) leftmost view.count view.units }
    requires tree { let view = E.sees elements.now in IsTree view.child view.count view.units }
    requires depths { let view = E.sees elements.now in IsDepthTable view.child view.units view.count depths.now }
    ensures none_longer { let view = E.sees elements.now in (w : List ℕ) → content view.width (machine_of view (E.outputs elements.now)) w ≢ [] → size view.width w ≤ result }
    ensures some { let view = E.sees elements.now in (result ≡ 0) ⊎ ((w : List ℕ) × (content view.width (machine_of view (E.outputs elements.now)) w ≢ []) × (size view.width w ≡ result)) }
{
    let mut longest = 0;
    for element in 0..elements.num_elements() {
        longest = longest.max(own_length(elements, depths, element));
    }
    longest
}

/// The number of bytes of an element's text, if it has outputs of its own; else 0.
fn own_length<V: Copy, E: Keys<V, A>, A: Allocator>(
    elements: &E,
    depths: &[u32],
    element: usize,
) -> usize
    requires machine { let view = E.sees elements.now in (leftmost : Bool) × IsMachine view.width (machine_of view (E.outputs elements.now)) leftmost view.count view.units }
    requires tree { let view = E.sees elements.now in IsTree view.child view.count view.units }
    requires depths { let view = E.sees elements.now in IsDepthTable view.child view.units view.count depths.now }
    requires element { element < (E.sees elements.now).count }
    ensures own { let view = E.sees elements.now in IsReached view.child view.units view.count element → has_own view.fail view.first element ≡ true
        → result ≡ size view.width (text_of view.child view.units view.count element) }
    ensures some { let view = E.sees elements.now in (result ≡ 0) ⊎ (IsReached view.child view.units view.count element × (has_own view.fail view.first element ≡ true)) }
{
    if depths[element] == NOT_REACHED || !has_own(elements, element) {
        return 0;
    }
    let position = elements.first(element) as usize;
    elements.output(position).length() as usize
}
