//! The longest pattern that begins a text.

ghost use Rattle.std.specs.Prelude.{◌≡◌, ◌<◌, ◌^◌, Some, slice_get};
ghost use Rattle.daachorse_model.specs.Units.{size};
ghost use Rattle.daachorse_array.specs.Machines.{content};
ghost use Rattle.daachorse_array.specs.Descents.{first_at};
ghost use Rattle.daachorse_array.specs.Lookups.{longest_prefix};

use crate::lookup::Lookup;
use crate::values::Values;
use daachorse_core::Match;
use daachorse_core::edge_label::EdgeLabel;
use daachorse_haystack::haystack::Haystack;

/// Returns the longest pattern that begins a text, with the value that was registered first.
pub fn longest_prefix<V: Copy, L: Lookup<V>, H: Haystack<L::Unit>>(
    lookup: &L,
    text: H,
) -> Option<Match<V>>
    requires { size L.Unit.width (H.rest text) < 2 ^ 64 }
    ensures { result ≡ longest_prefix L.Unit.width (content L.Unit.width (L.machine lookup.now)) (H.rest text) }
{
    let mut text = text;
    let mut element = lookup.root();
    let mut place = 0;
    let mut best = match_to(lookup, element, place);
    'units: loop {
        let Some(unit) = text.next() else {
            return best;
        };
        let Some(child) = lookup.child(element, unit) else {
            return best;
        };
        element = child;
        place += unit.num_bytes();
        best = match_to(lookup, element, place).or(best);
    }
}

/// The match from 0 to a place, where an element's text ends, with the first of its values.
fn match_to<V: Copy, L: Lookup<V>>(lookup: &L, element: u32, place: usize) -> Option<Match<V>>
    requires { element < L.count lookup.now }
    ensures { result ≡ first_at (L.machine lookup.now) place (Some element) }
{
    let value = Values::of(lookup, element, place).next()?;
    Some(Match {
        start: 0,
        end: place,
        value,
    })
}
