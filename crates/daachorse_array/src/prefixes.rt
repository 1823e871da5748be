//! All patterns that begin a text.

ghost use Rattle.std.specs.Prelude.{◌≡◌, ◌<◌, ◌^◌};
ghost use Rattle.daachorse_model.specs.Units.{size};
ghost use Rattle.daachorse_array.specs.Machines.{content};
ghost use Rattle.daachorse_array.specs.Lookups.{common_prefixes};

use crate::lookup::Lookup;
use crate::values::Values;
use daachorse_core::Match;
use daachorse_core::edge_label::EdgeLabel;
use daachorse_haystack::haystack::Haystack;
use std::marker::Model;

/// An iterator over the patterns that begin a text, the shortest first, each with all of its values
/// in order of registration.
#[derive(Drop)]
pub struct CommonPrefixes<'a, V: Copy, L: Lookup<V>, H: Haystack<L::Unit>> {
    lookup: &'a L,
    // What is left of the text.
    rest: H,
    // The element that what was read leads to, if there is one.
    element: Option<u32>,
    // The length of what was read, in bytes.
    place: usize,
    // Its values that are left.
    values: Values<'a, V>,
}

impl<'a, V: Copy, L: Lookup<V>, H: Haystack<L::Unit>> Model for CommonPrefixes<'a, V, L, H> {
    ghost use Rattle.std.specs.Prelude.{List};
    ghost use Rattle.daachorse_model.specs.declared.Match.{Match};
    ghost use Rattle.daachorse_array.specs.Descents.{MayGoOn, matches_left};

    ghost Value = { List (Match V) };

    ghost view = { λ s. matches_left L.Unit.width (L.machine s.lookup.now) s.place s.values s.element (H.rest s.rest) };

    ghost invariant = { λ s. MayGoOn L.Unit.width (L.count s.lookup.now) s.place s.element (H.rest s.rest) };
}

impl<'a, V: Copy, L: Lookup<V>, H: Haystack<L::Unit>> CommonPrefixes<'a, V, L, H> {
    /// The patterns that begin a text.
    pub fn new(lookup: &'a L, text: H) -> Self
        requires { size L.Unit.width (H.rest text) < 2 ^ 64 }
        ensures { result ≡ common_prefixes L.Unit.width (content L.Unit.width (L.machine lookup.entry.now)) (H.rest text) }
    {
        let root = lookup.root();
        CommonPrefixes {
            lookup,
            rest: text,
            element: Some(root),
            place: 0,
            values: Values::of(lookup, root, 0),
        }
    }
}

impl<'a, V: Copy, L: Lookup<V>, H: Haystack<L::Unit>> Iterator for CommonPrefixes<'a, V, L, H> {
    ghost use Rattle.std.specs.Iterator.{YieldsFirst, item_count};

    type Item = Match<V>;

    ghost next_gives = { YieldsFirst (λ s. s) };

    ghost remaining = { item_count (λ s. s) };

    fn next(&mut self) -> Option<Match<V>> {
        'units: loop {
            if let Some(value) = self.values.next() {
                return Some(Match {
                    start: 0,
                    end: self.place,
                    value,
                });
            }
            let element = self.element?;
            let unit = self.rest.next()?;
            self.place += unit.num_bytes();
            self.element = self.lookup.child(element, unit);
            if let Some(child) = self.element {
                self.values = Values::of(self.lookup, child, self.place);
            }
        }
    }
}
