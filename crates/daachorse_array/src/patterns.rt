//! The patterns of an array, one by one, in the order of their texts.
//!
//! The text of an element begins with that of its parent, so a walk keeps one text and changes only
//! its end. Each way down ends at an element with outputs, so that the error of a failed allocation
//! takes the place of a pattern.

ghost use Rattle.std.specs.Prelude.{◌≡◌, ◌<◌, ◌≤◌, ◌+◌, ◌-◌, ◌++◌, ◌⊎◌, ◌≢◌, ℕ, List, [], ◌∷◌, Some, length, map, reverse, slice_get, take, IfOk, IfErr, OnOk};
ghost use Rattle.daachorse_core.specs.Refusals.{IsOutOfMemory};
ghost use Rattle.daachorse_core.specs.declared.outputs.Output.{Output};
ghost use Rattle.daachorse_array.specs.Arrays.{AreGroups, HasEdges, children_of};
ghost use Rattle.daachorse_array.specs.Edges.{put_before};
ghost use Rattle.daachorse_array.specs.Listing.{HasPatterns, IsPatterns, own_end, unit_of};

use crate::array::{Array, own_end};
use crate::children::put_aside;
use crate::siblings::Siblings;
use daachorse_core::Output;
use daachorse_core::errors::Result;
use std::alloc::{Allocator, Global};
use std::marker::{Model, PhantomData};
use std::num::NonZeroU32;

/// An array with outputs, whose texts are returned as keys.
pub trait Keys<V: Copy, A: Allocator>: Array {
    /// A unit of a text.
    type Unit: Copy;

    /// An owned text.
    type Key;

    /// The number of a unit.
    ghost number: { Self.Unit → ℕ };

    /// The numbers of a key's units.
    ghost units_of: { Self.Key → List ℕ };

    /// All outputs.
    ghost outputs: { Self → List (Output V) };

    /// The unit that leads to an element.
    fn unit(&self, element: usize) -> Self::Unit
        requires { element < (Self.sees self.now).count }
        ensures { number result ≡ unit_of ((Self.sees self.now).edge element) };

    /// The output at a position.
    fn output(&self, position: usize) -> Output<V>
        requires some { 0 < position }
        requires inside { position ≤ length (outputs self.now) }
        ensures { slice_get (outputs self.now) (position - 1) ≡ Some result };

    /// Makes the key of these units.
    ///
    /// # Errors
    /// Out of memory.
    fn key(&self, alloc: A, units: &[Self::Unit]) -> Result<Self::Key>
        ensures ok { IfOk result (λ key. units_of key ≡ map number units.now) }
        ensures err { IfErr result IsOutOfMemory };
}

/// An iterator over the patterns of an array, in the order of their texts, and of one text in the
/// order of its values. If an allocation fails, it gives one error and ends.
#[derive(Drop)]
pub struct PatternWalk<V: Copy, E: Keys<V, A>, A: Allocator = Global> {
    elements: E,
    groups: Siblings<A>,
    // The elements that were put aside, each with the length of its text; the last is the next.
    aside: Vec<(u32, u32), A>,
    // Room for the children of one element.
    children: Vec<(u32, u32), A>,
    // The text of the current element.
    text: Vec<E::Unit, A>,
    // Its own outputs that are left: from `position` until `stop`.
    position: usize,
    stop: usize,
    values: PhantomData<V>,
}

impl<V: Copy, E: Keys<V, A>, A: Allocator> Model for PatternWalk<V, E, A> {
    ghost use Rattle.std.specs.Prelude.{List, ℕ, map};
    ghost use Rattle.daachorse_array.specs.Listing.{IsListingWalk, left_of, own_end};
    ghost use Rattle.daachorse_array.specs.Trees.{elements_of};

    ghost Value = { List (List ℕ × V) };

    ghost view = { λ s. let view = E.sees s.elements in left_of view.child view.count view.units
        (E.outputs s.elements) view.first (own_end view.fail view.first)
        (map E.number s.text.items) (elements_of s.aside.items) s.stop s.position };

    ghost invariant = { λ s. let view = E.sees s.elements in IsListingWalk view.child view.group view.edge view.count view.units
        (E.outputs s.elements) view.first (own_end view.fail view.first)
        s.groups s.aside.items (map E.number s.text.items) s.position };
}

impl<V: Copy, E: Keys<V, A> + Drop, A: Allocator + Copy> PatternWalk<V, E, A> {
    /// A walk over all patterns.
    ///
    /// # Errors
    /// Out of memory.
    pub fn new(alloc: A, elements: E) -> Result<Self>
        requires { let view = E.sees elements in HasPatterns view.child view.group view.edge view.count view.units (E.outputs elements) view.first (own_end view.fail view.first) }
        ensures ok { let view = E.sees elements in IfOk result (λ walk. IsPatterns view.child view.count view.units (E.outputs elements) view.first (own_end view.fail view.first) walk) }
        ensures err { IfErr result IsOutOfMemory }
    {
        let groups = Siblings::new(alloc, &elements)?;
        let mut aside = Vec::new(alloc);
        aside.push((0, 0))?;
        Ok(PatternWalk {
            elements,
            groups,
            aside,
            children: Vec::new(alloc),
            text: Vec::new(alloc),
            position: 0,
            stop: 0,
            values: PhantomData,
        })
    }
}

impl<V: Copy, E: Keys<V, A>, A: Allocator> PatternWalk<V, E, A> {
    /// Skips all patterns that are left.
    pub fn end(&mut self)
        ensures { self.new ≡ [] }
    {
        self.position = 0;
        self.aside.clear();
    }
}

impl<V: Copy, E: Keys<V, A> + Drop, A: Allocator + Copy> Iterator for PatternWalk<V, E, A> {
    ghost use Rattle.std.specs.Iterator.{item_count};
    ghost use Rattle.daachorse_array.specs.Listing.{GivesPattern};

    type Item = Result<(E::Key, V)>;

    ghost next_gives = { GivesPattern E.units_of };

    ghost remaining = { item_count (λ left. left) };

    fn next(&mut self) -> Option<Result<(E::Key, V)>> {
        while self.position == self.stop || self.position == 0 {
            let Some((depth, next)) = self.aside.pop() else {
                return None;
            };
            let element = next as usize;
            let entered = enter(
                &self.elements,
                &self.groups,
                element,
                depth,
                &mut self.text,
                &mut self.children,
                &mut self.aside,
            );
            if let Err(error) = entered {
                // Not `self.end()`: after a failed `enter` the walk's invariant may not hold.
                self.position = 0;
                self.aside.clear();
                return Some(Err(error));
            }
            let (position, stop) = own_outputs(&self.elements, element);
            self.position = position;
            self.stop = stop;
        }
        let output = self.elements.output(self.position);
        let alloc = *self.text.allocator();
        match self.elements.key(alloc, &self.text) {
            Ok(key) => {
                self.position = output.parent().map_or(0, NonZeroU32::get) as usize;
                Some(Ok((key, output.value())))
            }
            Err(error) => {
                self.end();
                Some(Err(error))
            }
        }
    }
}

/// Sets the text to that of an element with `depth` units, and puts its children aside.
pub(crate) fn enter<V: Copy, E: Keys<V, A>, A: Allocator>(
    elements: &E,
    groups: &Siblings<A>,
    element: usize,
    depth: u32,
    text: &mut Vec<E::Unit, A>,
    children: &mut Vec<(u32, u32), A>,
    aside: &mut Vec<(u32, u32), A>,
) -> Result<()>
    requires edges { HasEdges (E.sees elements.now) }
    requires groups { AreGroups (E.sees elements.now) groups.now }
    requires element { element < (E.sees elements.now).count }
    requires depth { depth < 4294967295 }
    ensures none { OnOk result (depth ≡ 0 → text.new.items ≡ []) }
    ensures text { OnOk result (0 < depth
        → map E.number text.new.items ≡ take (depth - 1) (map E.number text.old.items) ++ unit_of ((E.sees elements.now).edge element) ∷ []) }
    ensures aside { OnOk result (reverse aside.new.items ≡ put_before (map (λ j. (depth + 1, j)) (children_of (E.sees elements.now) element)) (reverse aside.old.items)) }
    ensures err { IfErr result IsOutOfMemory }
    ensures some { IfErr result (λ _. (0 < depth) ⊎ (children_of (E.sees elements.now) element ≢ [])) }
{
    write_last(text, depth as usize, elements.unit(element))?;
    put_aside(elements, groups, element, depth + 1, children, aside)
}

/// Keeps the first `depth - 1` units of a text and appends `unit`; at depth 0 empties it.
fn write_last<U: Copy, A: Allocator>(text: &mut Vec<U, A>, depth: usize, unit: U) -> Result<()>
    ensures none { OnOk result (depth ≡ 0 → text.new.items ≡ []) }
    ensures ok { OnOk result (0 < depth → text.new.items ≡ take (depth - 1) text.old.items ++ unit ∷ []) }
    ensures err { IfErr result IsOutOfMemory }
    ensures some { IfErr result (λ _. 0 < depth) }
{
    if depth == 0 {
        text.clear();
        return Ok(());
    }
    text.truncate(depth - 1);
    text.push(unit)?;
    Ok(())
}

/// The positions where an element's own outputs begin and end; both 0 if its chain is empty.
pub(crate) fn own_outputs<E: Array>(elements: &E, element: usize) -> (usize, usize)
    requires { element < (E.sees elements.now).count }
    ensures first { result.0 ≡ (E.sees elements.now).first element }
    ensures stop { let view = E.sees elements.now in 0 < result.0 → result.1 ≡ own_end view.fail view.first element }
{
    let first = elements.first(element);
    if first == 0 {
        return (0, 0);
    }
    (first as usize, own_end(elements, element) as usize)
}
