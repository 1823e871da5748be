//! The texts of an array that have outputs, one by one, in the order of the patterns.
//!
//! Each text is gone over once, however many outputs it has, and stands in the walk. So a walk takes
//! time linear in the array's elements.

ghost use Rattle.std.specs.Prelude.{◌≡◌, [], map, IfOk, IfErr};
ghost use Rattle.daachorse_core.specs.Refusals.{IsOutOfMemory};
ghost use Rattle.daachorse_array.specs.Listing.{HasMoved, HasPatterns, IsPatterns, own_end};

use crate::patterns::{Keys, enter, own_outputs};
use crate::siblings::Siblings;
use daachorse_core::errors::Result;
use std::alloc::{Allocator, Global};
use std::marker::{Model, PhantomData};

/// A walk over the texts of an array that have outputs, in their order.
#[derive(Drop)]
pub struct TextWalk<V: Copy, E: Keys<V, A>, A: Allocator = Global> {
    elements: E,
    groups: Siblings<A>,
    // The elements that were put aside, each with the length of its text; the last is the next.
    aside: Vec<(u32, u32), A>,
    // Room for the children of one element.
    children: Vec<(u32, u32), A>,
    // The text of the current element.
    text: Vec<E::Unit, A>,
    values: PhantomData<V>,
}

impl<V: Copy, E: Keys<V, A>, A: Allocator> Model for TextWalk<V, E, A> {
    ghost use Rattle.std.specs.Prelude.{map};
    ghost use Rattle.daachorse_array.specs.Listing.{IsListingWalk, Texts, own_end, patterns_of};
    ghost use Rattle.daachorse_array.specs.Texts.{text_of};
    ghost use Rattle.daachorse_array.specs.Trees.{elements_of, taken_from};

    ghost Value = { Texts V };

    ghost view = { λ s. let view = E.sees s.elements in record {
      text = map E.number s.text.items;
      left = patterns_of (text_of view.child view.units view.count) (E.outputs s.elements) view.first (own_end view.fail view.first)
          (taken_from view.child view.count view.units view.count (elements_of s.aside.items));
    } };

    ghost invariant = { λ s. let view = E.sees s.elements in IsListingWalk view.child view.group view.edge view.count view.units
        (E.outputs s.elements) view.first (own_end view.fail view.first)
        s.groups s.aside.items (map E.number s.text.items) 0 };
}

impl<V: Copy, E: Keys<V, A> + Drop, A: Allocator + Copy> TextWalk<V, E, A> {
    /// A walk over all texts with outputs, before the first.
    ///
    /// # Errors
    /// Out of memory.
    pub fn new(alloc: A, elements: E) -> Result<Self>
        requires { let view = E.sees elements in HasPatterns view.child view.group view.edge view.count view.units (E.outputs elements) view.first (own_end view.fail view.first) }
        ensures ok { let view = E.sees elements in IfOk result (λ walk. IsPatterns view.child view.count view.units (E.outputs elements) view.first (own_end view.fail view.first) walk.left) }
        ensures err { IfErr result IsOutOfMemory }
    {
        let groups = Siblings::new(alloc, &elements)?;
        let mut aside = Vec::new(alloc);
        aside.push((0, 0))?;
        Ok(TextWalk {
            elements,
            groups,
            aside,
            children: Vec::new(alloc),
            text: Vec::new(alloc),
            values: PhantomData,
        })
    }
}

impl<V: Copy, E: Keys<V, A>, A: Allocator> TextWalk<V, E, A> {
    /// Moves on to the next text; false if there is none.
    ///
    /// # Errors
    /// Out of memory. No text is left after that.
    pub fn advance(&mut self) -> Result<bool>
        ensures moved { IfOk result (λ found. HasMoved self.old.left found self.new) }
        ensures err { IfErr result IsOutOfMemory }
        ensures ended { IfErr result (λ _. self.new.left ≡ []) }
    {
        'texts: while let Some((depth, next)) = self.aside.pop() {
            let element = next as usize;
            let entered = enter(
                &self.elements,
                &self.groups,
                element,
                depth,
                &mut self.text,
                &mut self.children,
                &mut self.aside,
            );
            if let Err(error) = entered {
                self.aside.clear();
                return Err(error);
            }
            let (position, stop) = own_outputs(&self.elements, element);
            if position != stop && position != 0 {
                return Ok(true);
            }
        }
        Ok(false)
    }

    /// The text at which the walk stands.
    pub fn text(&self) -> &[E::Unit]
        ensures { map E.number result.now ≡ self.now.text }
    {
        &self.text
    }
}
