//! A list that keeps one item in itself, and more of them in a vector behind a pointer.
//!
//! A trie has a state for nearly every byte of its patterns, and most of these have one edge and no
//! output.

ghost use Rattle.std.specs.Prelude.{◌≡◌, ◌==◌, ◌<◌, ◌++◌, ◌∷◌, [], Some, length, IfOk, IfErr, OnOk, OnErr};
ghost use Rattle.std.specs.List.{slice_get};
ghost use Rattle.daachorse_core.specs.Refusals.{IsOutOfMemory};
ghost use Rattle.daachorse_build.specs.Few.{items_of, SpillsFromTwo};

use daachorse_core::errors::Result;
use std::alloc::Allocator;

/// The items of a list, in order.
#[derive(Drop)]
pub(crate) enum Few<T: Copy, A: Allocator> {
    Empty,
    One(T),
    // Two items or more, if `SpillsFromTwo` holds.
    Many(Box<Vec<T, A>, A>),
}

impl<T: Copy, A: Allocator> Few<T, A> {
    pub(crate) fn len(&self) -> usize
        ensures { result ≡ length (items_of self.now) }
    {
        match self {
            Few::Empty => 0,
            Few::One(_) => 1,
            Few::Many(items) => items.len(),
        }
    }

    pub(crate) fn is_empty(&self) -> bool
        ensures { result ≡ (length (items_of self.now) == 0) }
    {
        self.len() == 0
    }

    /// The item at a place.
    pub(crate) fn at(&self, place: usize) -> T
        requires { place < length (items_of self.now) }
        ensures { slice_get (items_of self.now) place ≡ Some result }
    {
        match self {
            Few::Empty => unreachable!(),
            Few::One(item) => *item,
            Few::Many(items) => items[place],
        }
    }
}

impl<T: Copy, A: Allocator + Copy> Few<T, A> {
    /// A list of two items. It takes memory for a vector and for the box around it.
    pub(crate) fn two(alloc: A, first: T, second: T) -> Result<Self>
        ensures items { IfOk result (λ few. items_of few ≡ first ∷ second ∷ []) }
        ensures spills { IfOk result SpillsFromTwo }
        ensures err { IfErr result IsOutOfMemory }
    {
        let mut items = Vec::with_capacity(alloc, 2)?;
        items.push(first)?;
        items.push(second)?;
        Ok(Few::Many(Box::new(alloc, items)?))
    }

    /// Appends an item. The first takes no memory.
    pub(crate) fn push(&mut self, alloc: A, item: T) -> Result<()>
        ensures items { OnOk result (items_of self.new ≡ items_of self.old ++ item ∷ []) }
        ensures unchanged { OnErr result (items_of self.new ≡ items_of self.old) }
        ensures err { IfErr result IsOutOfMemory }
    {
        match self {
            Few::Empty => *self = Few::One(item),
            Few::One(only) => *self = Few::two(alloc, *only, item)?,
            Few::Many(items) => items.push(item)?,
        }
        Ok(())
    }

    /// Copies the list.
    pub(crate) fn clone(&self) -> Result<Self>
        ensures same { IfOk result (λ few. items_of few ≡ items_of self.now) }
        ensures spills { IfOk result (λ few. SpillsFromTwo self.now → SpillsFromTwo few) }
        ensures err { IfErr result IsOutOfMemory }
    {
        match self {
            Few::Empty => Ok(Few::Empty),
            Few::One(item) => Ok(Few::One(*item)),
            Few::Many(items) => {
                let alloc = *items.allocator();
                let items = Vec::from_slice(alloc, items.as_slice())?;
                Ok(Few::Many(Box::new(alloc, items)?))
            }
        }
    }
}
