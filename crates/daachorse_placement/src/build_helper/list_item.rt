//! An item of a linked list over a double array's elements.

ghost use Rattle.std.specs.Prelude.{◌≡◌};
ghost use Rattle.std.specs.Borrow.{sem};

/// The places of the next and the previous item, and whether this one's base and element are used.
#[derive(Clone, Default, Drop)]
pub struct ListItem {
    next: u32,
    prev: u32,
    used_base: bool,
    used_index: bool,
}

impl ListItem {
    ghost use Rattle.daachorse_placement.specs.ListItems.{next_of, prev_of, has_base, has_index, with_base, with_index, LendsNext, LendsPrev};

    /// The place of the next item.
    pub fn next(&self) -> u32
        ensures { result ≡ next_of self.now }
    {
        self.next
    }

    /// The place of the previous item.
    pub fn prev(&self) -> u32
        ensures { result ≡ prev_of self.now }
    {
        self.prev
    }

    /// The place of the next item, to be set.
    pub fn next_mut(&mut self) -> &mut u32
        ensures* sets { sem 𝓛 (LendsNext self.entry result) }
        ensures value { result.now ≡ next_of self.old }
    {
        &mut self.next
    }

    /// The place of the previous item, to be set.
    pub fn prev_mut(&mut self) -> &mut u32
        ensures* sets { sem 𝓛 (LendsPrev self.entry result) }
        ensures value { result.now ≡ prev_of self.old }
    {
        &mut self.prev
    }

    /// Whether the base is used.
    pub fn is_used_base(&self) -> bool
        ensures { result ≡ has_base self.now }
    {
        self.used_base
    }

    /// Whether the element is used.
    pub fn is_used_index(&self) -> bool
        ensures { result ≡ has_index self.now }
    {
        self.used_index
    }

    /// Marks the base as used.
    pub fn use_base(&mut self)
        ensures { self.new ≡ with_base self.old }
    {
        self.used_base = true;
    }

    /// Marks the element as used.
    pub fn use_index(&mut self)
        ensures { self.new ≡ with_index self.old }
    {
        self.used_index = true;
    }
}
