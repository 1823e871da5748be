//! The placement of groups of siblings in a double array.
#![tactic(auto, using(daachorse_core::proofs::Failures::failures))]

ghost use Rattle.std.specs.Prelude.{◌≡◌, ℕ, ◌+◌, ◌*◌, ◌<◌, ◌≤◌, ◌^◌, ◌||◌, List, [], ◌∷◌, length, slice_index_or, false, IfOk, IfErr, IfSome, IfNone, OnOk};
ghost use Rattle.std.specs.Int.{IsPowerOfTwo};
ghost use Rattle.std.specs.List.{list_any};
ghost use Rattle.daachorse_placement.specs.Layout.{Layout, vacants, vacant_from, IsLeastUnused, AreAllSet};
ghost use Rattle.daachorse_placement.specs.Placement.{AreBlocksFull, AreGroups, IsPlaced, HasSizes, IsPlaceRefusal, is_light};
ghost use Rattle.daachorse_placement.specs.FreeLists.{IsWhole, LeadsOverUsed, IsFull, element_count, layout_of};

mod free_list;
mod list_item;
mod profile;

use daachorse_core::errors::Result;
use free_list::FreeList;
pub use list_item::ListItem;
pub use profile::Profile;
use std::alloc::{Allocator, Global};
use std::marker::Model;

/// A parent and its children, which are placed together. A child is its label and its state id.
#[derive(Drop)]
pub struct SiblingGroup<A: Allocator = Global> {
    /// The id of the parent.
    pub parent: u32,
    /// Each child's label, a byte or a character's code, and its id.
    pub children: Vec<(u32, u32), A>,
    /// How often searches are expected to read the group. The placement asks only whether it is 0.
    pub weight: usize,
}

/// Where the groups of siblings are placed in a double array.
///
/// The element of a child is the exclusive or of its parent's base and its label. Blocks have one
/// length, a power of two above every label, so that siblings share a block. The layout is that of
/// Kanda, Akabe and Oda, "Engineering faster double-array Aho-Corasick automata" (arXiv
/// 2207.13870).
#[derive(Drop)]
pub struct BuildHelper<A: Allocator = Global> {
    elements: FreeList<A>,
    idx_map: Vec<u32, A>,
    bases: Vec<u32, A>,
}

impl<A: Allocator> Model for BuildHelper<A> {
    ghost Value = { Layout };

    ghost view = { λ h. layout_of h.elements h.idx_map.items h.bases.items };

    ghost invariant = { λ h. IsWhole h.elements × IsFull h.elements };
}

impl<A: Allocator + Copy> BuildHelper<A> {
    /// Places the groups in the order given, each under the first base that fits.
    ///
    /// A base fits if it isn't 0, isn't taken (only with `track_bases`), and gives each child a
    /// vacant element. The vacant elements are tried for the first child in rising order; from the
    /// first group of weight 0 on, only those of the last 16 blocks. If none fits, a block is added
    /// at the end. Memory grows with the elements and the states.
    ///
    /// # Conditions
    /// `block_len` is a power of two of at least 2, and there are at least 2 states. Each group has
    /// a child; its labels are distinct and below `block_len`. Parents and children are states, and
    /// the first two states are no children. No state is the parent of two groups or twice a child.
    ///
    /// # Errors
    /// [`Limit::NumElements`](daachorse_core::errors::Limit::NumElements) if there would be more
    /// than 4,294,967,295 elements, or out of memory.
    pub fn new(
        alloc: A,
        groups: &[SiblingGroup<A>],
        num_nfa_states: usize,
        block_len: u32,
        track_bases: bool,
    ) -> Result<Self>
        requires power { IsPowerOfTwo block_len }
        requires two { 2 ≤ block_len }
        requires states { 2 ≤ num_nfa_states }
        requires groups { AreGroups groups.now num_nfa_states block_len }
        ensures placed { IfOk result (IsPlaced groups.now (length groups.now) track_bases) }
        ensures sizes { IfOk result (λ h. HasSizes h block_len num_nfa_states) }
        ensures windowed { IfOk result (λ h. h.windowed ≡ list_any is_light groups.now) }
        ensures full { IfOk result AreBlocksFull }
        ensures err { IfErr result
            (IsPlaceRefusal (2 ^ 32 ≤ (length groups.now + 1) * block_len)) }
    {
        let mut elements = FreeList::new(alloc, block_len)?;
        let mut idx_map = vec![in alloc; 1u32; num_nfa_states]?;
        idx_map[0] = 0;
        let mut bases = vec![in alloc; 0u32; num_nfa_states]?;
        place_all(groups, track_bases, &mut elements, &mut idx_map, &mut bases)?;
        Ok(Self {
            elements,
            idx_map,
            bases,
        })
    }
}

impl<A: Allocator> BuildHelper<A> {
    /// The element of each state, by id: 0 for the root, 1 for any other state that is no child.
    pub fn idx_map(&self) -> &[u32]
        ensures { result.now ≡ self.now.idx }
    {
        self.idx_map.as_slice()
    }

    /// The base of each state, by id: 0 for a state that is no parent.
    pub fn bases(&self) -> &[u32]
        ensures { result.now ≡ self.now.bases }
    {
        self.bases.as_slice()
    }

    /// The number of elements, in whole blocks.
    pub fn num_elements(&self) -> u32
        ensures { result ≡ length self.now.used }
    {
        self.elements.num_elements()
    }

    /// Whether a base below [`Self::num_elements`] is taken. Without tracking, none is.
    pub fn is_used_base(&self, base: u32) -> bool
        requires { base < length self.now.used }
        ensures { result ≡ slice_index_or self.now.marks base false }
    {
        self.elements.is_used_base(base)
    }

    /// Whether an element below [`Self::num_elements`] holds the root, the dead state or a child.
    pub fn is_used_index(&self, idx: u32) -> bool
        requires { idx < length self.now.used }
        ensures { result ≡ slice_index_or self.now.used idx false }
    {
        self.elements.is_used_index(idx)
    }

    /// The least base of an existing block that isn't taken. A block without one has no vacant
    /// element.
    pub fn unused_base_in_block(&self, block_idx: u32) -> Option<u32>
        requires { block_idx < self.now.blocks }
        ensures found { IfSome result (IsLeastUnused self.now.marks self.now.block block_idx) }
        ensures taken { IfNone result (AreAllSet self.now.marks self.now.block block_idx) }
        ensures full { IfNone result (AreAllSet self.now.used self.now.block block_idx) }
    {
        least_unused(&self.elements, block_idx)
    }

    /// All vacant elements in rising order, or those of the last 16 blocks if a group has weight 0.
    pub fn vacant_iter(&self) -> VacantIter<'_, A>
        ensures { result ≡ vacants self.now }
    {
        VacantIter {
            elements: &self.elements,
            idx: self.elements.boundary(),
        }
    }
}

/// An iterator over the vacant elements from one on, in rising order.
#[derive(Drop)]
pub struct VacantIter<'a, A: Allocator = Global> {
    elements: &'a FreeList<A>,
    idx: u32,
}

impl<'a, A: Allocator> Model for VacantIter<'a, A> {
    ghost Value = { List ℕ };

    ghost view = { λ v. vacant_from v.elements.now.used_index.items v.idx };

    ghost invariant = { λ v. LeadsOverUsed v.elements.now.used_index.items v.elements.now.next.items
        × (v.idx ≤ element_count v.elements.now)
        × (element_count v.elements.now < 2 ^ 32) };
}

impl<A: Allocator> Iterator for VacantIter<'_, A> {
    ghost use Rattle.std.specs.Iterator.{YieldsFirst, item_count};

    type Item = u32;

    ghost next_gives = { YieldsFirst (λ left. left) };

    ghost remaining = { item_count (λ left. left) };

    fn next(&mut self) -> Option<u32> {
        let idx = first_vacant(self.elements, self.idx);
        if (idx as usize) < self.elements.used_index.len() {
            self.idx = idx + 1;
            Some(idx)
        } else {
            self.idx = idx;
            None
        }
    }
}

/// Places the groups in the order given.
fn place_all<A: Allocator>(
    groups: &[SiblingGroup<A>],
    tracked: bool,
    elements: &mut FreeList<A>,
    idx_map: &mut [u32],
    bases: &mut [u32],
) -> Result<()>
    requires whole { IsWhole elements.old }
    requires full { IsFull elements.old }
    requires groups { AreGroups groups.now (length idx_map.old) elements.old.block_len }
    requires states { length bases.old ≡ length idx_map.old }
    requires placed { IsPlaced groups.now 0 tracked (layout_of elements.old idx_map.old bases.old) }
    ensures whole { OnOk result (IsWhole elements.new) }
    ensures full { OnOk result (IsFull elements.new) }
    ensures block { OnOk result (elements.new.block_len ≡ elements.old.block_len) }
    ensures placed { OnOk result
        (IsPlaced groups.now (length groups.now) tracked
        (layout_of elements.new idx_map.new bases.new)) }
    ensures windowed { OnOk result
        (elements.new.windowed ≡ (elements.old.windowed || list_any is_light groups.now)) }
    ensures err { IfErr result
        (IsPlaceRefusal (2 ^ 32 ≤ (length groups.now + 1) * elements.old.block_len)) }
{
    for group in groups {
        elements.weigh(group.weight);
        let base = elements.place(group.children.as_slice(), tracked, idx_map)?;
        bases[group.parent as usize] = base;
    }
    Ok(())
}

/// The least base of the block that isn't taken.
fn least_unused<A: Allocator>(elements: &FreeList<A>, block_idx: u32) -> Option<u32>
    requires whole { IsWhole elements.now }
    requires block { block_idx < elements.now.num_blocks }
    requires full { IsFull elements.now }
    ensures found { IfSome result
        (IsLeastUnused elements.now.used_base.items elements.now.block_len block_idx) }
    ensures taken { IfNone result
        (AreAllSet elements.now.used_base.items elements.now.block_len block_idx) }
    ensures full { IfNone result
        (AreAllSet elements.now.used_index.items elements.now.block_len block_idx) }
{
    let start = block_idx * elements.block_len;
    for offset in 0..elements.block_len {
        if !elements.is_used_base(start + offset) {
            return Some(start + offset);
        }
    }
    None
}

/// The first vacant element from `start` on, or the number of elements.
fn first_vacant<A: Allocator>(elements: &FreeList<A>, start: u32) -> u32
    requires linked { LeadsOverUsed elements.now.used_index.items elements.now.next.items }
    requires inside { start ≤ element_count elements.now }
    ensures inside { result ≤ element_count elements.now }
    ensures one { result < element_count elements.now →
        vacant_from elements.now.used_index.items start
        ≡ result ∷ vacant_from elements.now.used_index.items (result + 1) }
    ensures none { element_count elements.now ≤ result →
        (vacant_from elements.now.used_index.items start ≡ [])
        × (vacant_from elements.now.used_index.items result ≡ []) }
{
    elements.skip_used(start)
}
