//! The elements of a double array: which are used, and in which order the vacant ones are tried.
#![tactic(auto, using(daachorse_core::proofs::Failures::failures))]

ghost use Rattle.std.specs.Prelude.{◌≡◌, ℕ, ◌+◌, ◌*◌, ◌<◌, ◌≤◌, ◌^◌, ◌⊎◌, ◌||◌, length, bit_xor, nat_eq, slice_set, true, false, Some, None, MatchOption, IfOk, IfErr, OnOk};
ghost use Rattle.std.specs.Int.{IsPowerOfTwo};
ghost use Rattle.daachorse_core.specs.declared.errors.DaachorseError.TheVariants.{OutOfMemory};
ghost use Rattle.daachorse_placement.specs.Placement.{label_of, FitInBlock, AreIds, AreApart, IsPlaceRefusal};
ghost use Rattle.daachorse_placement.specs.FreeLists.{LeadsOverUsed, IsWhole, IsFull, HasOneBlock, HasFlagsOf, is_used, is_base, element_count, boundary_of, Fits, HasBase, NoneFits, IsFirstFit, HasBlockMore, HasMore, IsPlaceFor, HasTaken, HasMarked, HasPlaced, IsMapOf};

use daachorse_core::errors::{DaachorseError, Limit, Result};
use std::alloc::Allocator;

/// How many blocks, the last ones, are tried once the list is windowed.
const NUM_FREE_BLOCKS: u32 = 16;

#[derive(Drop)]
pub(crate) struct FreeList<A: Allocator> {
    /// For each element a later one, with no vacant element between them.
    pub(crate) next: Vec<u32, A>,
    pub(crate) used_index: Vec<bool, A>,
    pub(crate) used_base: Vec<bool, A>,
    pub(crate) block_len: u32,
    pub(crate) num_blocks: u32,
    /// In the blocks that are tried, no element before this one is vacant.
    pub(crate) first: u32,
    pub(crate) windowed: bool,
}

impl<A: Allocator + Copy> FreeList<A> {
    /// One block, in which the root and the dead state have their elements.
    pub(crate) fn new(alloc: A, block_len: u32) -> Result<Self>
        requires power { IsPowerOfTwo block_len }
        requires two { 2 ≤ block_len }
        ensures whole { IfOk result (λ e. IsWhole e) }
        ensures fresh { IfOk result (λ e. HasOneBlock e block_len) }
        ensures err { IfErr result (λ e. e ≡ OutOfMemory (record {})) }
    {
        let mut used_index = vec![in alloc; false; block_len as usize]?;
        used_index[0] = true;
        used_index[1] = true;
        let used_base = vec![in alloc; false; block_len as usize]?;
        let mut next = Vec::new(alloc);
        for idx in 0..block_len {
            next.push(idx + 1)?;
        }
        Ok(FreeList {
            next,
            used_index,
            used_base,
            block_len,
            num_blocks: 1,
            first: 0,
            windowed: false,
        })
    }
}

impl<A: Allocator> FreeList<A> {
    pub(crate) fn num_elements(&self) -> u32
        requires { IsWhole self.now }
        ensures { result ≡ element_count self.now }
    {
        self.num_blocks * self.block_len
    }

    /// The first element of the blocks that are tried.
    pub(crate) fn boundary(&self) -> u32
        requires { IsWhole self.now }
        ensures { result ≡ boundary_of self.now }
    {
        if self.windowed && self.num_blocks > NUM_FREE_BLOCKS {
            (self.num_blocks - NUM_FREE_BLOCKS) * self.block_len
        } else {
            0
        }
    }

    pub(crate) fn is_used_index(&self, idx: u32) -> bool
        requires { idx < element_count self.now }
        ensures { result ≡ is_used self.now idx }
    {
        self.used_index[idx as usize]
    }

    /// Whether the base is taken. Without tracking, none is.
    pub(crate) fn is_used_base(&self, base: u32) -> bool
        requires whole { IsWhole self.now }
        requires inside { base < element_count self.now }
        ensures { result ≡ is_base self.now base }
    {
        self.used_base[base as usize]
    }

    /// The first vacant element from `start` on.
    pub(crate) fn skip_used(&self, start: u32) -> u32
        requires linked { LeadsOverUsed self.now.used_index.items self.now.next.items }
        requires inside { start ≤ element_count self.now }
        ensures from { start ≤ result }
        ensures inside { result ≤ element_count self.now }
        ensures used { (k : ℕ) → start ≤ k → k < result → is_used self.now k ≡ true }
        ensures vacant { result < element_count self.now → is_used self.now result ≡ false }
    {
        let mut idx = start;
        while (idx as usize) < self.used_index.len() && self.used_index[idx as usize] {
            idx = self.next[idx as usize];
        }
        idx
    }

    /// The first vacant element after `idx`.
    fn after(&self, idx: u32) -> u32
        requires whole { IsWhole self.now }
        requires inside { idx < element_count self.now }
        ensures order { (idx < result) × (result ≤ element_count self.now) }
        ensures used { (k : ℕ) → idx < k → k < result → is_used self.now k ≡ true }
        ensures vacant { result < element_count self.now → is_used self.now result ≡ false }
    {
        self.skip_used(self.next[idx as usize])
    }

    /// Whether each child has a vacant element under `base`.
    fn fits(&self, base: u32, children: &[(u32, u32)]) -> bool
        requires whole { IsWhole self.now }
        requires inside { base < element_count self.now }
        requires labels { FitInBlock self.now.block_len children.now }
        ensures yes { result ≡ true → Fits self.now children.now base }
        ensures no { Fits self.now children.now base → result ≡ true }
    {
        for &(label, _) in children {
            if self.is_used_index(base ^ label) {
                return false;
            }
        }
        true
    }

    /// The base that puts the first child at `idx`, if it is free and all children fit.
    fn base_at(&self, idx: u32, children: &[(u32, u32)]) -> Option<u32>
        requires whole { IsWhole self.now }
        requires some { 0 < length children.now }
        requires inside { idx < element_count self.now }
        requires labels { FitInBlock self.now.block_len children.now }
        ensures none { result ≡ None → HasBase self.now children.now idx → ⊥ }
        ensures found { (base : ℕ) → result ≡ Some base →
            (base ≡ bit_xor idx (label_of children.now 0)) × HasBase self.now children.now idx }
        ensures inside { (base : ℕ) → result ≡ Some base → base < element_count self.now }
    {
        let (label, _) = children[0];
        let base = idx ^ label;
        if base != 0 && !self.is_used_base(base) && self.fits(base, children) {
            Some(base)
        } else {
            None
        }
    }

    /// Records that no element between `idx` and `next` is vacant.
    fn link(&mut self, idx: u32, next: u32)
        requires whole { IsWhole self.old }
        requires order { (idx < next) × (next ≤ element_count self.old) }
        requires used { (k : ℕ) → idx < k → k < next → is_used self.old k ≡ true }
        ensures whole { IsWhole self.new }
        ensures kept { HasFlagsOf self.old self.new }
    {
        self.next[idx as usize] = next;
    }

    /// The first base that fits. The vacant elements are tried for the first child, in rising
    /// order.
    fn first_fit(&mut self, children: &[(u32, u32)]) -> Option<u32>
        requires whole { IsWhole self.old }
        requires some { 0 < length children.now }
        requires labels { FitInBlock self.old.block_len children.now }
        ensures whole { IsWhole self.new }
        ensures kept { HasFlagsOf self.old self.new }
        ensures found { MatchOption result
            (NoneFits self.old children.now (element_count self.old))
            (IsFirstFit self.old children.now) }
    {
        let start = self.first.max(self.boundary());
        let mut idx = self.skip_used(start);
        self.first = idx;
        while idx < self.num_elements() {
            if let Some(base) = self.base_at(idx, children) {
                return Some(base);
            }
            let next = self.after(idx);
            self.link(idx, next);
            idx = next;
        }
        None
    }

    /// Adds a block of vacant elements at the end.
    fn add_block(&mut self) -> Result<()>
        requires { IsWhole self.old }
        ensures ok { OnOk result (IsWhole self.new) }
        ensures more { OnOk result (HasBlockMore self.old self.new) }
        ensures err { IfErr result
            (IsPlaceRefusal (2 ^ 32 ≤ element_count self.old + self.old.block_len)) }
    {
        let first = self.num_elements();
        let Some(end) = first.checked_add(self.block_len) else {
            return Err(DaachorseError::automaton_scale(Limit::NumElements));
        };
        self.used_index.resize(end as usize, false)?;
        self.used_base.resize(end as usize, false)?;
        for vacant in first..end {
            self.next.push(vacant + 1)?;
        }
        self.num_blocks += 1;
        Ok(())
    }

    /// The first base that fits. If none does, a block is added.
    pub(crate) fn find_base(&mut self, children: &[(u32, u32)]) -> Result<u32>
        requires whole { IsWhole self.old }
        requires some { 0 < length children.now }
        requires labels { FitInBlock self.old.block_len children.now }
        ensures whole { OnOk result (IsWhole self.new) }
        ensures more { OnOk result (HasMore self.old self.new) }
        ensures found { IfOk result (IsPlaceFor self.new children.now) }
        ensures first { IfOk result (λ base. IsFirstFit self.old children.now base
            ⊎ (NoneFits self.old children.now (element_count self.old)
            × (base ≡ bit_xor (element_count self.old) (label_of children.now 0)))) }
        ensures err { IfErr result
            (IsPlaceRefusal (2 ^ 32 ≤ element_count self.old + self.old.block_len)) }
    {
        if let Some(base) = self.first_fit(children) {
            return Ok(base);
        }
        let first = self.num_elements();
        self.add_block()?;
        let (label, _) = children[0];
        Ok(first ^ label)
    }

    fn use_index(&mut self, idx: u32)
        requires whole { IsWhole self.old }
        requires inside { idx < element_count self.old }
        ensures whole { IsWhole self.new }
        ensures used { self.new.used_index.items ≡ slice_set self.old.used_index.items idx true }
        ensures bases { self.new.used_base.items ≡ self.old.used_base.items }
        ensures block { self.new.block_len ≡ self.old.block_len }
        ensures blocks { self.new.num_blocks ≡ self.old.num_blocks }
        ensures windowed { self.new.windowed ≡ self.old.windowed }
    {
        self.used_index[idx as usize] = true;
    }

    /// Gives each child its element under `base`.
    pub(crate) fn take(&mut self, base: u32, children: &[(u32, u32)], idx_map: &mut [u32])
        requires whole { IsWhole self.old }
        requires inside { base < element_count self.old }
        requires labels { FitInBlock self.old.block_len children.now }
        requires ids { AreIds (length idx_map.old) children.now }
        requires apart { AreApart children.now }
        ensures whole { IsWhole self.new }
        ensures taken { HasTaken self.old self.new children.now (length children.now) base }
        ensures map { IsMapOf idx_map.old idx_map.new children.now (length children.now) base }
    {
        for &(label, child) in children {
            let idx = base ^ label;
            self.use_index(idx);
            idx_map[child as usize] = idx;
        }
    }

    /// Marks the base as taken, if bases are tracked.
    pub(crate) fn use_base(&mut self, base: u32, tracked: bool)
        requires whole { IsWhole self.old }
        requires inside { base < element_count self.old }
        ensures whole { IsWhole self.new }
        ensures marked { HasMarked self.old self.new base tracked }
    {
        if tracked {
            self.used_base[base as usize] = true;
        }
    }

    /// Places the children under the first base that fits, and returns it.
    pub(crate) fn place(
        &mut self,
        children: &[(u32, u32)],
        tracked: bool,
        idx_map: &mut [u32],
    ) -> Result<u32>
        requires whole { IsWhole self.old }
        requires some { 0 < length children.now }
        requires labels { FitInBlock self.old.block_len children.now }
        requires ids { AreIds (length idx_map.old) children.now }
        requires apart { AreApart children.now }
        requires full { IsFull self.old }
        ensures whole { OnOk result (IsWhole self.new) }
        ensures full { OnOk result (IsFull self.new) }
        ensures placed { IfOk result
            (λ base. HasPlaced self.old self.new children.now base tracked) }
        ensures map { IfOk result
            (IsMapOf idx_map.old idx_map.new children.now (length children.now)) }
        ensures err { IfErr result
            (IsPlaceRefusal (2 ^ 32 ≤ element_count self.old + self.old.block_len)) }
    {
        let base = self.find_base(children)?;
        self.take(base, children, idx_map);
        self.use_base(base, tracked);
        Ok(base)
    }

    /// Leaves only the last blocks to be tried, from the first weight 0 on.
    pub(crate) fn weigh(&mut self, weight: usize)
        requires { IsWhole self.old }
        ensures whole { IsWhole self.new }
        ensures windowed { self.new
            ≡ record self.old { windowed = self.old.windowed || nat_eq weight 0 } }
    {
        if weight == 0 {
            self.windowed = true;
        }
    }
}
