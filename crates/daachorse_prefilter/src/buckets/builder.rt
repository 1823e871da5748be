//! The builder of buckets, to which the patterns are shown one by one.

ghost use Rattle.std.specs.Prelude.{◌≡◌, ◌⊎◌, ℕ, ◌+◌, ◌-◌, ◌*◌, ◌<◌, ◌≤◌, ◌==◌, ◌&&◌, ◌||◌, List, length, true, false, slice_index, bit_and, IfOk, IfErr};
ghost use Rattle.daachorse_core.specs.Refusals.{IsOutOfMemory};
ghost use Rattle.daachorse_model.specs.Filter.{is_clear};
ghost use Rattle.daachorse_prefilter.specs.Buckets.{has_slot, is_clear_at, is_open, opens};

use super::Buckets;
use super::slots::{NUM_SLOTS, slot_of};
use daachorse_core::errors::Result;
use std::alloc::{Allocator, Global};
use std::marker::Model;

/// A builder of [`Buckets`], seen as the table that it would give. It keeps no pattern, only the
/// table of 65,536 bytes.
#[derive(Drop)]
pub struct BucketsBuilder<A: Allocator = Global> {
    entries: Vec<u64, A>,
    // The bits that no pattern lets be 0 in all entries.
    mask: u64,
    // The length of the shortest pattern.
    shortest: usize,
}

impl<A: Allocator> Model for BucketsBuilder<A> {
    ghost use Rattle.std.specs.Prelude.{List, ℕ, ◌≡◌, bit_and, length, map};

    ghost Value = { List ℕ };

    ghost view = { λ b. map (λ e. bit_and e b.mask) b.entries.items };

    ghost invariant = { λ b. length b.entries.items ≡ 8192 };
}

impl<A: Allocator> BucketsBuilder<A> {
    /// A builder with no pattern. Fails if an allocation does.
    pub fn new(alloc: A) -> Result<Self>
        ensures none { IfOk result (λ table. (y i : ℕ) → y < 8192 → i < 64 → is_clear_at table y i ≡ false) }
        ensures err { IfErr result IsOutOfMemory }
    {
        Ok(Self {
            entries: Vec::from_elem(alloc, u64::MAX, NUM_SLOTS)?,
            mask: u64::MAX,
            shortest: usize::MAX,
        })
    }

    /// Adds a pattern to a bucket.
    pub fn add(&mut self, pattern: &[u8], bucket: usize)
        requires bucket { bucket < 8 }
        ensures { (y i : ℕ) → y < 8192 → i < 64 → is_clear_at self.new y i ≡ (is_clear_at self.old y i || opens pattern.now bucket 8 y i) }
    {
        self.shortest = pattern.len().min(self.shortest);
        mark_offsets(&mut self.entries, &mut self.mask, pattern, bucket);
    }

    /// The buckets of the patterns that were added.
    pub fn close(self) -> Buckets<A>
        ensures { result ≡ self }
    {
        let mut entries = self.entries;
        close_entries(&mut entries, self.mask);
        // Of three bytes one offset alone has all, which a scan of each second place may leave out.
        Buckets {
            entries,
            reads_each: self.shortest < 4,
        }
    }
}

/// Lets the pattern's bytes stand at each offset of a window.
fn mark_offsets(entries: &mut [u64], mask: &mut u64, pattern: &[u8], bucket: usize)
    requires sized { length entries.old ≡ 8192 }
    requires bucket { bucket < 8 }
    ensures sized { length entries.new ≡ 8192 }
    ensures opens { (y i : ℕ) → i < 64 → is_open entries.new mask.new y i ≡ (is_open entries.old mask.old y i || opens pattern.now bucket 8 y i) }
{
    for k in 0..8 {
        mark(entries, mask, pattern, bucket, k);
    }
}

/// Lets the pattern's bytes stand at the offset k of a window and the two after it.
fn mark(entries: &mut [u64], mask: &mut u64, pattern: &[u8], bucket: usize, k: usize)
    requires sized { length entries.old ≡ 8192 }
    requires bucket { bucket < 8 }
    requires offset { k < 8 }
    ensures sized { length entries.new ≡ 8192 }
    ensures opens { (y i : ℕ) → i < 64 → is_open entries.new mask.new y i
        ≡ (is_open entries.old mask.old y i || ((i == 56 - 8 * k + bucket) && has_slot pattern.now k y)) }
{
    let bit = 56 - 8 * k + bucket;
    if k + 3 <= pattern.len() {
        let slot = slot_of(pattern[k], pattern[k + 1], pattern[k + 2]);
        unset(entries, slot, bit);
    } else if k + 2 == pattern.len() {
        for byte in 0..256u32 {
            let slot = slot_of(pattern[k], pattern[k + 1], byte as u8);
            unset(entries, slot, bit);
        }
    } else {
        *mask &= !(1u64 << bit);
    }
}

/// Makes a bit 0 in the entry of a slot.
fn unset(entries: &mut [u64], slot: usize, bit: usize)
    requires slot { slot < length entries.old }
    requires bit { bit < 64 }
    ensures sized { length entries.new ≡ length entries.old }
    ensures clears { (y i : ℕ) → i < 64 → is_clear (slice_index entries.new y) i
        ≡ (is_clear (slice_index entries.old y) i || ((i == bit) && (y == slot))) }
{
    entries[slot] &= !(1u64 << bit);
}

/// Makes what the mask has not 0 in all entries.
fn close_entries(entries: &mut [u64], mask: u64)
    ensures sized { length entries.new ≡ length entries.old }
    ensures entries { (y : ℕ) → y < length entries.old → slice_index entries.new y ≡ bit_and (slice_index entries.old y) mask }
{
    for entry in entries.iter_mut() {
        *entry &= mask;
    }
}
