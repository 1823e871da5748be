//! The builder of a prefilter, to which the patterns are shown one by one.

ghost use Rattle.std.specs.Prelude.{◌≡◌, ℕ, ◌+◌, ◌-◌, ◌*◌, ◌<◌, ◌≤◌, ◌∷◌, [], ◌++◌, ◌||◌, List, length, vec_len, IfOk, IfErr, IfSome, slice_index};
ghost use Rattle.daachorse_core.specs.Refusals.{IsOutOfMemory};
ghost use Rattle.daachorse_model.specs.Filter.{is_clear, has_pair};
ghost use Rattle.daachorse_prefilter.specs.Filters.{PassesAtPatterns};
ghost use Rattle.daachorse_prefilter.specs.Building.{built_filter, is_sparse, ArePairCounts};

use super::pair_table::{PairTable, pair_of};
use super::{MAX_WINDOW_LEN, MIN_WINDOW_LEN, Prefilter};
use daachorse_core::errors::Result;
use std::alloc::{Allocator, Global};

/// A builder of [`Prefilter`]. It keeps no pattern, only the table of 65,536 bytes.
#[derive(Drop)]
pub struct PrefilterBuilder<A: Allocator = Global> {
    // The length of the shortest pattern, at most 9.
    window_len: u8,
    is_empty: bool,
    table: PairTable<A>,
    // For each offset in a window, how many pairs may be there.
    counts: [u32; 8],
    ghost short: { window_len ≤ 9 },
    ghost sized: { length table ≡ 65536 },
    ghost counted: { ArePairCounts table counts },
}

impl<A: Allocator> PrefilterBuilder<A> {
    ghost use Rattle.daachorse_prefilter.specs.Builders.{HasAdded};

    /// A builder with no pattern. It takes the memory of the table, and fails if that is refused.
    pub fn new(alloc: A) -> Result<Self>
        ensures added { IfOk result (λ b. HasAdded b []) }
        ensures err { IfErr result IsOutOfMemory }
    {
        Ok(Self {
            window_len: MAX_WINDOW_LEN,
            is_empty: true,
            table: PairTable::new(alloc)?,
            counts: [0; 8],
        })
    }

    /// Adds a pattern.
    pub fn add(&mut self, pattern: &[u8])
        ensures { (patterns : List (List ℕ)) →
            HasAdded self.old patterns → HasAdded self.new (patterns ++ pattern.now ∷ []) }
    {
        self.is_empty = false;
        self.window_len = pattern.len().min(self.window_len as usize) as u8;
        let window_len = pattern.len().min(MAX_WINDOW_LEN as usize);
        clear_pairs(&mut self.table, &mut self.counts, &pattern[..window_len]);
    }

    /// The prefilter of the patterns that were added, if it is worth its run.
    ///
    /// There is none without a pattern, with one of fewer than 2 bytes, or if too many places would
    /// be candidates. With k pairs in a window these are too many if the numbers of pairs that may
    /// be at each offset have a product above 2^(16 k - 4), one in sixteen of all.
    pub fn build(self) -> Option<Prefilter<A>>
        ensures made { (patterns : List (List ℕ)) → HasAdded self patterns → result ≡ built_filter patterns }
        ensures sound { (patterns : List (List ℕ)) →
            HasAdded self patterns → IfSome result (λ filter. PassesAtPatterns filter patterns) }
    {
        if self.is_empty || self.window_len < MIN_WINDOW_LEN {
            return None;
        }
        self.table.in_range();
        if !is_sparse(&self.counts, self.window_len - 1) {
            return None;
        }
        Some(Prefilter {
            window_len: self.window_len,
            table: self.table,
        })
    }
}

/// Allows each pair of the window at its offset, and counts those that are new there.
fn clear_pairs<A: Allocator>(table: &mut PairTable<A>, counts: &mut [u32], window: &[u8])
    requires sized { length table.old ≡ 65536 }
    requires offsets { length counts.old ≡ 8 }
    requires counted { ArePairCounts table.old counts.old }
    requires short { length window.now ≤ 9 }
    ensures marked { (pair j : ℕ) → pair < 65536 → j < 8 → is_clear (slice_index table.new pair) j
        ≡ (is_clear (slice_index table.old pair) j || has_pair pair j window.now) }
    ensures sized { length table.new ≡ 65536 }
    ensures counted { ArePairCounts table.new counts.new }
{
    for i in 1..window.len() {
        let offset = i - 1;
        let pair = pair_of(window[offset], window[i]);
        let entry = table.entry(pair);
        counts[offset] += ((entry >> offset) % 2) as u32;
        table.set_entry(pair, entry & !(1u8 << offset));
    }
}

/// Whether at most one in sixteen of all windows of this many pairs would be a candidate.
fn is_sparse(counts: &[u32], num_pairs: u8) -> bool
    requires offsets { length counts.now ≡ 8 }
    requires low { 1 ≤ num_pairs }
    requires high { num_pairs ≤ 8 }
    ensures { (entries : List ℕ) → length entries ≡ 65536 → ArePairCounts entries counts.now
        → result ≡ is_sparse entries num_pairs }
{
    let mut ways = 1u128;
    for offset in 0..num_pairs {
        // Only the last product may be too large.
        let Some(more) = ways.checked_mul(counts[offset as usize] as u128) else {
            return false;
        };
        ways = more;
    }
    ways <= 1u128 << (16 * num_pairs - 4)
}
