//! A prefilter over pairs of bytes, which skips places where no pattern can begin.
//!
//! A window is as long as the shortest pattern, at most 9 bytes. A place is a candidate if each
//! pair of neighbouring bytes of its window is at the same offset in some pattern. The method is
//! known as shift-or with q-grams.

ghost use Rattle.std.specs.Prelude.{◌≡◌, ◌++◌, ℕ, ◌<◌, ◌≤◌, ◌+◌, List, drop, length, true, IfOk, IfErr};
ghost use Rattle.std.specs.Cmp.Rules.{comparing};
ghost use Rattle.std.proofs.Common.{rules};
ghost use Rattle.daachorse_core.specs.Refusals.{IsOutOfMemory};
ghost use Rattle.daachorse_model.specs.Folding.{folded};
ghost use Rattle.daachorse_prefilter.specs.Equality.{filter_alike, filter_eq, filter_input};
ghost use Rattle.daachorse_prefilter.specs.Filters.{Filter, IsFilter, IsNextBoundary, admits, next_place};
ghost use Rattle.daachorse_prefilter.specs.Places.{IsFirstPlace};

mod builder;
mod form;
mod gate;
mod pair_table;
pub mod reading;
mod scan;
mod window;

use crate::places::find_boundary;
pub use builder::PrefilterBuilder;
use daachorse_core::errors::Result;
pub use gate::PrefilterGate;
use pair_table::PairTable;
use reading::{AsFolded, AsItIs, ByteReading};
use scan::scan;
use std::alloc::{Allocator, Global};
use std::hash::{Hash, Hasher};
use std::marker::Model;
pub use window::Window;

const MIN_WINDOW_LEN: u8 = 2;

const MAX_WINDOW_LEN: u8 = 9;

/// A prefilter, made by [`PrefilterBuilder`]. It takes 65,536 bytes, one for each pair of bytes.
#[derive(Drop)]
pub struct Prefilter<A: Allocator = Global> {
    window_len: u8,
    // Bit j of a pair's entry is 0 if some pattern has the pair at offset j.
    table: PairTable<A>,
}

impl<A: Allocator> Model for Prefilter<A> {
    ghost Value = { Filter };

    ghost view = { λ f. record { window = f.window_len; entries = f.table } };

    ghost invariant = { λ f. IsFilter (record { window = f.window_len; entries = f.table }) };
}

impl<A: Allocator> Prefilter<A> {
    /// The least length of a window, that of one pair.
    pub const MIN_WINDOW_LEN: usize = MIN_WINDOW_LEN as usize;

    /// The greatest length of a window: an entry has a bit for each of its pairs.
    pub const MAX_WINDOW_LEN: usize = MAX_WINDOW_LEN as usize;

    /// The first candidate from `pos` on, or the haystack's length. No pattern begins in between.
    ///
    /// With the patterns `aria` and `iris`, in the haystack `xxxariaxxx`, it is 3 from 0 on, and
    /// 10, the end, from 5 on.
    #[inline(always)]
    pub fn next_position(&self, haystack: &[u8], pos: usize) -> usize
        ensures first { result ≡ next_place self.now haystack.now pos }
        ensures skips_none { (pattern rest : List ℕ) (place : ℕ) → admits self.now pattern ≡ true
            → pos ≤ place → drop place haystack.now ≡ pattern ++ rest → result ≤ place }
    {
        self.first_place::<AsItIs>(haystack, pos)
    }

    /// Like [`Self::next_position`], with ASCII letters of the haystack read as lower case.
    #[inline(always)]
    pub fn next_position_folded(&self, haystack: &[u8], pos: usize) -> usize
        ensures first { result ≡ next_place self.now (folded haystack.now) pos }
        ensures skips_none { (pattern rest : List ℕ) (place : ℕ) → admits self.now pattern ≡ true
            → pos ≤ place → drop place (folded haystack.now) ≡ pattern ++ rest → result ≤ place }
    {
        self.first_place::<AsFolded>(haystack, pos)
    }

    /// The first candidate from `pos` on that is a character boundary, or the text's length.
    #[inline(always)]
    pub fn next_position_at_char_boundary(&self, haystack: &str, pos: usize) -> usize
        ensures { IsNextBoundary self.now haystack.now pos result }
    {
        find_boundary::<AsItIs, A>(self, None, haystack, pos)
    }

    /// Like [`Self::next_position_at_char_boundary`], with ASCII letters read as lower case.
    #[inline(always)]
    pub fn next_position_folded_at_char_boundary(&self, haystack: &str, pos: usize) -> usize
        ensures { IsNextBoundary self.now (folded haystack.now) pos result }
    {
        find_boundary::<AsFolded, A>(self, None, haystack, pos)
    }

    /// The first candidate from `pos` on, or the length of the haystack, which is read as `R` says.
    #[inline(always)]
    pub(crate) fn first_place<R: ByteReading>(&self, haystack: &[u8], pos: usize) -> usize
        ensures { IsFirstPlace (λ w. admits self.now w) (R.read haystack.now) pos result }
    {
        scan::<R, A>(&self.table, self.window_len, haystack, pos)
    }

    /// Whether the whole window at a place passes.
    #[inline(always)]
    pub(crate) fn admits_at<R: ByteReading>(&self, haystack: &[u8], place: usize) -> bool
        requires { place + 9 ≤ length haystack.now }
        ensures { result ≡ admits self.now (drop place (R.read haystack.now)) }
    {
        let end = place + self.window_len as usize;
        self.first_place::<R>(&haystack[place..end], 0) == 0
    }
}

impl<A: Allocator + Copy> Prefilter<A> {
    /// Copies the prefilter. Fails if an allocation does.
    pub fn clone(&self) -> Result<Self>
        ensures same { IfOk result (λ filter. filter ≡ self.now) }
        ensures err { IfErr result IsOutOfMemory }
    {
        Ok(Self {
            window_len: self.window_len,
            table: self.table.clone()?,
        })
    }
}

/// Copies the prefilter, if there is one. Fails if an allocation does.
pub fn clone_filter<A: Allocator + Copy>(
    filter: &Option<Prefilter<A>>,
) -> Result<Option<Prefilter<A>>>
    ensures same { IfOk result (λ copy. copy ≡ filter.now) }
    ensures err { IfErr result IsOutOfMemory }
{
    match filter {
        Some(filter) => Ok(Some(filter.clone()?)),
        None => Ok(None),
    }
}

impl<A: Allocator> PartialEq for Prefilter<A> {
    ghost eq = { filter_eq };

    ghost laws = { Prim.search (comparing, rules) depth 9 };

    fn eq(&self, other: &Self) -> bool {
        self.window_len == other.window_len && self.table == other.table
    }
}

impl<A: Allocator> Eq for Prefilter<A> {
    ghost laws = { Prim.search (comparing, rules) depth 9 };
}

impl<A: Allocator> Hash for Prefilter<A> {
    ghost hash_input = { filter_input };

    ghost respects_eq = { filter_alike.fed };

    fn hash<H: Hasher>(&self, state: &mut H) {
        self.window_len.hash(state);
        self.table.hash(state);
    }
}
