//! Eight buckets of patterns, which pass over places where no pattern can begin.
//!
//! Each bucket says which three bytes may stand at each of the first eight offsets of a window, by a
//! hash without regard to the case of letters. A place is a candidate if some bucket lets its
//! window pass. The method is known as FDR.

ghost use Rattle.std.specs.Prelude.{◌≡◌, ◌⊎◌, ◌+◌, ◌<◌, ◌≤◌, ℕ, List, drop, length, true, false, IfOk, IfErr};
ghost use Rattle.daachorse_core.specs.Refusals.{IsOutOfMemory};
ghost use Rattle.daachorse_prefilter.specs.Buckets.{NoneLet, some_lets};

mod builder;
mod filling;
mod gate;
mod scan;
mod slots;

pub use builder::BucketsBuilder;
pub use filling::Filling;
pub(crate) use gate::BucketsGate;
use scan::scan;
use std::alloc::{Allocator, Global};
use std::marker::Model;

/// Where fewer bytes are left, each place is a candidate.
pub const NEAR_END: usize = 26;

/// Buckets of patterns, made by [`BucketsBuilder`]. They take 65,536 bytes.
#[derive(Drop)]
pub struct Buckets<A: Allocator = Global> {
    // Bit 56 - 8 k + b of a slot's entry is 0 if bucket b lets its bytes stand at offset k.
    entries: Vec<u64, A>,
    // Whether a scan reads each place, or each second one.
    reads_each: bool,
}

impl<A: Allocator> Model for Buckets<A> {
    ghost use Rattle.std.specs.Prelude.{List, ℕ, ◌≡◌, length};

    ghost Value = { List ℕ };

    ghost view = { λ s. s.entries.items };

    ghost invariant = { λ s. length s.entries.items ≡ 8192 };
}

impl<A: Allocator> Buckets<A> {
    /// The first candidate from `pos` on, or a place near the end before which there is none.
    #[inline(always)]
    pub fn next_candidate(&self, haystack: &[u8], pos: usize) -> usize
        requires { pos ≤ length haystack.now }
        ensures behind { pos ≤ result }
        ensures inside { result ≤ length haystack.now }
        ensures none { NoneLet self.now haystack.now pos result }
        ensures here { (some_lets self.now (drop result haystack.now) ≡ true) ⊎ (length haystack.now < result + 26) }
    {
        if self.reads_each {
            return scan(&self.entries, 1, haystack, pos);
        }
        scan(&self.entries, 2, haystack, pos)
    }
}
