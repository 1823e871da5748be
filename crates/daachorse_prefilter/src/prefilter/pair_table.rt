//! A byte for each pair of bytes.
//!
//! The entry of bytes a and b has the number 256 a + b in the written form. In memory it has the
//! number a + 256 b, which a load of two bytes gives at once.

ghost use Rattle.std.specs.Prelude.{◌≡◌, ◌+◌, ◌*◌, ◌++◌, ◌<◌, ◌^◌, ℕ, List, length, nat_eq, set, slice_index, IfOk, IfErr};
ghost use Rattle.std.specs.Cmp.Lexicographic.{pointwise};
ghost use Rattle.std.specs.Cmp.Rules.{comparing};
ghost use Rattle.std.specs.List.{AllClonesOf};
ghost use Rattle.std.proofs.Common.{rules};
ghost use Rattle.daachorse_core.specs.Refusals.{IsOutOfMemory};
ghost use Rattle.daachorse_serializer.specs.Forms.{Begins};
ghost use Rattle.daachorse_prefilter.specs.Equality.{table_alike, table_input};
ghost use Rattle.daachorse_prefilter.specs.PairTables.{transposed, transposed_table};

use daachorse_core::errors::Result;
use std::alloc::{Allocator, Global};
use std::hash::{Hash, Hasher};
use std::marker::Model;

/// How many bytes there are.
const NUM_BYTES: usize = 256;

/// How many pairs of bytes there are.
pub(super) const NUM_PAIRS: usize = 65536;

/// An entry for each pair of bytes, which takes 65,536 bytes.
#[derive(Drop)]
pub struct PairTable<A: Allocator = Global> {
    // The entry of bytes a and b at a + 256 b.
    items: Vec<u8, A>,
}

impl<A: Allocator> Model for PairTable<A> {
    ghost Value = { List ℕ };

    ghost view = { λ s. transposed_table s.items.items };

    ghost invariant = { λ s. length s.items.items ≡ 65536 };
}

impl<A: Allocator> PairTable<A> {
    /// A table with all bits of its entries set. Fails if an allocation does.
    pub fn new(alloc: A) -> Result<Self>
        ensures sized { IfOk result (λ table. length table ≡ 65536) }
        ensures full { IfOk result (AllClonesOf (λ x y. y ≡ x) 255) }
        ensures err { IfErr result IsOutOfMemory }
    {
        Ok(Self {
            items: vec![in alloc; u8::MAX; NUM_PAIRS]?,
        })
    }

    /// The table of these entries, in the order of the written form. Fails if an allocation does.
    pub fn from_entries(alloc: A, entries: &[u8]) -> Result<Self>
        requires { length entries.now ≡ 65536 }
        ensures same { IfOk result (λ table. table ≡ entries.now) }
        ensures err { IfErr result IsOutOfMemory }
    {
        let mut items = Vec::with_capacity(alloc, NUM_PAIRS)?;
        push_transposed(&mut items, entries)?;
        Ok(Self { items })
    }

    /// Appends all entries, in the order of the written form. Fails if an allocation does.
    pub fn push_to<B: Allocator>(&self, dst: &mut Vec<u8, B>) -> Result<()>
        ensures appends { IfOk result (λ _. dst.new.items ≡ dst.old.items ++ self.now) }
        ensures kept { Begins dst.old.items dst.new.items }
        ensures err { IfErr result IsOutOfMemory }
    {
        push_transposed(dst, &self.items)
    }

    /// The entry of the pair with this number, as [`pair_of`] gives it.
    #[inline(always)]
    pub fn entry(&self, pair: u16) -> u8
        ensures { result ≡ slice_index self.now (transposed pair) }
    {
        self.items[pair as usize]
    }

    /// Sets the entry of a pair.
    #[inline(always)]
    pub fn set_entry(&mut self, pair: u16, entry: u8)
        ensures { self.new ≡ set self.old (transposed pair) entry }
    {
        self.items[pair as usize] = entry;
    }

    /// Does nothing. Its contract says that a table has 65,536 entries, each of them a byte.
    #[inline(always)]
    pub fn in_range(&self)
        ensures sized { length self.now ≡ 65536 }
        ensures bytes { (pair : ℕ) → slice_index self.now pair < 2 ^ 8 }
    {
        bytes_in_range(&self.items);
    }
}

impl<A: Allocator + Copy> PairTable<A> {
    /// Copies the table. Fails if an allocation does.
    pub fn clone(&self) -> Result<Self>
        ensures same { IfOk result (λ table. table ≡ self.now) }
        ensures err { IfErr result IsOutOfMemory }
    {
        Ok(Self {
            items: Vec::from_slice(*self.items.allocator(), &self.items)?,
        })
    }
}

impl<A: Allocator> PartialEq for PairTable<A> {
    ghost eq = { pointwise nat_eq };

    ghost laws = { Prim.search (comparing, rules) depth 9 };

    fn eq(&self, other: &Self) -> bool {
        self.items == other.items
    }
}

impl<A: Allocator> Eq for PairTable<A> {
    ghost laws = { Prim.search (comparing, rules) depth 9 };
}

/// The entries are hashed in the order of memory.
impl<A: Allocator> Hash for PairTable<A> {
    ghost hash_input = { table_input };

    ghost respects_eq = { table_alike.fed };

    fn hash<H: Hasher>(&self, state: &mut H) {
        self.items.hash(state);
    }
}

/// The number of a pair of bytes.
#[inline(always)]
pub fn pair_of(first: u8, second: u8) -> u16
    ensures { result ≡ first + second * 256 }
{
    u16::from_le_bytes([first, second])
}

/// Appends the entries, with the bytes of each pair in the other order.
fn push_transposed<B: Allocator>(dst: &mut Vec<u8, B>, entries: &[u8]) -> Result<()>
    requires { length entries.now ≡ 65536 }
    ensures appends { IfOk result (λ _. dst.new.items ≡ dst.old.items ++ transposed_table entries.now) }
    ensures kept { Begins dst.old.items dst.new.items }
    ensures err { IfErr result IsOutOfMemory }
{
    for byte in 0..NUM_BYTES {
        dst.extend_from_slice(&entries_behind(entries, byte))?;
    }
    Ok(())
}

/// The entries of the pairs whose second byte is `byte`, by their numbers in `entries`.
#[inline(always)]
fn entries_behind(entries: &[u8], byte: usize) -> [u8; NUM_BYTES]
    requires sized { length entries.now ≡ 65536 }
    requires byte { byte < 256 }
    ensures { (k : ℕ) → k < 256 → slice_index result k ≡ slice_index entries.now (transposed (byte * 256 + k)) }
{
    let mut row = [0u8; NUM_BYTES];
    for first in 0..NUM_BYTES {
        row[first] = entries[first * 256 + byte];
    }
    row
}

/// Does nothing. Its contract says that what is in hand is bytes.
#[inline(always)]
fn bytes_in_range(_bytes: &[u8])
    ensures { (k : ℕ) → slice_index _bytes.now k < 2 ^ 8 }
{}
