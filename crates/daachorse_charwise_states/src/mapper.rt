//! Codes of characters: small numbers, the smallest for the most frequent characters.

ghost use Rattle.std.specs.Prelude.{◌≡◌, ◌≢◌, ◌↔◌, ℕ, ◌<◌, ◌^◌, ◌==◌, ◌++◌, IsTrue, max, length, slice_get, slice_index, IfOk, IfErr, MatchOption};
ghost use Rattle.std.specs.Int.{IsNextPowerOfTwo};
ghost use Rattle.std.specs.Cmp.Lexicographic.{pointwise};
ghost use Rattle.std.specs.Cmp.Rules.{comparing, hashing};
ghost use Rattle.std.specs.Hash as fed;
ghost use Rattle.std.specs.Ordering.{on, eq_of_both};
ghost use Rattle.std.proofs.Common.{rules};
ghost use Rattle.daachorse_core.specs.Refusals.{IsOutOfMemory};
ghost use Rattle.daachorse_charwise_states.specs.Codings.{Coding, IsCoding, IsCodingOf, code_of, entry_code};
ghost use Rattle.daachorse_charwise_states.specs.Ranks.{HaveOneRank, AreRanked, IsFilled, index_at, used_in};
ghost use Rattle.daachorse_charwise_states.specs.CodingForms.{AreNumbers, coding_form, coding_law, coding_len, coding_from, take_coding};

use daachorse_core::errors::Result;
use daachorse_serializer::serializer::{Serializable, SerializableVec};
use std::alloc::{Allocator, Global};
use std::cmp::Reverse;
use std::hash::{Hash, Hasher};
use std::marker::Model;

/// The entry of a code point that has no code.
pub const INVALID_CODE: u32 = u32::MAX;

/// The codes of characters: a list by code point, of four bytes for each up to the greatest
/// counted. Frequent characters have small codes, as in Kanda, Akabe and Oda (arXiv 2207.13870).
#[derive(Drop)]
#[derive_where(Debug)]
pub struct CodeMapper<A: Allocator = Global> {
    // The code at each code point, or `INVALID_CODE`.
    table: Vec<u32, A>,
    alphabet_size: u32,
}

impl<A: Allocator> Model for CodeMapper<A> {
    ghost Value = { Coding };

    ghost view = { λ m. record { table = m.table.items; alphabet_size = m.alphabet_size } };

    ghost invariant = { λ m. length m.table.items < 2 ^ 32 };
}

impl<A: Allocator + Copy> CodeMapper<A> {
    /// The mapper for these frequencies, by code point. Code points of frequency above 0 have the
    /// codes 0, 1, 2 and so on, by falling frequency and then by code point.
    ///
    /// # Conditions
    /// There are at most 4,294,967,295 frequencies.
    ///
    /// # Errors
    /// Out of memory.
    pub fn new(alloc: A, freqs: &[u32]) -> Result<Self>
        requires { length freqs.now < 2 ^ 32 }
        ensures ok { IfOk result (λ m. IsCodingOf freqs.now m) }
        ensures err { IfErr result IsOutOfMemory }
    {
        let ranked = rank(alloc, freqs)?;
        let table = fill(alloc, &ranked, freqs.len())?;
        Ok(Self {
            table,
            alphabet_size: ranked.len() as u32,
        })
    }

    /// A mapper with the same table and alphabet size.
    ///
    /// # Errors
    /// Out of memory.
    pub fn clone(&self) -> Result<Self>
        ensures same { IfOk result (λ m. m ≡ self.now) }
        ensures err { IfErr result IsOutOfMemory }
    {
        Ok(Self {
            table: Vec::from_slice(*self.table.allocator(), &self.table)?,
            alphabet_size: self.alphabet_size,
        })
    }
}

impl<A: Allocator> CodeMapper<A> {
    /// The code of a character, if it has one.
    #[inline(always)]
    pub fn get(&self, c: char) -> Option<u32>
        ensures { result ≡ code_of self.now c }
    {
        code_in(&self.table, c)
    }

    /// The size of the alphabet. For a mapper made from frequencies it is the number of characters
    /// with a code; for one that was read it may be any number.
    #[inline(always)]
    pub fn alphabet_size(&self) -> u32
        ensures { result ≡ self.now.alphabet_size }
    {
        self.alphabet_size
    }

    /// The least power of two that is at least 2 and at least the alphabet size, if it is below
    /// 4,294,967,296.
    #[inline(always)]
    pub fn block_len(&self) -> Option<u32>
        ensures { MatchOption result (2 ^ 31 < self.now.alphabet_size) (IsNextPowerOfTwo (max 2 self.now.alphabet_size)) }
    {
        self.alphabet_size.max(2).checked_next_power_of_two()
    }

    /// The entry of each code point: its code, or [`INVALID_CODE`].
    #[inline(always)]
    pub fn table(&self) -> &[u32]
        ensures is { result.now ≡ self.now.table }
        ensures few { length result.now < 2 ^ 32 }
    {
        &self.table
    }

    /// Whether the codes are distinct and below the alphabet size, as in a mapper made from
    /// frequencies. In one that was read they may be any numbers.
    ///
    /// It takes a byte for each number below the alphabet size.
    ///
    /// # Errors
    /// Out of memory.
    pub fn is_coding<B: Allocator>(&self, alloc: B) -> Result<bool>
        ensures ok { IfOk result (λ right. IsTrue right ↔ IsCoding self.now) }
        ensures err { IfErr result IsOutOfMemory }
    {
        are_codes(alloc, &self.table, self.alphabet_size)
    }
}

impl<A: Allocator> PartialEq for CodeMapper<A> {
    ghost eq = { eq_of_both (on (λ m. m.table) (pointwise ◌==◌)) (on (λ m. m.alphabet_size) ◌==◌) };

    ghost laws = { Prim.search (comparing, rules) depth 9 };

    fn eq(&self, other: &Self) -> bool {
        self.table == other.table && self.alphabet_size == other.alphabet_size
    }
}

impl<A: Allocator> Eq for CodeMapper<A> {
    ghost laws = { Prim.search (comparing, rules) depth 9 };
}

impl<A: Allocator> Hash for CodeMapper<A> {
    ghost hash_input = { λ m. fed.slice fed.u32 m.table ++ fed.u32 m.alphabet_size };

    ghost respects_eq = { Prim.search (hashing, rules) };

    fn hash<H: Hasher>(&self, state: &mut H) {
        self.table.hash(state);
        self.alphabet_size.hash(state);
    }
}

/// The table as a list, then the alphabet size. A read accepts any table and any size.
impl<A: Allocator> SerializableVec for CodeMapper<A> {
    type Alloc = A;

    ghost Shape = { Coding };

    ghost shape = { λ m. m };

    ghost is_value = { AreNumbers };

    ghost can_write = { λ _. Unit {0} };

    ghost form = { coding_form };

    ghost taken = { take_coding };

    ghost form_len = { coding_len };

    fn serialize_to_vec<B: Allocator>(&self, dst: &mut Vec<u8, B>) -> Result<()> {
        self.table.serialize_to_vec(dst)?;
        self.alphabet_size.serialize_to_vec(dst)
    }

    fn deserialize_from_slice<'a>(alloc: A, src: &'a [u8]) -> Result<(Self, &'a [u8])> {
        let (table, rest) = <Vec<u32, A>>::deserialize_from_slice(alloc, src)?;
        let (alphabet_size, rest) = u32::deserialize_from_slice(rest)?;
        let mapper = Self {
            table,
            alphabet_size,
        };
        Ok((mapper, rest))
    }

    fn serialized_bytes(&self) -> usize {
        self.table.serialized_bytes().saturating_add(4)
    }

    fn in_range(&self) {
        self.table.in_range();
        self.alphabet_size.in_range();
    }

    ghost law = { coding_law };
}

/// Whether the codes of a table are distinct and below the alphabet size.
fn are_codes<A: Allocator>(alloc: A, table: &[u32], alphabet_size: u32) -> Result<bool>
    ensures ok { IfOk result (λ right. IsTrue right ↔ IsCoding (coding_from (table.now, alphabet_size))) }
    ensures err { IfErr result IsOutOfMemory }
{
    let mut taken = vec![in alloc; false; alphabet_size as usize]?;
    for &code in table {
        if code != INVALID_CODE {
            if code >= alphabet_size {
                return Ok(false);
            }
            if taken[code as usize] {
                return Ok(false);
            }
            taken[code as usize] = true;
        }
    }
    Ok(true)
}

/// The code of a character in a mapper's table, if it has one.
#[inline(always)]
pub fn code_in(table: &[u32], c: char) -> Option<u32>
    ensures { result ≡ entry_code (slice_get table.now c) }
{
    match table.get(c as usize) {
        Some(&code) if code != INVALID_CODE => Some(code),
        _ => None,
    }
}

/// The indexes of frequency above 0 with their frequencies, by falling frequency and then by index.
fn rank<A: Allocator>(alloc: A, freqs: &[u32]) -> Result<Vec<(usize, u32), A>>
    ensures ranked { IfOk result (λ v. AreRanked freqs.now v.items) }
    ensures err { IfErr result IsOutOfMemory }
{
    let mut ranked = used(alloc, freqs)?;
    ranked.sort_by_key(|&(_, freq)| Reverse(freq))?;
    Ok(ranked)
}

/// The indexes of frequency above 0 with their frequencies, by index.
fn used<A: Allocator>(alloc: A, freqs: &[u32]) -> Result<Vec<(usize, u32), A>>
    ensures used { IfOk result (λ v. v.items ≡ used_in freqs.now) }
    ensures err { IfErr result IsOutOfMemory }
{
    let mut used = Vec::new(alloc);
    for (index, &freq) in freqs.iter().enumerate() {
        if freq > 0 {
            used.push((index, freq))?;
        }
    }
    Ok(used)
}

/// A table of `len` entries, with the rank at each ranked index.
fn fill<A: Allocator>(alloc: A, ranked: &[(usize, u32)], len: usize) -> Result<Vec<u32, A>>
    requires few { length ranked.now < 2 ^ 32 }
    requires inside { (k : ℕ) → k < length ranked.now → index_at ranked.now k < len }
    requires apart { HaveOneRank ranked.now }
    ensures len { IfOk result (λ table. length table.items ≡ len) }
    ensures filled { IfOk result (λ table. IsFilled ranked.now (length ranked.now) table.items) }
    ensures err { IfErr result IsOutOfMemory }
{
    let mut table = vec![in alloc; INVALID_CODE; len]?;
    for (code, &(index, _)) in ranked.iter().enumerate() {
        table[index] = code as u32;
    }
    Ok(table)
}
