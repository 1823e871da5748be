//! Written forms of numbers: their bytes, the lowest first.
#![tactic(auto, using(daachorse_core::proofs::Failures::failures))]

ghost use Rattle.std.specs.Prelude.{◌≡◌, ℕ, ℤ, ◌<◌, ◌≤◌, ◌^◌, length, take, drop, IfErr, MatchResult, FitsSigned};
ghost use Rattle.std.specs.Int.{w8, w16, w32, w64, w128};
ghost use Rattle.daachorse_core.specs.Outputs.{number};
ghost use Rattle.daachorse_core.specs.declared.errors.DaachorseError.TheVariants.{InvalidAutomaton};
ghost use Rattle.daachorse_serializer.specs.Forms.{Gives, number_form, signed_form, take_number, take_signed};
ghost use Rattle.daachorse_serializer.specs.Laws.{number_law, position_law, signed_law};
ghost use Rattle.daachorse_serializer.specs.Positions.{position_form, take_position};

use crate::serializer::{Serializable, append};
use daachorse_core::errors::{DaachorseError, Result};
use std::alloc::Allocator;
use std::num::NonZeroU32;

/// The first `N` bytes, and the rest.
fn first_chunk<const N: usize>(src: &[u8]) -> Result<(&[u8; N], &[u8])>
    ensures { MatchResult result
        (λ r. (N ≤ length src.now) × (r.0.now ≡ take N src.now) × (r.1.now ≡ drop N src.now))
        (λ e. (length src.now < N) × (e ≡ InvalidAutomaton (record {}))) }
{
    match src.split_first_chunk() {
        Some(parts) => Ok(parts),
        None => Err(DaachorseError::invalid_automaton()),
    }
}

impl Serializable for u8 {
    ghost is_value = { λ n. n < 2 ^ 8 };

    ghost form = { number_form w8 };

    ghost taken = { take_number w8 };

    ghost form_len = { 1 };

    #[inline(always)]
    #[tactic(auto, unfolding(crate::specs::Forms::number_form))]
    fn serialize_to_vec<A: Allocator>(&self, dst: &mut Vec<u8, A>) -> Result<()> {
        append(dst, &self.to_le_bytes())
    }

    #[inline(always)]
    fn deserialize_from_slice(src: &[u8]) -> Result<(Self, &[u8])>
        ensures given { Gives result (take_number w8 src.now) }
        ensures err { IfErr result (λ e. e ≡ InvalidAutomaton (record {})) }
    {
        let (bytes, rest) = first_chunk(src)?;
        Ok((u8::from_le_bytes(*bytes), rest))
    }

    #[tactic(auto, unfolding(crate::specs::Forms::number_form))]
    fn serialized_bytes() -> usize
        ensures is { result ≡ 1 }
        ensures exact { (n : ℕ) → length (number_form w8 n) ≡ result }
    {
        size_of::<u8>()
    }

    fn in_range(&self) {
        let _value = *self;
    }

    ghost law = { number_law w8 };
}

impl Serializable for u16 {
    ghost is_value = { λ n. n < 2 ^ 16 };

    ghost form = { number_form w16 };

    ghost taken = { take_number w16 };

    ghost form_len = { 2 };

    #[inline(always)]
    #[tactic(auto, unfolding(crate::specs::Forms::number_form))]
    fn serialize_to_vec<A: Allocator>(&self, dst: &mut Vec<u8, A>) -> Result<()> {
        append(dst, &self.to_le_bytes())
    }

    #[inline(always)]
    fn deserialize_from_slice(src: &[u8]) -> Result<(Self, &[u8])>
        ensures given { Gives result (take_number w16 src.now) }
        ensures err { IfErr result (λ e. e ≡ InvalidAutomaton (record {})) }
    {
        let (bytes, rest) = first_chunk(src)?;
        Ok((u16::from_le_bytes(*bytes), rest))
    }

    #[tactic(auto, unfolding(crate::specs::Forms::number_form))]
    fn serialized_bytes() -> usize
        ensures is { result ≡ 2 }
        ensures exact { (n : ℕ) → length (number_form w16 n) ≡ result }
    {
        size_of::<u16>()
    }

    fn in_range(&self) {
        let _value = *self;
    }

    ghost law = { number_law w16 };
}

impl Serializable for u32 {
    ghost is_value = { λ n. n < 2 ^ 32 };

    ghost form = { number_form w32 };

    ghost taken = { take_number w32 };

    ghost form_len = { 4 };

    #[inline(always)]
    #[tactic(auto, unfolding(crate::specs::Forms::number_form))]
    fn serialize_to_vec<A: Allocator>(&self, dst: &mut Vec<u8, A>) -> Result<()> {
        append(dst, &self.to_le_bytes())
    }

    #[inline(always)]
    fn deserialize_from_slice(src: &[u8]) -> Result<(Self, &[u8])>
        ensures given { Gives result (take_number w32 src.now) }
        ensures err { IfErr result (λ e. e ≡ InvalidAutomaton (record {})) }
    {
        let (bytes, rest) = first_chunk(src)?;
        Ok((u32::from_le_bytes(*bytes), rest))
    }

    #[tactic(auto, unfolding(crate::specs::Forms::number_form))]
    fn serialized_bytes() -> usize
        ensures is { result ≡ 4 }
        ensures exact { (n : ℕ) → length (number_form w32 n) ≡ result }
    {
        size_of::<u32>()
    }

    fn in_range(&self) {
        let _value = *self;
    }

    ghost law = { number_law w32 };
}

impl Serializable for u64 {
    ghost is_value = { λ n. n < 2 ^ 64 };

    ghost form = { number_form w64 };

    ghost taken = { take_number w64 };

    ghost form_len = { 8 };

    #[inline(always)]
    #[tactic(auto, unfolding(crate::specs::Forms::number_form))]
    fn serialize_to_vec<A: Allocator>(&self, dst: &mut Vec<u8, A>) -> Result<()> {
        append(dst, &self.to_le_bytes())
    }

    #[inline(always)]
    fn deserialize_from_slice(src: &[u8]) -> Result<(Self, &[u8])>
        ensures given { Gives result (take_number w64 src.now) }
        ensures err { IfErr result (λ e. e ≡ InvalidAutomaton (record {})) }
    {
        let (bytes, rest) = first_chunk(src)?;
        Ok((u64::from_le_bytes(*bytes), rest))
    }

    #[tactic(auto, unfolding(crate::specs::Forms::number_form))]
    fn serialized_bytes() -> usize
        ensures is { result ≡ 8 }
        ensures exact { (n : ℕ) → length (number_form w64 n) ≡ result }
    {
        size_of::<u64>()
    }

    fn in_range(&self) {
        let _value = *self;
    }

    ghost law = { number_law w64 };
}

impl Serializable for u128 {
    ghost is_value = { λ n. n < 2 ^ 128 };

    ghost form = { number_form w128 };

    ghost taken = { take_number w128 };

    ghost form_len = { 16 };

    #[inline(always)]
    #[tactic(auto, unfolding(crate::specs::Forms::number_form))]
    fn serialize_to_vec<A: Allocator>(&self, dst: &mut Vec<u8, A>) -> Result<()> {
        append(dst, &self.to_le_bytes())
    }

    #[inline(always)]
    fn deserialize_from_slice(src: &[u8]) -> Result<(Self, &[u8])>
        ensures given { Gives result (take_number w128 src.now) }
        ensures err { IfErr result (λ e. e ≡ InvalidAutomaton (record {})) }
    {
        let (bytes, rest) = first_chunk(src)?;
        Ok((u128::from_le_bytes(*bytes), rest))
    }

    #[tactic(auto, unfolding(crate::specs::Forms::number_form))]
    fn serialized_bytes() -> usize
        ensures is { result ≡ 16 }
        ensures exact { (n : ℕ) → length (number_form w128 n) ≡ result }
    {
        size_of::<u128>()
    }

    fn in_range(&self) {
        let _value = *self;
    }

    ghost law = { number_law w128 };
}

impl Serializable for i8 {
    ghost is_value = { λ z. FitsSigned w8 z };

    ghost form = { signed_form w8 };

    ghost taken = { take_signed w8 };

    ghost form_len = { 1 };

    #[inline(always)]
    fn serialize_to_vec<A: Allocator>(&self, dst: &mut Vec<u8, A>) -> Result<()> {
        self.cast_unsigned().serialize_to_vec(dst)
    }

    #[inline(always)]
    fn deserialize_from_slice(src: &[u8]) -> Result<(Self, &[u8])>
        ensures given { Gives result (take_signed w8 src.now) }
        ensures err { IfErr result (λ e. e ≡ InvalidAutomaton (record {})) }
    {
        let (number, rest) = u8::deserialize_from_slice(src)?;
        Ok((number.cast_signed(), rest))
    }

    #[tactic(auto, unfolding(crate::specs::Forms::number_form))]
    fn serialized_bytes() -> usize
        ensures is { result ≡ 1 }
        ensures exact { (z : ℤ) → length (signed_form w8 z) ≡ result }
    {
        size_of::<i8>()
    }

    fn in_range(&self) {
        let _value = *self;
    }

    ghost law = { signed_law w8 };
}

impl Serializable for i16 {
    ghost is_value = { λ z. FitsSigned w16 z };

    ghost form = { signed_form w16 };

    ghost taken = { take_signed w16 };

    ghost form_len = { 2 };

    #[inline(always)]
    fn serialize_to_vec<A: Allocator>(&self, dst: &mut Vec<u8, A>) -> Result<()> {
        self.cast_unsigned().serialize_to_vec(dst)
    }

    #[inline(always)]
    fn deserialize_from_slice(src: &[u8]) -> Result<(Self, &[u8])>
        ensures given { Gives result (take_signed w16 src.now) }
        ensures err { IfErr result (λ e. e ≡ InvalidAutomaton (record {})) }
    {
        let (number, rest) = u16::deserialize_from_slice(src)?;
        Ok((number.cast_signed(), rest))
    }

    #[tactic(auto, unfolding(crate::specs::Forms::number_form))]
    fn serialized_bytes() -> usize
        ensures is { result ≡ 2 }
        ensures exact { (z : ℤ) → length (signed_form w16 z) ≡ result }
    {
        size_of::<i16>()
    }

    fn in_range(&self) {
        let _value = *self;
    }

    ghost law = { signed_law w16 };
}

impl Serializable for i32 {
    ghost is_value = { λ z. FitsSigned w32 z };

    ghost form = { signed_form w32 };

    ghost taken = { take_signed w32 };

    ghost form_len = { 4 };

    #[inline(always)]
    fn serialize_to_vec<A: Allocator>(&self, dst: &mut Vec<u8, A>) -> Result<()> {
        self.cast_unsigned().serialize_to_vec(dst)
    }

    #[inline(always)]
    fn deserialize_from_slice(src: &[u8]) -> Result<(Self, &[u8])>
        ensures given { Gives result (take_signed w32 src.now) }
        ensures err { IfErr result (λ e. e ≡ InvalidAutomaton (record {})) }
    {
        let (number, rest) = u32::deserialize_from_slice(src)?;
        Ok((number.cast_signed(), rest))
    }

    #[tactic(auto, unfolding(crate::specs::Forms::number_form))]
    fn serialized_bytes() -> usize
        ensures is { result ≡ 4 }
        ensures exact { (z : ℤ) → length (signed_form w32 z) ≡ result }
    {
        size_of::<i32>()
    }

    fn in_range(&self) {
        let _value = *self;
    }

    ghost law = { signed_law w32 };
}

impl Serializable for i64 {
    ghost is_value = { λ z. FitsSigned w64 z };

    ghost form = { signed_form w64 };

    ghost taken = { take_signed w64 };

    ghost form_len = { 8 };

    #[inline(always)]
    fn serialize_to_vec<A: Allocator>(&self, dst: &mut Vec<u8, A>) -> Result<()> {
        self.cast_unsigned().serialize_to_vec(dst)
    }

    #[inline(always)]
    fn deserialize_from_slice(src: &[u8]) -> Result<(Self, &[u8])>
        ensures given { Gives result (take_signed w64 src.now) }
        ensures err { IfErr result (λ e. e ≡ InvalidAutomaton (record {})) }
    {
        let (number, rest) = u64::deserialize_from_slice(src)?;
        Ok((number.cast_signed(), rest))
    }

    #[tactic(auto, unfolding(crate::specs::Forms::number_form))]
    fn serialized_bytes() -> usize
        ensures is { result ≡ 8 }
        ensures exact { (z : ℤ) → length (signed_form w64 z) ≡ result }
    {
        size_of::<i64>()
    }

    fn in_range(&self) {
        let _value = *self;
    }

    ghost law = { signed_law w64 };
}

impl Serializable for i128 {
    ghost is_value = { λ z. FitsSigned w128 z };

    ghost form = { signed_form w128 };

    ghost taken = { take_signed w128 };

    ghost form_len = { 16 };

    #[inline(always)]
    fn serialize_to_vec<A: Allocator>(&self, dst: &mut Vec<u8, A>) -> Result<()> {
        self.cast_unsigned().serialize_to_vec(dst)
    }

    #[inline(always)]
    fn deserialize_from_slice(src: &[u8]) -> Result<(Self, &[u8])>
        ensures given { Gives result (take_signed w128 src.now) }
        ensures err { IfErr result (λ e. e ≡ InvalidAutomaton (record {})) }
    {
        let (number, rest) = u128::deserialize_from_slice(src)?;
        Ok((number.cast_signed(), rest))
    }

    #[tactic(auto, unfolding(crate::specs::Forms::number_form))]
    fn serialized_bytes() -> usize
        ensures is { result ≡ 16 }
        ensures exact { (z : ℤ) → length (signed_form w128 z) ≡ result }
    {
        size_of::<i128>()
    }

    fn in_range(&self) {
        let _value = *self;
    }

    ghost law = { signed_law w128 };
}

/// A number of 32 bits, 0 for none.
impl Serializable for Option<NonZeroU32> {
    ghost is_value = { λ v. number v < 2 ^ 32 };

    ghost form = { position_form };

    ghost taken = { take_position };

    ghost form_len = { 4 };

    #[inline(always)]
    fn serialize_to_vec<A: Allocator>(&self, dst: &mut Vec<u8, A>) -> Result<()> {
        self.map_or(0, NonZeroU32::get).serialize_to_vec(dst)
    }

    #[inline(always)]
    fn deserialize_from_slice(src: &[u8]) -> Result<(Self, &[u8])>
        ensures given { Gives result (take_position src.now) }
        ensures err { IfErr result (λ e. e ≡ InvalidAutomaton (record {})) }
    {
        let (number, rest) = u32::deserialize_from_slice(src)?;
        Ok((NonZeroU32::new(number), rest))
    }

    #[tactic(auto, unfolding(crate::specs::Forms::number_form))]
    fn serialized_bytes() -> usize
        ensures is { result ≡ 4 }
        ensures exact { (n : ℕ) → length (number_form w32 n) ≡ result }
    {
        u32::serialized_bytes()
    }

    fn in_range(&self) {
        let _number = self.map_or(0, NonZeroU32::get);
    }

    ghost law = { position_law };
}
