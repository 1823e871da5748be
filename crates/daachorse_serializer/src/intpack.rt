//! A number of 24 bits and a byte in one word, which is read and set without branches.

ghost use Rattle.std.specs.Prelude.{◌≡◌, ◌<◌, ◌≤◌, ◌^◌, ℕ, MatchResult};
ghost use Rattle.std.specs.Prelude.{IfErr, length};
ghost use Rattle.std.specs.Int.{w32};
ghost use Rattle.daachorse_core.specs.declared.errors.DaachorseError.TheVariants.{InvalidAutomaton};
ghost use Rattle.daachorse_serializer.specs.Forms.{Gives, number_form};
ghost use Rattle.daachorse_serializer.specs.Laws.{packed_law};
ghost use Rattle.daachorse_serializer.specs.Packed.{upper, lower, too_large_text, word_of, packed_form, take_packed};

use crate::serializer::Serializable;
use daachorse_core::errors::Result;
use std::alloc::Allocator;
use std::marker::Model;

/// A number of 24 bits. `U24::try_from` makes it of a `u32`, and refuses 2^24 and more.
#[derive(Clone, Copy, Debug, Default, PartialEq, Eq, Hash)]
pub struct U24 {
    value: u32,
}

impl Model for U24 {
    ghost Value = { ℕ };

    ghost view = { λ n. n.value };

    ghost invariant = { λ n. n.value < 2 ^ 24 };

    ghost inverse = { λ n. record { value = n } };
}

impl U24 {
    /// The greatest number of 24 bits.
    pub const MAX: u32 = 0x00ff_ffff;

    /// The number.
    #[inline(always)]
    pub fn get(self) -> u32
        ensures same { result ≡ self }
        ensures below { result < 2 ^ 24 }
    {
        self.value
    }
}

/// Refuses a number past [`U24::MAX`], and no other.
impl TryFrom<u32> for U24 {
    type Error = &'static str;

    ghost try_from_gives = { λ n r. MatchResult r (λ small. (small ≡ n) × (n < 2 ^ 24)) (λ text. (2 ^ 24 ≤ n) × (text.now ≡ too_large_text)) };

    #[inline(always)]
    fn try_from(value: u32) -> Result<Self, Self::Error> {
        if value <= Self::MAX {
            Ok(Self { value })
        } else {
            Err("value must be smaller than 2^24")
        }
    }
}

/// A number of 24 bits and one of 8 in one word, `a * 256 + b`. Both are 0 by default.
#[derive(Clone, Copy, Debug, Default, PartialEq, Eq, Hash)]
pub struct U24nU8 {
    word: u32,
}

impl U24nU8 {
    /// The number of 24 bits.
    #[inline(always)]
    pub fn a(self) -> U24
        ensures { result ≡ upper self }
    {
        U24 {
            value: self.word / 256,
        }
    }

    /// The number of 8 bits.
    #[inline(always)]
    pub fn b(self) -> u8
        ensures { result ≡ lower self }
    {
        (self.word % 256) as u8
    }

    /// Both numbers in one word.
    #[inline(always)]
    pub fn word(self) -> u32
        ensures { result ≡ word_of self }
    {
        self.word
    }

    /// Sets the number of 24 bits, and keeps the other.
    #[inline(always)]
    pub fn set_a(&mut self, a: U24)
        ensures set { upper self.new ≡ a }
        ensures kept { lower self.new ≡ lower self.old }
    {
        self.word = a.get() * 256 + self.word % 256;
    }

    /// Sets the number of 8 bits, and keeps the other.
    #[inline(always)]
    pub fn set_b(&mut self, b: u8)
        ensures set { lower self.new ≡ b }
        ensures kept { upper self.new ≡ upper self.old }
    {
        self.word = self.word / 256 * 256 + u32::from(b);
    }
}

const _: () = prove!(size_of::<U24nU8>() == 4);

/// The word, as a `u32`.
impl Serializable for U24nU8 {
    ghost is_value = { λ p. word_of p < 2 ^ 32 };

    ghost form = { packed_form };

    ghost taken = { take_packed };

    ghost form_len = { 4 };

    #[inline(always)]
    fn serialize_to_vec<A: Allocator>(&self, dst: &mut Vec<u8, A>) -> Result<()> {
        self.word.serialize_to_vec(dst)
    }

    #[inline(always)]
    fn deserialize_from_slice(src: &[u8]) -> Result<(Self, &[u8])>
        ensures given { Gives result (take_packed src.now) }
        ensures err { IfErr result (λ e. e ≡ InvalidAutomaton (record {})) }
    {
        let (word, rest) = u32::deserialize_from_slice(src)?;
        Ok((Self { word }, rest))
    }

    #[tactic(auto, unfolding(crate::specs::Forms::number_form))]
    fn serialized_bytes() -> usize
        ensures is { result ≡ 4 }
        ensures exact { (n : ℕ) → length (number_form w32 n) ≡ result }
    {
        4
    }

    fn in_range(&self) {
        let _word = self.word;
    }

    ghost law = { packed_law };
}
