//! A value type of one's own, with its written form and the law of it.

ghost use Rattle.std.specs.Prelude.{◌≡◌, MatchResult, true, false};
ghost use Rattle.daachorse_core.specs.declared.errors.DaachorseError.TheVariants.{InvalidConversion};
ghost use Rattle.daachorse_uses.specs.Ratings.{IsRating, byte_of, is_level, level_of, rating_form, rating_law, take_rating};

use daachorse::errors::DaachorseError;
use daachorse::{Result, Serializable};
use std::alloc::Allocator;

/// How strong a word is.
#[derive(Clone, Copy, Debug, PartialEq, Eq)]
pub enum Level {
    Mild,
    Strong,
    Severe,
}

/// The rating of a word. It can be the value type of an automaton that is written.
#[derive(Clone, Copy, Debug, PartialEq, Eq)]
pub struct Rating {
    /// How much the word counts.
    pub weight: u16,
    /// How strong it is.
    pub level: Level,
}

impl Level {
    /// The level as a byte, from 1 to 3.
    fn byte(self) -> u8
        ensures { result ≡ byte_of self }
    {
        match self {
            Level::Mild => 1,
            Level::Strong => 2,
            Level::Severe => 3,
        }
    }

    /// The level of a byte. Fails if the byte is no level's.
    fn from_byte(byte: u8) -> Result<Self>
        ensures { MatchResult result (λ level. (is_level byte ≡ true) × (level ≡ level_of byte)) (λ e. (is_level byte ≡ false) × (e ≡ InvalidConversion (record {}))) }
    {
        match byte {
            1 => Ok(Level::Mild),
            2 => Ok(Level::Strong),
            3 => Ok(Level::Severe),
            _ => Err(DaachorseError::invalid_conversion()),
        }
    }
}

/// The weight in two bytes, then the level in one. A byte that is no level's is refused with
/// [`DaachorseError::InvalidConversion`].
impl Serializable for Rating {
    ghost is_value = { IsRating };

    ghost form = { rating_form };

    ghost taken = { take_rating };

    ghost form_len = { 3 };

    ghost own_refusal = { λ _ e. e ≡ InvalidConversion (record {}) };

    fn serialize_to_vec<A: Allocator>(&self, dst: &mut Vec<u8, A>) -> Result<()> {
        self.weight.serialize_to_vec(dst)?;
        self.level.byte().serialize_to_vec(dst)
    }

    fn deserialize_from_slice(src: &[u8]) -> Result<(Self, &[u8])> {
        let (weight, rest) = u16::deserialize_from_slice(src)?;
        let (byte, rest) = u8::deserialize_from_slice(rest)?;
        let level = Level::from_byte(byte)?;
        Ok((Self { weight, level }, rest))
    }

    fn serialized_bytes() -> usize {
        3
    }

    fn in_range(&self) {
        let _weight = self.weight;
    }

    ghost law = { rating_law };
}
