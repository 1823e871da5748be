//! How an automaton searches, in one byte: that of its kind alone, if case matters.

ghost use Rattle.std.specs.Prelude.{◌≡◌, IfErr};
ghost use Rattle.daachorse_core.specs.declared.errors.DaachorseError.TheVariants.{InvalidAutomaton};
ghost use Rattle.daachorse_serializer.specs.Forms.{Gives};
ghost use Rattle.daachorse_serializer.specs.Laws.{mode_law};
ghost use Rattle.daachorse_serializer.specs.Modes.{byte_of_mode, mode_form, mode_of_byte, take_mode};

use crate::serializer::Serializable;
use daachorse_core::MatchKind;
use daachorse_core::errors::Result;
use std::alloc::Allocator;

/// How an automaton searches.
#[derive(Clone, Copy, Debug, PartialEq, Eq)]
pub struct SearchMode {
    /// The kind of searches.
    pub kind: MatchKind,
    /// Whether ASCII letters are found without regard to case.
    pub folds: bool,
}

/// The mode of a byte: 128, 129 and 130 are the kinds without regard to case; any other byte is a
/// kind.
impl From<u8> for SearchMode {
    ghost from_gives = { λ byte mode. mode ≡ mode_of_byte byte };

    fn from(byte: u8) -> Self {
        let folds = matches!(byte, 128..=130);
        let kind = if folds { byte - 128 } else { byte };
        Self {
            kind: MatchKind::from(kind),
            folds,
        }
    }
}

/// The byte of a mode: that of its kind, plus 128 if case is disregarded.
impl From<SearchMode> for u8 {
    ghost from_gives = { λ mode byte. byte ≡ byte_of_mode mode };

    fn from(mode: SearchMode) -> Self {
        let kind = u8::from(mode.kind);
        if mode.folds { kind + 128 } else { kind }
    }
}

/// One byte.
impl Serializable for SearchMode {
    ghost is_value = { λ _. Unit {0} };

    ghost form = { mode_form };

    ghost taken = { take_mode };

    ghost form_len = { 1 };

    #[inline(always)]
    fn serialize_to_vec<A: Allocator>(&self, dst: &mut Vec<u8, A>) -> Result<()> {
        Ok(dst.push(u8::from(*self))?)
    }

    #[inline(always)]
    fn deserialize_from_slice(src: &[u8]) -> Result<(Self, &[u8])>
        ensures given { Gives result (take_mode src.now) }
        ensures err { IfErr result (λ e. e ≡ InvalidAutomaton (record {})) }
    {
        let (byte, rest) = u8::deserialize_from_slice(src)?;
        Ok((SearchMode::from(byte), rest))
    }

    fn serialized_bytes() -> usize
        ensures { result ≡ 1 }
    {
        u8::serialized_bytes()
    }

    fn in_range(&self) {}

    ghost law = { mode_law };
}
