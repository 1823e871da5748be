//! Written forms of `bool`, `char`, `usize`, kinds and outputs, and of pairs, triples and options.
#![tactic(auto, using(daachorse_core::proofs::Failures::failures))]

ghost use Rattle.std.specs.Prelude.{◌≡◌, ◌<◌, ◌^◌, ◌+◌, [], Some, IfErr, IfSome, refl};
ghost use Rattle.std.specs.Char.{IsScalar};
ghost use Rattle.std.specs.Int.{w64};
ghost use Rattle.daachorse_core.specs.declared.errors.DaachorseError.TheVariants.{InvalidAutomaton};
ghost use Rattle.daachorse_serializer.specs.Forms.{Gives, IsOfPayload, IsOfValue, number_form, option_form, pair_form, take_number, take_option, take_pair};
ghost use Rattle.daachorse_serializer.specs.Kinds.{kind_form, take_kind};
ghost use Rattle.daachorse_serializer.specs.Laws.{bool_law, char_law, empty_law, kind_law, number_law, option_law, output_law, pair_law, triple_law};
ghost use Rattle.daachorse_serializer.specs.Outputs.{IsOutput, output_form, take_output};
ghost use Rattle.daachorse_serializer.specs.Values.{IsOfPair, bool_form, char_form, take_bool, take_char, take_triple, triple_form};

use crate::serializer::{Serializable, append};
use crate::words::two_words;
use daachorse_core::errors::{DaachorseError, Result};
use daachorse_core::{Empty, MatchKind, Output};
use std::alloc::Allocator;
use std::num::NonZeroU32;

/// A byte: 0 is `false` and 1 `true`. Every other byte is refused.
impl Serializable for bool {
    ghost is_value = { λ _. Unit {0} };

    ghost form = { bool_form };

    ghost taken = { take_bool };

    ghost form_len = { 1 };

    fn serialize_to_vec<A: Allocator>(&self, dst: &mut Vec<u8, A>) -> Result<()> {
        Ok(dst.push(u8::from(*self))?)
    }

    fn deserialize_from_slice(src: &[u8]) -> Result<(Self, &[u8])> {
        match src {
            [0, rest @ ..] => Ok((false, rest)),
            [1, rest @ ..] => Ok((true, rest)),
            _ => Err(DaachorseError::invalid_automaton()),
        }
    }

    fn serialized_bytes() -> usize {
        1
    }

    fn in_range(&self) {}

    ghost law = { bool_law };
}

/// The scalar value as a `u32`. A number that is no scalar value is refused.
impl Serializable for char {
    ghost is_value = { IsScalar };

    ghost form = { char_form };

    ghost taken = { take_char };

    ghost form_len = { 4 };

    fn serialize_to_vec<A: Allocator>(&self, dst: &mut Vec<u8, A>) -> Result<()> {
        u32::from(*self).serialize_to_vec(dst)
    }

    fn deserialize_from_slice(src: &[u8]) -> Result<(Self, &[u8])> {
        let (number, rest) = u32::deserialize_from_slice(src)?;
        match char::from_u32(number) {
            Some(character) => Ok((character, rest)),
            None => Err(DaachorseError::invalid_automaton()),
        }
    }

    fn serialized_bytes() -> usize {
        4
    }

    fn in_range(&self) {
        let _number = u32::from(*self);
    }

    ghost law = { char_law };
}

/// The number as a `u64`.
impl Serializable for usize {
    ghost is_value = { λ n. n < 2 ^ 64 };

    ghost form = { number_form w64 };

    ghost taken = { take_number w64 };

    ghost form_len = { 8 };

    fn serialize_to_vec<A: Allocator>(&self, dst: &mut Vec<u8, A>) -> Result<()> {
        (*self as u64).serialize_to_vec(dst)
    }

    fn deserialize_from_slice(src: &[u8]) -> Result<(Self, &[u8])> {
        let (number, rest) = u64::deserialize_from_slice(src)?;
        Ok((number as usize, rest))
    }

    fn serialized_bytes() -> usize {
        8
    }

    fn in_range(&self) {
        let _number = *self;
    }

    ghost law = { number_law w64 };
}

/// The first value, then the second.
impl<S: Serializable, T: Serializable> Serializable for (S, T) {
    ghost is_value = { λ p. S.is_value p.0 × T.is_value p.1 };

    ghost form = { pair_form S.form T.form };

    ghost taken = { take_pair S.taken T.taken };

    ghost form_len = { S.form_len + T.form_len };

    ghost own_refusal = { IsOfPair S.taken S.own_refusal T.taken T.own_refusal };

    fn serialize_to_vec<A: Allocator>(&self, dst: &mut Vec<u8, A>) -> Result<()> {
        self.0.serialize_to_vec(dst)?;
        self.1.serialize_to_vec(dst)
    }

    fn deserialize_from_slice(src: &[u8]) -> Result<(Self, &[u8])> {
        let (first, rest) = S::deserialize_from_slice(src)?;
        let (second, rest) = T::deserialize_from_slice(rest)?;
        Ok(((first, second), rest))
    }

    fn serialized_bytes() -> usize {
        S::serialized_bytes().saturating_add(T::serialized_bytes())
    }

    fn in_range(&self) {
        self.0.in_range();
        self.1.in_range();
    }

    ghost law = { pair_law S.law T.law };
}

/// The first value, then the second and the third.
impl<S: Serializable, T: Serializable, U: Serializable> Serializable for (S, T, U) {
    ghost is_value = { λ p. S.is_value p.0 × T.is_value p.1 × U.is_value p.2 };

    ghost form = { triple_form S.form T.form U.form };

    ghost taken = { take_triple S.taken T.taken U.taken };

    ghost form_len = { S.form_len + (T.form_len + U.form_len) };

    ghost own_refusal = { IsOfPair S.taken S.own_refusal (take_pair T.taken U.taken) (IsOfPair T.taken T.own_refusal U.taken U.own_refusal) };

    fn serialize_to_vec<A: Allocator>(&self, dst: &mut Vec<u8, A>) -> Result<()> {
        self.0.serialize_to_vec(dst)?;
        self.1.serialize_to_vec(dst)?;
        self.2.serialize_to_vec(dst)
    }

    fn deserialize_from_slice(src: &[u8]) -> Result<(Self, &[u8])> {
        let (first, rest) = S::deserialize_from_slice(src)?;
        let ((second, third), rest) = <(T, U)>::deserialize_from_slice(rest)?;
        Ok(((first, second, third), rest))
    }

    fn serialized_bytes() -> usize {
        S::serialized_bytes().saturating_add(<(T, U)>::serialized_bytes())
    }

    fn in_range(&self) {
        self.0.in_range();
        self.1.in_range();
        self.2.in_range();
    }

    ghost law = { triple_law S.law T.law U.law };
}

impl Serializable for Empty {
    ghost is_value = { λ _. Unit {0} };

    ghost form = { λ _. [] };

    ghost taken = { λ bytes. Some (record {}, bytes) };

    ghost form_len = { 0 };

    #[inline(always)]
    fn serialize_to_vec<A: Allocator>(&self, _dst: &mut Vec<u8, A>) -> Result<()> {
        Ok(())
    }

    #[inline(always)]
    fn deserialize_from_slice(src: &[u8]) -> Result<(Self, &[u8])>
        ensures { result ≡ Ok (record {}, src.entry) }
    {
        Ok((Empty, src))
    }

    fn serialized_bytes() -> usize
        ensures { result ≡ 0 }
    {
        0
    }

    fn in_range(&self) {}

    ghost law = { empty_law (record {}) (λ y. refl) };
}

impl Serializable for MatchKind {
    ghost is_value = { λ _. Unit {0} };

    ghost form = { kind_form };

    ghost taken = { take_kind };

    ghost form_len = { 1 };

    #[inline(always)]
    fn serialize_to_vec<A: Allocator>(&self, dst: &mut Vec<u8, A>) -> Result<()> {
        Ok(dst.push(u8::from(*self))?)
    }

    #[inline(always)]
    fn deserialize_from_slice(src: &[u8]) -> Result<(Self, &[u8])>
        ensures given { Gives result (take_kind src.now) }
        ensures err { IfErr result (λ e. e ≡ InvalidAutomaton (record {})) }
    {
        let (byte, rest) = u8::deserialize_from_slice(src)?;
        Ok((MatchKind::from(byte), rest))
    }

    fn serialized_bytes() -> usize
        ensures { result ≡ 1 }
    {
        u8::serialized_bytes()
    }

    fn in_range(&self) {}

    ghost law = { kind_law };
}

/// The value, the length, and the parent.
impl<V: Serializable + Copy> Serializable for Output<V> {
    ghost is_value = { IsOutput V.is_value };

    ghost form = { output_form V.form };

    ghost taken = { take_output V.taken };

    ghost form_len = { V.form_len + 8 };

    ghost own_refusal = { IsOfValue V.taken V.own_refusal };

    fn serialize_to_vec<A: Allocator>(&self, dst: &mut Vec<u8, A>) -> Result<()> {
        self.value().serialize_to_vec(dst)?;
        let parent = self.parent().map_or(0, NonZeroU32::get);
        append(dst, &two_words(self.length(), parent))
    }

    fn deserialize_from_slice(src: &[u8]) -> Result<(Self, &[u8])> {
        let (value, rest) = V::deserialize_from_slice(src)?;
        let (length, rest) = u32::deserialize_from_slice(rest)?;
        let (parent, rest) = u32::deserialize_from_slice(rest)?;
        Ok((Output::new(value, length, NonZeroU32::new(parent)), rest))
    }

    fn serialized_bytes() -> usize {
        V::serialized_bytes().saturating_add(8)
    }

    fn in_range(&self) {
        self.value().in_range();
        let _length = self.length();
        let _parent = self.parent();
    }

    ghost law = { output_law V.law };
}

/// A byte 0, or a byte 1 and the value.
impl<S: Serializable> Serializable for Option<S> {
    ghost is_value = { λ v. IfSome v S.is_value };

    ghost form = { option_form S.form };

    ghost taken = { take_option S.taken };

    ghost form_len = { S.form_len + 1 };

    ghost own_refusal = { IsOfPayload S.own_refusal };

    fn serialize_to_vec<A: Allocator>(&self, dst: &mut Vec<u8, A>) -> Result<()> {
        match self {
            None => Ok(dst.push(0)?),
            Some(value) => {
                dst.push(1)?;
                value.serialize_to_vec(dst)
            }
        }
    }

    fn deserialize_from_slice(src: &[u8]) -> Result<(Self, &[u8])> {
        match src {
            [0, rest @ ..] => Ok((None, rest)),
            [1, rest @ ..] => {
                let (value, rest) = S::deserialize_from_slice(rest)?;
                Ok((Some(value), rest))
            }
            _ => Err(DaachorseError::invalid_automaton()),
        }
    }

    fn serialized_bytes() -> usize {
        S::serialized_bytes().saturating_add(1)
    }

    fn in_range(&self) {
        if let Some(value) = self {
            value.in_range();
        }
    }

    ghost law = { option_law S.law };
}
