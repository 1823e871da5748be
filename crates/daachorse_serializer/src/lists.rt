//! Written forms of vectors and tables, and of options of these.
#![tactic(auto, using(daachorse_core::proofs::Failures::failures))]

ghost use Rattle.std.specs.Prelude.{◌≡◌, ◌+◌, ◌*◌, ◌<◌, ◌^◌, ◌++◌, List, Option, length, IfErr, IfSome, IfOk, OnOk, All, vec_len};
ghost use Rattle.std.specs.List.{flat_map};
ghost use Rattle.daachorse_core.specs.Refusals.{IsOutOfMemory};
ghost use Rattle.daachorse_serializer.specs.Forms.{Begins, GivesView, IsOfItem, IsOfList, IsOfPayload, IsReadRefusal, list_form, option_form, option_most, option_shape, take_items, take_list, take_option};
ghost use Rattle.daachorse_serializer.specs.Laws.{list_law, option_vec_law, table_law};

use crate::serializer::{Serializable, SerializableVec};
use daachorse_core::errors::{DaachorseError, Result};
use std::alloc::{Allocator, Global};

/// Writes the items, one after the other.
fn write_items<S: Serializable, A: Allocator>(items: &[S], dst: &mut Vec<u8, A>) -> Result<()>
    ensures written { OnOk result (dst.new.items ≡ dst.old.items ++ flat_map S.form items.now) }
    ensures kept { Begins dst.old.items dst.new.items }
    ensures err { IfErr result IsOutOfMemory }
{
    for item in items {
        item.serialize_to_vec(dst)?;
    }
    Ok(())
}

/// Reads `count` items. At first room is made only for as many as the bytes can hold, so that a
/// count alone takes no memory.
fn read_items<'a, S: Serializable, A: Allocator>(
    alloc: A,
    src: &'a [u8],
    count: usize,
) -> Result<(Vec<S, A>, &'a [u8])>
    ensures given { GivesView (λ v. v.items) result (take_items S.taken count src.now) }
    ensures full { IfOk result (λ r. vec_len r.0 ≡ count) }
    ensures err { IfErr result (IsReadRefusal (IsOfItem S.taken S.own_refusal count src.now)) }
{
    let fitting = src.len() / S::serialized_bytes().max(1);
    let mut items = Vec::with_capacity(alloc, count.min(fitting))?;
    let mut rest = src;
    for i in 0..count {
        let (item, after) = S::deserialize_from_slice(rest)?;
        items.push(item)?;
        rest = after;
    }
    Ok((items, rest))
}

/// Does nothing. Its contract says that each item in hand is of the type.
fn items_in_range<S: Serializable>(items: &[S])
    ensures { All S.is_value items.now }
{
    for item in items {
        item.in_range();
    }
}

/// A count as a `u32`, then the items. A list of more than 4,294,967,295 items may not be written.
impl<S: Serializable, A: Allocator> SerializableVec for Vec<S, A> {
    type Alloc = A;

    ghost Shape = { List S };

    ghost shape = { λ v. v.items };

    ghost is_value = { λ xs. All S.is_value xs };

    ghost can_write = { λ xs. length xs < 2 ^ 32 };

    ghost form = { list_form S.form };

    ghost taken = { take_list S.taken };

    ghost form_len = { λ xs. S.form_len * length xs + 4 };

    ghost own_refusal = { IsOfList S.taken S.own_refusal };

    fn serialize_to_vec<B: Allocator>(&self, dst: &mut Vec<u8, B>) -> Result<()> {
        (self.len() as u32).serialize_to_vec(dst)?;
        write_items(self, dst)
    }

    #[tactic(auto, unfolding(crate::specs::Forms::take_list))]
    fn deserialize_from_slice<'a>(alloc: A, src: &'a [u8]) -> Result<(Self, &'a [u8])> {
        let (count, rest) = u32::deserialize_from_slice(src)?;
        read_items(alloc, rest, count as usize)
    }

    #[tactic(auto, using(crate::proofs::Sizes::items_saturate))]
    fn serialized_bytes(&self) -> usize {
        S::serialized_bytes()
            .saturating_mul(self.len())
            .saturating_add(4)
    }

    fn in_range(&self) {
        items_in_range(self);
    }

    ghost law = { list_law S.law };
}

/// A list whose length is part of its type, so that it is written without a count.
#[derive(Drop)]
#[derive_where(Debug, PartialEq, Eq, Hash; S)]
pub struct Table<S, const N: usize, A: Allocator = Global> {
    /// The items.
    pub items: Vec<S, A>,
    pub ghost full: { vec_len items ≡ N },
}

/// The items.
impl<S: Serializable, const N: usize, A: Allocator> SerializableVec for Table<S, N, A> {
    type Alloc = A;

    ghost Shape = { List S };

    ghost shape = { λ t. t.items.items };

    ghost is_value = { λ xs. (length xs ≡ N) × All S.is_value xs };

    ghost can_write = { λ _. Unit {0} };

    ghost form = { flat_map S.form };

    ghost taken = { take_items S.taken N };

    ghost form_len = { λ _. S.form_len * N };

    ghost own_refusal = { IsOfItem S.taken S.own_refusal N };

    fn serialize_to_vec<B: Allocator>(&self, dst: &mut Vec<u8, B>) -> Result<()> {
        write_items(&self.items, dst)
    }

    fn deserialize_from_slice<'a>(alloc: A, src: &'a [u8]) -> Result<(Self, &'a [u8])> {
        let (items, rest) = read_items(alloc, src, N)?;
        Ok((Table { items }, rest))
    }

    #[tactic(auto, using(crate::proofs::Sizes::product_saturates))]
    fn serialized_bytes(&self) -> usize {
        S::serialized_bytes().saturating_mul(N)
    }

    fn in_range(&self) {
        items_in_range(&self.items);
    }

    ghost law = { table_law S.law N };
}

/// A byte 0, or a byte 1 and the value.
impl<S: SerializableVec + Drop> SerializableVec for Option<S> {
    type Alloc = S::Alloc;

    ghost Shape = { Option S.Shape };

    ghost shape = { option_shape S.shape };

    ghost is_value = { λ v. IfSome v S.is_value };

    ghost can_write = { λ v. IfSome v S.can_write };

    ghost form = { option_form S.form };

    ghost taken = { take_option S.taken };

    ghost form_len = { option_most S.form_len };

    ghost own_refusal = { IsOfPayload S.own_refusal };

    fn serialize_to_vec<B: Allocator>(&self, dst: &mut Vec<u8, B>) -> Result<()> {
        match self {
            None => Ok(dst.push(0)?),
            Some(value) => {
                dst.push(1)?;
                value.serialize_to_vec(dst)
            }
        }
    }

    fn deserialize_from_slice<'a>(alloc: S::Alloc, src: &'a [u8]) -> Result<(Self, &'a [u8])> {
        match src {
            [0, rest @ ..] => Ok((None, rest)),
            [1, rest @ ..] => {
                let (value, rest) = S::deserialize_from_slice(alloc, rest)?;
                Ok((Some(value), rest))
            }
            _ => Err(DaachorseError::invalid_automaton()),
        }
    }

    fn serialized_bytes(&self) -> usize {
        match self {
            None => 1,
            Some(value) => value.serialized_bytes().saturating_add(1),
        }
    }

    fn in_range(&self) {
        if let Some(value) = self {
            value.in_range();
        }
    }

    ghost law = { option_vec_law S.law };
}
