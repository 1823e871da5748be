//! The written form of a prefilter.

ghost use Rattle.std.specs.Prelude.{◌≡◌, ◌≤◌, IfErr, length};
ghost use Rattle.daachorse_core.specs.Refusals.{IsOutOfMemory};
ghost use Rattle.daachorse_prefilter.specs.FilterForms.{filter_form, filter_law, take_filter};
ghost use Rattle.daachorse_prefilter.specs.Filters.{Filter, IsFilter};
ghost use Rattle.daachorse_serializer.specs.Forms.{GivesView, IsReadRefusal};

use super::pair_table::{NUM_PAIRS, PairTable};
use super::{MAX_WINDOW_LEN, MIN_WINDOW_LEN, Prefilter};
use daachorse_core::errors::{DaachorseError, Result};
use daachorse_serializer::serializer::SerializableVec;
use std::alloc::Allocator;

/// The length of the window as one byte, then the entries without a count, that of bytes a and b at
/// 256 a + b.
impl<A: Allocator> SerializableVec for Prefilter<A> {
    type Alloc = A;

    ghost Shape = { Filter };

    ghost shape = { λ f. f };

    ghost is_value = { IsFilter };

    ghost can_write = { λ _. Unit {0} };

    ghost form = { filter_form };

    ghost taken = { take_filter };

    ghost form_len = { λ _. 65537 };

    fn serialize_to_vec<B: Allocator>(&self, dst: &mut Vec<u8, B>) -> Result<()> {
        dst.push(self.window_len)?;
        self.table.push_to(dst)?;
        Ok(())
    }

    #[tactic(auto, unfolding(crate::specs::FilterForms::take_filter))]
    fn deserialize_from_slice<'a>(alloc: A, src: &'a [u8]) -> Result<(Self, &'a [u8])>
        ensures given { GivesView (λ f. f) result (take_filter src.now) }
        ensures err { IfErr result (IsReadRefusal (λ _. ⊥)) }
        ensures room { IfErr result (λ e. IsOutOfMemory e → 65537 ≤ length src.now) }
    {
        let [window_len, bytes @ ..] = src else {
            return Err(DaachorseError::invalid_automaton());
        };
        let window_len = *window_len;
        if window_len < MIN_WINDOW_LEN || window_len > MAX_WINDOW_LEN {
            return Err(DaachorseError::invalid_automaton());
        }
        let Some((entries, rest)) = bytes.split_at_checked(NUM_PAIRS) else {
            return Err(DaachorseError::invalid_automaton());
        };
        let table = PairTable::from_entries(alloc, entries)?;
        Ok((Self { window_len, table }, rest))
    }

    fn serialized_bytes(&self) -> usize
        ensures is { result ≡ 65537 }
        ensures exact { length (filter_form self.now) ≡ result }
    {
        // A table that is read is known to have an entry for each pair.
        let _ = &self.table;
        1 + NUM_PAIRS
    }

    fn in_range(&self) {
        let _window_len = self.window_len;
    }

    ghost law = { filter_law };
}
