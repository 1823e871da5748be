//! Whether lists read from untrusted bytes are an automaton's, and fit its option and prefilter.
//!
//! [`are_grouped`] says whether the elements may be accessed by their codes, and
//! [`Elements::are_valid`] then whether the rest is right. All take time and memory linear in the
//! lists.

ghost use Rattle.std.specs.Prelude.{◌≡◌, ◌↔◌, ◌<◌, IsTrue, true, encode_utf8_all, length, slice_index_or, IfOk, IfErr};
ghost use Rattle.daachorse_core.specs.Refusals.{IsOutOfMemory};
ghost use Rattle.daachorse_prefilter.specs.Filters.{PassesKeys};
ghost use Rattle.daachorse_checker.specs.Folded.{HasFoldedKeys};
ghost use Rattle.daachorse_charwise_states.specs.Elements.{base_in, vacant};
ghost use Rattle.daachorse_charwise_states.specs.Grouped.{AreBases, HasBlocks, IsGrouped};
ghost use Rattle.daachorse_charwise_states.specs.Parts.{content};
ghost use Rattle.daachorse_charwise_states.specs.Valid.{IsValid};

use crate::edges::Elements;
use crate::mapper::CodeMapper;
use crate::state::State;
use crate::states::States;
use daachorse_checker::checker::is_sound;
use daachorse_checker::filters::passes_all;
use daachorse_checker::folded::is_folded;
use daachorse_core::errors::Result;
use daachorse_prefilter::prefilter::Prefilter;
use std::alloc::Allocator;
use std::num::NonZeroU32;

/// Whether `num_elements` elements are whole blocks for the codes of a mapper.
#[tactic(auto, using(crate::proofs::BlockLaws::no_block, crate::proofs::BlockLaws::whole_blocks))]
fn are_blocks<A: Allocator>(mapper: &CodeMapper<A>, num_elements: usize) -> bool
    ensures { IsTrue result ↔ HasBlocks mapper.now num_elements }
{
    let Some(block_len) = mapper.block_len() else {
        return false;
    };
    num_elements % block_len as usize == 0
}

/// The base of an element, 0 for none.
fn base_at(states: &[State], element: usize) -> u32
    requires { element < length states.now }
    ensures { result ≡ base_in (slice_index_or states.now element vacant) }
{
    states[element].base().map_or(0, NonZeroU32::get)
}

/// Whether each base is an element.
fn are_bases(states: &[State]) -> bool
    ensures { IsTrue result ↔ AreBases states.now }
{
    let mut element: usize = 0;
    while element < states.len() {
        if base_at(states, element) as usize >= states.len() {
            return false;
        }
        element += 1;
    }
    true
}

/// Whether the elements may be accessed by the codes of a mapper.
///
/// The codes are checked last: in whole blocks the alphabet is no larger than the number of
/// elements, so that the check takes no more memory than these.
pub(crate) fn are_grouped<A: Allocator + Copy>(
    alloc: A,
    states: &[State],
    mapper: &CodeMapper<A>,
) -> Result<bool>
    ensures ok { IfOk result (λ grouped. IsTrue grouped ↔ IsGrouped mapper.now states.now) }
    ensures err { IfErr result IsOutOfMemory }
{
    if states.is_empty() {
        return Ok(false);
    }
    if !are_blocks(mapper, states.len()) {
        return Ok(false);
    }
    if !are_bases(states) {
        return Ok(false);
    }
    mapper.is_coding(alloc)
}

impl<'a, V: Copy, A: Allocator + Copy> Elements<'a, V, A> {
    /// Whether the parts are an automaton's.
    pub(crate) fn are_valid(&self, alloc: A) -> Result<bool>
        requires { IsGrouped self.now.parts.coding self.now.parts.states }
        ensures ok { IfOk result (λ valid. IsTrue valid ↔ IsValid self.now.parts) }
        ensures err { IfErr result IsOutOfMemory }
    {
        let leftmost = self.kind.is_leftmost();
        let valid = is_sound(alloc, self, self.outputs, leftmost, self.num_states)?;
        Ok(valid)
    }
}

impl<V: Copy, A: Allocator + Copy> States<V, A> {
    /// Whether the states fit this option: if ASCII case is ignored, no key has an ASCII capital
    /// letter.
    ///
    /// # Errors
    /// Out of memory.
    pub fn may_fold(&self, alloc: A, folds: bool) -> Result<bool>
        ensures ok { IfOk result (λ may. IsTrue may ↔ (folds ≡ true → HasFoldedKeys (content self.now))) }
        ensures err { IfErr result IsOutOfMemory }
    {
        if !folds {
            return Ok(true);
        }
        let elements = self.elements(alloc)?;
        let folded = is_folded(alloc, &elements)?;
        Ok(folded)
    }

    /// Whether the prefilter, if there is one, passes at the beginning of the UTF-8 of each
    /// pattern.
    ///
    /// # Errors
    /// Out of memory.
    pub fn passes(&self, alloc: A, filter: &Option<Prefilter<A>>) -> Result<bool>
        ensures ok { IfOk result (λ passes. IsTrue passes ↔ PassesKeys encode_utf8_all (content self.now) filter.now) }
        ensures err { IfErr result IsOutOfMemory }
    {
        let Some(filter) = filter else {
            return Ok(true);
        };
        let elements = self.elements(alloc)?;
        let passes = passes_all(alloc, &elements, filter)?;
        Ok(passes)
    }
}
