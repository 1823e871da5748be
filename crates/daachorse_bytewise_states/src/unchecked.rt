//! Whether lists read from untrusted bytes are an automaton's, and fit its option and prefilter.
//!
//! [`are_lists`] says whether the elements may be accessed, and [`Elements::are_valid`] then
//! whether the rest is right. All take time and memory linear in the lists.

ghost use Rattle.std.specs.Prelude.{◌≡◌, ◌↔◌, ◌<◌, IsTrue, true, false, length, slice_index_or, IfOk, IfErr};
ghost use Rattle.daachorse_core.specs.Refusals.{IsOutOfMemory};
ghost use Rattle.daachorse_model.specs.Kinds.{is_leftmost};
ghost use Rattle.daachorse_prefilter.specs.Filters.{PassesKeys};
ghost use Rattle.daachorse_checker.specs.Folded.{HasFoldedKeys};
ghost use Rattle.daachorse_bytewise_states.specs.declared.state.State.{State};
ghost use Rattle.daachorse_bytewise_states.specs.Elements.{base_in};
ghost use Rattle.daachorse_bytewise_states.specs.Grouped.{AreBlocks, AreLists};
ghost use Rattle.daachorse_bytewise_states.specs.Parts.{content};
ghost use Rattle.daachorse_bytewise_states.specs.Valid.{IsValid};

use crate::edges::Elements;
use crate::for_kinds::ForKinds;
use crate::state::State;
use crate::states::States;
use daachorse_checker::checker::is_sound;
use daachorse_checker::filters::passes_all;
use daachorse_checker::folded::is_folded;
use daachorse_core::errors::Result;
use daachorse_core::{Empty, MatchKind};
use daachorse_prefilter::prefilter::Prefilter;
use std::alloc::Allocator;
use std::num::NonZeroU32;

/// The base of an element, 0 for none.
fn base_at<F: Copy>(states: &[State<F>], element: usize) -> u32
    requires { element < length states.now }
    ensures { (default : State F) → result ≡ base_in (slice_index_or states.now element default) }
{
    states[element].base().map_or(0, NonZeroU32::get)
}

/// Whether the elements make whole blocks, at least one, and each base is an element.
fn are_blocks<F: Copy>(states: &[State<F>]) -> bool
    ensures { (default : State F) → IsTrue result ↔ AreBlocks default states.now }
{
    if states.is_empty() {
        return false;
    }
    if states.len() % 256 != 0 {
        return false;
    }
    let mut element: usize = 0;
    while element < states.len() {
        if base_at(states, element) as usize >= states.len() {
            return false;
        }
        element += 1;
    }
    true
}

/// Whether these can be the lists of leftmost searches.
fn are_leftmost(standard: &[State<u32>], leftmost: &[State<Empty>], fails: &[u32]) -> bool
    ensures { IsTrue result ↔ AreLists true standard.now leftmost.now fails.now }
{
    if !standard.is_empty() {
        return false;
    }
    if fails.len() != leftmost.len() {
        return false;
    }
    are_blocks(leftmost)
}

/// Whether these can be the lists of standard searches.
fn are_standard(standard: &[State<u32>], leftmost: &[State<Empty>], fails: &[u32]) -> bool
    ensures { IsTrue result ↔ AreLists false standard.now leftmost.now fails.now }
{
    if !leftmost.is_empty() {
        return false;
    }
    if !fails.is_empty() {
        return false;
    }
    are_blocks(standard)
}

/// Whether the elements of these lists may be accessed: from each base each byte leads to one of
/// them.
pub(crate) fn are_lists(
    kind: MatchKind,
    standard: &[State<u32>],
    leftmost: &[State<Empty>],
    fails: &[u32],
) -> bool
    ensures { IsTrue result ↔ AreLists (is_leftmost kind) standard.now leftmost.now fails.now }
{
    if kind.is_leftmost() {
        are_leftmost(standard, leftmost, fails)
    } else {
        are_standard(standard, leftmost, fails)
    }
}

impl<'a, V: Copy, K: ForKinds> Elements<'a, V, K> {
    /// Whether the parts are an automaton's.
    pub(crate) fn are_valid<A: Allocator + Copy>(&self, alloc: A) -> Result<bool>
        ensures ok { IfOk result (λ valid. IsTrue valid ↔ IsValid self.now) }
        ensures err { IfErr result IsOutOfMemory }
    {
        let leftmost = self.kind.is_leftmost();
        let valid = is_sound(alloc, self, self.outputs, leftmost, self.num_states)?;
        Ok(valid)
    }
}

impl<V: Copy, A: Allocator + Copy> States<V, A> {
    /// Whether the states fit this option: if ASCII case is ignored, no key has an ASCII capital
    /// letter.
    ///
    /// # Errors
    /// Out of memory.
    pub fn may_fold(&self, alloc: A, folds: bool) -> Result<bool>
        ensures ok { IfOk result (λ may. IsTrue may ↔ (folds ≡ true → HasFoldedKeys (content self.now))) }
        ensures err { IfErr result IsOutOfMemory }
    {
        if !folds {
            return Ok(true);
        }
        let elements = self.elements();
        let folded = is_folded(alloc, &elements)?;
        Ok(folded)
    }

    /// Whether the prefilter, if there is one, passes at the beginning of each pattern.
    ///
    /// # Errors
    /// Out of memory.
    pub fn passes(&self, alloc: A, filter: &Option<Prefilter<A>>) -> Result<bool>
        ensures ok { IfOk result (λ passes. IsTrue passes ↔ PassesKeys (λ w. w) (content self.now) filter.now) }
        ensures err { IfErr result IsOutOfMemory }
    {
        let Some(filter) = filter else {
            return Ok(true);
        };
        let elements = self.elements();
        let passes = passes_all(alloc, &elements, filter)?;
        Ok(passes)
    }
}
