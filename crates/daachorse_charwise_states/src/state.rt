//! One element of the double array, and its written form.

ghost use Rattle.std.specs.Prelude.{◌≡◌, ◌+◌, ℕ, IfErr, length, slice_index_or};
ghost use Rattle.daachorse_core.specs.Outputs.{number};
ghost use Rattle.daachorse_core.specs.declared.errors.DaachorseError.TheVariants.{InvalidAutomaton};
ghost use Rattle.daachorse_serializer.specs.Forms.{Gives};
ghost use Rattle.daachorse_charwise_states.specs.Elements.{base_in, check_in, fail_in, output_in, vacant};
ghost use Rattle.daachorse_charwise_states.specs.Children.{TellsChild};
ghost use Rattle.daachorse_charwise_states.specs.Parts.{child_by};
ghost use Rattle.daachorse_charwise_states.specs.Written.{IsElement, element_form, take_element, element_law};

use daachorse_core::DEAD_STATE_IDX;
use daachorse_core::errors::Result;
use daachorse_serializer::serializer::{Serializable, append};
use daachorse_serializer::words::four_words;
use std::alloc::Allocator;
use std::num::NonZeroU32;

/// An element of a double array over characters, in 16 bytes.
///
/// A new element is vacant: it has no base and no output, and its check and its link are the dead
/// state, 1. The layout is that of Kanda, Akabe and Oda (arXiv 2207.13870).
#[derive(Clone, Copy, Debug, PartialEq, Eq, Hash)]
pub struct State {
    // 0 stands for none: an `Option<NonZeroU32>` would take twice the bytes.
    base: u32,
    check: u32,
    fail: u32,
    // 0 stands for none.
    output_pos: u32,
}

impl Default for State {
    fn default() -> Self
        ensures { result ≡ vacant }
    {
        Self {
            base: 0,
            check: DEAD_STATE_IDX,
            fail: DEAD_STATE_IDX,
            output_pos: 0,
        }
    }
}

impl State {
    /// An element with these parts. A base of 0 stands for none.
    #[inline(always)]
    pub(crate) fn new(base: u32, check: u32, fail: u32, output_pos: Option<NonZeroU32>) -> Self
        ensures base { base_in result ≡ base }
        ensures check { check_in result ≡ check }
        ensures fail { fail_in result ≡ fail }
        ensures output { output_in result ≡ number output_pos }
    {
        Self {
            base,
            check,
            fail,
            output_pos: output_pos.map_or(0, NonZeroU32::get),
        }
    }

    /// The base. Its exclusive or with a character's code is the element of that character's child.
    #[inline(always)]
    pub fn base(&self) -> Option<NonZeroU32>
        ensures { number result ≡ base_in self.now }
    {
        NonZeroU32::new(self.base)
    }

    /// The index of this element's parent.
    #[inline(always)]
    pub fn check(&self) -> u32
        ensures { result ≡ check_in self.now }
    {
        self.check
    }

    /// The failure link.
    #[inline(always)]
    pub fn fail(&self) -> u32
        ensures { result ≡ fail_in self.now }
    {
        self.fail
    }

    /// The position of the first output.
    #[inline(always)]
    pub fn output_pos(&self) -> Option<NonZeroU32>
        ensures { number result ≡ output_in self.now }
    {
        NonZeroU32::new(self.output_pos)
    }

    /// Sets the base.
    #[inline(always)]
    pub fn set_base(&mut self, base: NonZeroU32)
        ensures base { base_in self.new ≡ base.value }
        ensures check { check_in self.new ≡ check_in self.old }
        ensures fail { fail_in self.new ≡ fail_in self.old }
        ensures output { output_in self.new ≡ output_in self.old }
    {
        self.base = base.get();
    }

    /// Sets the check.
    #[inline(always)]
    pub fn set_check(&mut self, check: u32)
        ensures check { check_in self.new ≡ check }
        ensures base { base_in self.new ≡ base_in self.old }
        ensures fail { fail_in self.new ≡ fail_in self.old }
        ensures output { output_in self.new ≡ output_in self.old }
    {
        self.check = check;
    }

    /// Sets the failure link.
    #[inline(always)]
    pub fn set_fail(&mut self, fail: u32)
        ensures fail { fail_in self.new ≡ fail }
        ensures base { base_in self.new ≡ base_in self.old }
        ensures check { check_in self.new ≡ check_in self.old }
        ensures output { output_in self.new ≡ output_in self.old }
    {
        self.fail = fail;
    }

    /// Sets the position of the first output.
    #[inline(always)]
    pub fn set_output_pos(&mut self, position: Option<NonZeroU32>)
        ensures output { output_in self.new ≡ number position }
        ensures base { base_in self.new ≡ base_in self.old }
        ensures check { check_in self.new ≡ check_in self.old }
        ensures fail { fail_in self.new ≡ fail_in self.old }
    {
        self.output_pos = position.map_or(0, NonZeroU32::get);
    }

    /// The index of the element that a code leads to from this one, which is at `index`; `None` if
    /// there is none. It reads at most one other element.
    #[inline(always)]
    pub fn child(&self, index: u32, code: u32, states: &[State]) -> Option<u32>
        ensures { result ≡ child_by (length states.now) (λ j. check_in (slice_index_or states.now j vacant)) index (base_in self.now) code }
    {
        let (child, _) = self.child_and_output(index, code, states)?;
        Some(child)
    }

    /// As [`Self::child`], with the position of that element's first output.
    #[inline(always)]
    pub fn child_and_output(
        &self,
        index: u32,
        code: u32,
        states: &[State],
    ) -> Option<(u32, Option<NonZeroU32>)>
        ensures { TellsChild states.now self.now index code result }
    {
        let child = self.base()?.get() ^ code;
        match states.get(child as usize) {
            Some(element) if element.check() == index => Some((child, element.output_pos())),
            _ => None,
        }
    }
}

/// The base, the check, the failure link and the output position, each a `u32`.
impl Serializable for State {
    ghost is_value = { IsElement };

    ghost form = { element_form };

    ghost taken = { take_element };

    ghost form_len = { 16 };

    #[inline(always)]
    fn serialize_to_vec<A: Allocator>(&self, dst: &mut Vec<u8, A>) -> Result<()> {
        append(
            dst,
            &four_words(self.base, self.check, self.fail, self.output_pos),
        )
    }

    #[inline(always)]
    fn deserialize_from_slice(src: &[u8]) -> Result<(Self, &[u8])>
        ensures given { Gives result (take_element src.now) }
        ensures err { IfErr result (λ e. e ≡ InvalidAutomaton (record {})) }
    {
        let (base, rest) = u32::deserialize_from_slice(src)?;
        let (check, rest) = u32::deserialize_from_slice(rest)?;
        let (fail, rest) = u32::deserialize_from_slice(rest)?;
        let (output_pos, rest) = u32::deserialize_from_slice(rest)?;
        let state = Self {
            base,
            check,
            fail,
            output_pos,
        };
        Ok((state, rest))
    }

    fn serialized_bytes() -> usize
        ensures { result ≡ 16 }
    {
        4 * u32::serialized_bytes()
    }

    fn in_range(&self) {
        let _base = self.base;
        let _check = self.check;
        let _fail = self.fail;
        let _output_pos = self.output_pos;
    }

    ghost law = { element_law };
}
