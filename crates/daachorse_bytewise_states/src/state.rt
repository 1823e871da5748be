//! One element of the double array, and its written form.

ghost use Rattle.std.specs.Prelude.{◌≡◌, ◌+◌, ◌<◌, ◌≤◌, ◌^◌, ◌%◌, ◌++◌, IfErr, OnOk, OnErr, length, slice_index_or};
ghost use Rattle.daachorse_core.specs.declared.errors.Limit.TheVariants.{OutputPos};
ghost use Rattle.std.specs.Int.{w32};
ghost use Rattle.daachorse_core.specs.Outputs.{number};
ghost use Rattle.daachorse_core.specs.Refusals.{IsOutOfMemory};
ghost use Rattle.daachorse_serializer.specs.Forms.{Begins, IsAfter, number_form, take_number};
ghost use Rattle.daachorse_serializer.specs.Packed.{packed_form};
ghost use Rattle.daachorse_bytewise_states.specs.Elements.{base_in, check_in, fail_in, output_in, word_in};
ghost use Rattle.daachorse_bytewise_states.specs.Children.{TellsChild};
ghost use Rattle.daachorse_bytewise_states.specs.Parts.{child_by, without_link};
ghost use Rattle.daachorse_bytewise_states.specs.StateForms.{IsStateValue, state_form, state_law, take_state};

use daachorse_core::Empty;
use daachorse_core::errors::{DaachorseError, Limit, Result};
use daachorse_serializer::intpack::{U24, U24nU8};
use daachorse_serializer::serializer::{Serializable, append};
use daachorse_serializer::words::{three_words, two_words};
use std::alloc::Allocator;
use std::num::NonZeroU32;

/// An element of a double array over bytes, in 12 bytes with a link and in 8 without. `F` is the
/// type of its failure link: a `u32`, or `Empty` if the links stand beside the elements.
///
/// A new element is vacant: it has no base, no output, check 0 and link 0. The layout is that of
/// Kanda, Akabe and Oda (arXiv 2207.13870).
#[derive(Clone, Copy, Debug, Default, PartialEq, Eq, Hash)]
pub struct State<F> {
    // 0 stands for none: an `Option<NonZeroU32>` would take twice the bytes.
    base: u32,
    fail: F,
    // The output position, 0 for none, and the check.
    packed: U24nU8,
}

impl<F: Copy> State<F> {
    /// An element with these parts. A base of 0 stands for none.
    ///
    /// # Conditions
    /// The position is at most 16,777,215.
    #[inline(always)]
    pub(crate) fn new(base: u32, check: u8, fail: F, output_pos: Option<NonZeroU32>) -> Self
        requires { number output_pos < 2 ^ 24 }
        ensures base { base_in result ≡ base }
        ensures check { check_in result ≡ check }
        ensures fail { fail_in result ≡ fail }
        ensures output { output_in result ≡ number output_pos }
    {
        let position = output_pos.map_or(0, NonZeroU32::get);
        let mut packed = U24nU8::default();
        packed.set_a(U24::try_from(position).unwrap());
        packed.set_b(check);
        Self { base, fail, packed }
    }

    /// The base. Its exclusive or with a byte is the element of that byte's child.
    #[inline(always)]
    pub fn base(&self) -> Option<NonZeroU32>
        ensures { number result ≡ base_in self.now }
    {
        NonZeroU32::new(self.base)
    }

    /// The byte that leads to this element from its parent.
    #[inline(always)]
    pub fn check(&self) -> u8
        ensures { result ≡ check_in self.now }
    {
        self.packed.b()
    }

    /// The failure link.
    #[inline(always)]
    pub fn fail(&self) -> F
        ensures { result ≡ fail_in self.now }
    {
        self.fail
    }

    /// The position of the first output.
    #[inline(always)]
    pub fn output_pos(&self) -> Option<NonZeroU32>
        ensures { number result ≡ output_in self.now }
    {
        NonZeroU32::new(self.packed.a().get())
    }

    /// The word of the output position and the check: 256 times the position, plus the check.
    #[inline(always)]
    pub fn word(&self) -> u32
        ensures { result ≡ word_in self.now }
    {
        self.packed.word()
    }

    /// Sets the base.
    #[inline(always)]
    pub fn set_base(&mut self, base: NonZeroU32)
        ensures base { base_in self.new ≡ base.value }
        ensures check { check_in self.new ≡ check_in self.old }
        ensures fail { fail_in self.new ≡ fail_in self.old }
        ensures output { output_in self.new ≡ output_in self.old }
    {
        self.base = base.get();
    }

    /// Sets the check.
    #[inline(always)]
    pub fn set_check(&mut self, check: u8)
        ensures check { check_in self.new ≡ check }
        ensures base { base_in self.new ≡ base_in self.old }
        ensures fail { fail_in self.new ≡ fail_in self.old }
        ensures output { output_in self.new ≡ output_in self.old }
    {
        self.packed.set_b(check);
    }

    /// Sets the failure link.
    #[inline(always)]
    pub fn set_fail(&mut self, fail: F)
        ensures fail { fail_in self.new ≡ fail }
        ensures base { base_in self.new ≡ base_in self.old }
        ensures check { check_in self.new ≡ check_in self.old }
        ensures output { output_in self.new ≡ output_in self.old }
    {
        self.fail = fail;
    }

    /// Sets the position of the first output.
    ///
    /// # Errors
    /// [`Limit::OutputPos`] if the position is past 16,777,215; the element then stays as it is.
    #[inline(always)]
    pub fn set_output_pos(&mut self, position: Option<NonZeroU32>) -> Result<()>
        ensures output { OnOk result (output_in self.new ≡ number position) }
        ensures base { base_in self.new ≡ base_in self.old }
        ensures check { check_in self.new ≡ check_in self.old }
        ensures fail { fail_in self.new ≡ fail_in self.old }
        ensures same { OnErr result (self.new ≡ self.old) }
        ensures err { IfErr result (λ e. (e ≡ DaachorseError.AutomatonScale (record { limit = OutputPos })) × (2 ^ 24 ≤ number position)) }
    {
        let Ok(position) = U24::try_from(position.map_or(0, NonZeroU32::get)) else {
            return Err(DaachorseError::automaton_scale(Limit::OutputPos));
        };
        self.packed.set_a(position);
        Ok(())
    }

    /// The index of the element that a byte leads to, if there is one. It reads at most one other
    /// element.
    #[inline(always)]
    pub fn child(&self, label: u8, states: &[State<F>]) -> Option<u32>
        requires blocks { length states.now % 256 ≡ 0 }
        requires inside { base_in self.now < length states.now }
        ensures { result ≡ child_by (length states.now) (base_in self.now) (λ i. check_in (slice_index_or states.now i self.now)) label }
    {
        let (child, _) = self.child_and_word(label, states)?;
        Some(child)
    }

    /// As [`Self::child`], with that element's [`Self::word`].
    #[inline(always)]
    pub fn child_and_word(&self, label: u8, states: &[State<F>]) -> Option<(u32, u32)>
        requires blocks { length states.now % 256 ≡ 0 }
        requires inside { base_in self.now < length states.now }
        ensures { TellsChild states.now self.now label result }
    {
        let base = self.base()?;
        let child = base.get() ^ u32::from(label);
        let element = &states[child as usize];
        if element.check() == label {
            Some((child, element.word()))
        } else {
            None
        }
    }
}

impl State<u32> {
    /// The element without its link.
    #[inline(always)]
    pub fn without_link(&self) -> State<Empty>
        ensures { result ≡ without_link self.now }
    {
        State {
            base: self.base,
            fail: Empty,
            packed: self.packed,
        }
    }
}

/// The failure link in an element: a `u32`, or `Empty` if the links stand beside the elements.
pub trait Link: Serializable + Copy {
    /// Appends an element's base, this link, and the word of its other parts, all at once.
    ///
    /// # Errors
    /// Out of memory; `dst` then still begins with what it held.
    fn append_element<A: Allocator>(
        self,
        base: u32,
        packed: U24nU8,
        dst: &mut Vec<u8, A>,
    ) -> Result<()>
        ensures written { OnOk result (dst.new.items ≡ dst.old.items ++ (number_form w32 base ++ (Self.form self ++ packed_form packed))) }
        ensures kept { Begins dst.old.items dst.new.items }
        ensures err { IfErr result IsOutOfMemory };
}

impl Link for u32 {
    #[inline(always)]
    fn append_element<A: Allocator>(
        self,
        base: u32,
        packed: U24nU8,
        dst: &mut Vec<u8, A>,
    ) -> Result<()> {
        append(dst, &three_words(base, self, packed.word()))
    }
}

impl Link for Empty {
    #[inline(always)]
    fn append_element<A: Allocator>(
        self,
        base: u32,
        packed: U24nU8,
        dst: &mut Vec<u8, A>,
    ) -> Result<()> {
        append(dst, &two_words(base, packed.word()))
    }
}

/// The base, 0 for none; the failure link; and [`State::word`].
impl<F: Link> Serializable for State<F> {
    ghost is_value = { IsStateValue F.is_value };

    ghost form = { state_form F.form };

    ghost taken = { take_state F.taken };

    ghost form_len = { F.form_len + 8 };

    ghost own_refusal = { IsAfter (take_number w32) (λ _. F.own_refusal) };

    fn serialize_to_vec<A: Allocator>(&self, dst: &mut Vec<u8, A>) -> Result<()> {
        self.fail.append_element(self.base, self.packed, dst)
    }

    fn deserialize_from_slice(src: &[u8]) -> Result<(Self, &[u8])> {
        let (base, rest) = u32::deserialize_from_slice(src)?;
        let (fail, rest) = F::deserialize_from_slice(rest)?;
        let (packed, rest) = U24nU8::deserialize_from_slice(rest)?;
        Ok((Self { base, fail, packed }, rest))
    }

    fn serialized_bytes() -> usize {
        F::serialized_bytes().saturating_add(8)
    }

    fn in_range(&self) {
        let _base = self.base;
        self.fail.in_range();
        self.packed.in_range();
    }

    ghost law = { state_law F.law };
}

const _: () = prove!(size_of::<State<u32>>() == 12);

const _: () = prove!(size_of::<State<Empty>>() == 8);
