//! The elements and their children, for listings and for the check of parts that were read.

ghost use Rattle.std.specs.Prelude.{◌≡◌, ◌≢◌, ◌⊎◌, ◌<◌, ◌≤◌, ◌-◌, ℕ, List, [], bit_xor, Some, length, slice_get, slice_index_or, IfOk, IfErr};
ghost use Rattle.daachorse_core.specs.Outputs.{number};
ghost use Rattle.daachorse_core.specs.Refusals.{IsOutOfMemory};
ghost use Rattle.daachorse_array.specs.Depths.{IsDepthTable};
ghost use Rattle.daachorse_model.specs.Units.{byte_width, size};
ghost use Rattle.daachorse_search.specs.Views.{HasMarks};
ghost use Rattle.daachorse_bytewise_states.specs.declared.state.State.{State};
ghost use Rattle.daachorse_bytewise_states.specs.Elements.{output_in};
ghost use Rattle.daachorse_bytewise_states.specs.Grouped.{IsGrouped};
ghost use Rattle.daachorse_bytewise_states.specs.Parts.{base_of, check_of, child, content, count, parts_with};
ghost use Rattle.daachorse_bytewise_states.specs.Valid.{sees};

use crate::for_kinds::{ByKind, ForKinds};
use crate::state::State;
use crate::states::States;
use daachorse_array::array::Array;
use daachorse_array::depths::depths;
use daachorse_array::lengths::longest_text;
use daachorse_array::marks::child_marks;
use daachorse_array::patterns::Keys;
use daachorse_core::errors::Result;
use daachorse_core::{Empty, MatchKind, Output};
use daachorse_search::view::{ForLeftmost, ForStandard};
use std::alloc::Allocator;
use std::marker::{Model, PhantomData};
use std::num::NonZeroU32;

/// Elements of an automaton, or untrusted ones in whole blocks and with bases in range.
///
/// If `K` names the searches, no access tests the kind, which would delay the next one.
#[derive(Drop)]
pub struct Elements<'a, V: Copy, K: ForKinds = ByKind> {
    pub(crate) kind: MatchKind,
    standard: &'a [State<u32>],
    leftmost: &'a [State<Empty>],
    fails: &'a [u32],
    pub(crate) outputs: &'a [Output<V>],
    pub(crate) num_states: u32,
    kinds: PhantomData<K>,
}

impl<'a, V: Copy, K: ForKinds> Model for Elements<'a, V, K> {
    ghost use Rattle.daachorse_bytewise_states.specs.Grouped.{IsGrouped};
    ghost use Rattle.daachorse_bytewise_states.specs.Parts.{Parts, parts_with};

    ghost Value = { Parts V };

    ghost view = { λ s. parts_with s.kind s.standard.now s.leftmost.now s.fails.now s.outputs.now s.num_states };

    ghost invariant = { λ s. IsGrouped (parts_with s.kind s.standard.now s.leftmost.now s.fails.now s.outputs.now s.num_states) × K.fits s.kind };
}

impl<'a, V: Copy, K: ForKinds> Elements<'a, V, K> {
    /// The elements of these lists.
    pub(crate) fn new(
        kind: MatchKind,
        standard: &'a [State<u32>],
        leftmost: &'a [State<Empty>],
        fails: &'a [u32],
        outputs: &'a [Output<V>],
        num_states: u32,
    ) -> Self
        requires grouped { IsGrouped (parts_with kind standard.now leftmost.now fails.now outputs.now num_states) }
        requires fits { K.fits kind }
        ensures { result ≡ parts_with kind standard.entry.now leftmost.entry.now fails.entry.now outputs.entry.now num_states }
    {
        Elements {
            kind,
            standard,
            leftmost,
            fails,
            outputs,
            num_states,
            kinds: PhantomData,
        }
    }

    /// The base of an element.
    #[inline(always)]
    pub(crate) fn base_at(&self, element: usize) -> Option<NonZeroU32>
        requires { element < count self.now }
        ensures value { number result ≡ base_of self.now element }
        ensures inside { number result < count self.now }
    {
        if K::is_leftmost(self.kind) {
            self.leftmost[element].base()
        } else {
            self.standard[element].base()
        }
    }

    /// The check of an element.
    #[inline(always)]
    pub(crate) fn check_at(&self, element: usize) -> u8
        requires { element < count self.now }
        ensures value { result ≡ check_of self.now element }
        ensures inside { bit_xor element result < count self.now }
    {
        if K::is_leftmost(self.kind) {
            self.leftmost[element].check()
        } else {
            self.standard[element].check()
        }
    }
}

/// The elements of a group are those that the bytes lead to from one base. A unit is a byte.
impl<'a, V: Copy, K: ForKinds> Array for Elements<'a, V, K> {
    ghost use Rattle.std.specs.Prelude.{[], ◌∷◌};
    ghost use Rattle.daachorse_model.specs.Units.{byte_width};
    ghost use Rattle.daachorse_bytewise_states.specs.Edges.{edge_of, group_of};
    ghost use Rattle.daachorse_bytewise_states.specs.Parts.{child, count, fail_of, output_of};

    ghost sees = { λ p. record {
      count = count p;
      units = 256;
      child = child p;
      group = group_of p;
      edge = edge_of p;
      fail = fail_of p;
      first = output_of p;
      width = byte_width;
      bytes = λ byte. byte ∷ [];
    } };

    fn num_elements(&self) -> usize {
        if K::is_leftmost(self.kind) {
            self.leftmost.len()
        } else {
            self.standard.len()
        }
    }

    fn num_units(&self) -> usize {
        // A field is read, so that the type's invariant is known here.
        let _ = self.num_states;
        256
    }

    fn group(&self, element: usize) -> Option<usize> {
        let base = self.base_at(element)?;
        Some(base.get() as usize)
    }

    fn edge(&self, element: usize) -> Option<(usize, usize)> {
        let check = self.check_at(element) as usize;
        Some((element ^ check, check))
    }

    fn fail(&self, element: usize) -> u32 {
        if K::is_leftmost(self.kind) {
            self.fails[element]
        } else {
            self.standard[element].fail()
        }
    }

    fn first(&self, element: usize) -> u32 {
        if K::is_leftmost(self.kind) {
            output_at(self.leftmost, element)
        } else {
            output_at(self.standard, element)
        }
    }

    fn width(&self, unit: u32) -> usize {
        // A field is read, so that the type's invariant is known here.
        let _ = self.num_states;
        let _ = unit;
        1
    }

    fn spell<'b>(&self, element: usize, buffer: &'b mut [u8; 4]) -> &'b [u8] {
        *buffer = [self.check_at(element), 0, 0, 0];
        &buffer[..1]
    }
}

/// A key is the bytes of a text.
impl<'a, V: Copy, A: Allocator, K: ForKinds> Keys<V, A> for Elements<'a, V, K> {
    type Unit = u8;

    type Key = Vec<u8, A>;

    ghost number = { λ byte. byte };

    ghost units_of = { λ key. key.items };

    ghost outputs = { λ p. p.outputs };

    fn unit(&self, element: usize) -> u8 {
        self.check_at(element)
    }

    fn output(&self, position: usize) -> Output<V> {
        let outputs = self.outputs;
        outputs[position - 1]
    }

    fn key(&self, alloc: A, units: &[u8]) -> Result<Vec<u8, A>> {
        Ok(Vec::from_slice(alloc, units)?)
    }
}

impl<V: Copy, A: Allocator + Copy> States<V, A> {
    /// The depth of each element, in bytes; 4,294,967,295 if no text leads to it.
    ///
    /// # Errors
    /// Out of memory.
    pub fn depths(&self, alloc: A) -> Result<Vec<u32, A>>
        ensures ok { IfOk result (λ v. IsDepthTable (child self.now) 256 (count self.now) v.items) }
        ensures err { IfErr result IsOutOfMemory }
    {
        if self.kind().is_leftmost() {
            self.depths_in::<ForLeftmost>(alloc)
        } else {
            self.depths_in::<ForStandard>(alloc)
        }
    }

    /// [`Self::depths`], with the list of elements known at compile time.
    fn depths_in<K: ForKinds>(&self, alloc: A) -> Result<Vec<u32, A>>
        requires { K.fits self.now.kind }
        ensures ok { IfOk result (λ v. IsDepthTable (child self.now) 256 (count self.now) v.items) }
        ensures err { IfErr result IsOutOfMemory }
    {
        let elements = self.elements_in::<K>();
        depths(alloc, &elements)
    }

    /// The number of bytes of the longest pattern; 0 if there is none. It goes over the elements.
    ///
    /// # Errors
    /// Out of memory.
    pub fn longest(&self, alloc: A) -> Result<usize>
        ensures ok { IfOk result (λ longest. ((w : List ℕ) → content self.now w ≢ [] → size byte_width w ≤ longest)
            × ((longest ≡ 0) ⊎ ((w : List ℕ) × (content self.now w ≢ []) × (size byte_width w ≡ longest)))) }
        ensures err { IfErr result IsOutOfMemory }
    {
        let depths = self.depths(alloc)?;
        let elements = self.elements();
        Ok(longest_text::<V, _, A>(&elements, &depths))
    }

    /// For each element whether it has a child. Of a state that says whether its text goes on to a
    /// pattern.
    ///
    /// # Errors
    /// Out of memory.
    pub fn child_marks(&self, alloc: A) -> Result<Vec<bool, A>>
        ensures ok { IfOk result (λ v. HasMarks (sees self.now) v.items) }
        ensures err { IfErr result IsOutOfMemory }
    {
        if self.kind().is_leftmost() {
            self.child_marks_in::<ForLeftmost>(alloc)
        } else {
            self.child_marks_in::<ForStandard>(alloc)
        }
    }

    /// [`Self::child_marks`], with the list of elements known at compile time.
    fn child_marks_in<K: ForKinds>(&self, alloc: A) -> Result<Vec<bool, A>>
        requires { K.fits self.now.kind }
        ensures ok { IfOk result (λ v. HasMarks (sees self.now) v.items) }
        ensures err { IfErr result IsOutOfMemory }
    {
        let elements = self.elements_in::<K>();
        child_marks(alloc, &elements)
    }
}

/// The position of an element's first output; 0 if it has none or there is no such element.
#[inline(always)]
fn output_at<F: Copy>(states: &[State<F>], element: usize) -> u32
    ensures { (default : State F) → output_in default ≡ 0 → result ≡ output_in (slice_index_or states.now element default) }
{
    match states.get(element) {
        Some(state) => state.output_pos().map_or(0, NonZeroU32::get),
        None => 0,
    }
}
