//! The elements and their children, for listings and for the check of parts that were read.

ghost use Rattle.std.specs.Prelude.{◌≡◌, ◌≢◌, ◌⊎◌, ◌<◌, ◌≤◌, ◌-◌, ℕ, List, [], Some, length, slice_get, IfSome, IfOk, IfErr};
ghost use Rattle.daachorse_core.specs.Outputs.{number};
ghost use Rattle.daachorse_core.specs.Refusals.{IsOutOfMemory};
ghost use Rattle.daachorse_array.specs.Depths.{IsDepthTable};
ghost use Rattle.daachorse_search.specs.Views.{HasMarks};
ghost use Rattle.daachorse_model.specs.Prefixes.{IsListing};
ghost use Rattle.daachorse_model.specs.Units.{char_width, size};
ghost use Rattle.daachorse_charwise_states.specs.Codings.{IsCoding};
ghost use Rattle.daachorse_charwise_states.specs.Edges.{AreCharacters, IsLettered, character_at, character_of, edge_of};
ghost use Rattle.daachorse_charwise_states.specs.Parts.{base_of, check_of, child, content, count};
ghost use Rattle.daachorse_charwise_states.specs.Texts.{AreTexts};
ghost use Rattle.daachorse_charwise_states.specs.Valid.{AreFew, has_code, sees};
ghost use Rattle.daachorse_charwise_states.specs.Views.{parts_of};

use crate::mapper::{CodeMapper, INVALID_CODE};
use crate::state::State;
use crate::states::States;
use crate::strings::text_of;
use daachorse_array::array::Array;
use daachorse_array::climbs::depths_by_parents;
use daachorse_array::lengths::longest_text;
use daachorse_array::marks::child_marks;
use daachorse_array::patterns::{Keys, PatternWalk};
use daachorse_array::texts::TextWalk;
use daachorse_core::errors::Result;
use daachorse_core::{MatchKind, Output};
use std::alloc::{Allocator, Global};
use std::marker::Model;
use std::num::NonZeroU32;

/// Elements of an automaton, or untrusted ones in whole blocks and with bases in range, with the
/// character of each code.
#[derive(Drop)]
pub struct Elements<'a, V: Copy, A: Allocator = Global> {
    pub(crate) kind: MatchKind,
    states: &'a [State],
    mapper: &'a CodeMapper<A>,
    pub(crate) outputs: &'a [Output<V>],
    pub(crate) num_states: u32,
    // The character of each code, if there is one.
    characters: Vec<Option<char>, A>,
}

impl<'a, V: Copy, A: Allocator> Model for Elements<'a, V, A> {
    ghost use Rattle.daachorse_charwise_states.specs.Edges.{IsLettered, Lettered};
    ghost use Rattle.daachorse_charwise_states.specs.Views.{parts_of};

    ghost Value = { Lettered V };

    ghost view = { λ s. record {
      parts = parts_of s.kind s.states.now s.mapper.now s.outputs.now s.num_states;
      characters = s.characters.items;
    } };

    ghost invariant = { λ s. IsLettered (record {
      parts = parts_of s.kind s.states.now s.mapper.now s.outputs.now s.num_states;
      characters = s.characters.items;
    }) };
}

impl<'a, V: Copy, A: Allocator + Copy> Elements<'a, V, A> {
    /// The elements of these lists.
    pub(crate) fn new(
        alloc: A,
        kind: MatchKind,
        states: &'a [State],
        mapper: &'a CodeMapper<A>,
        outputs: &'a [Output<V>],
        num_states: u32,
    ) -> Result<Self>
        requires coding { IsCoding mapper.now }
        requires few { AreFew (parts_of kind states.now mapper.now outputs.now num_states) }
        ensures parts { IfOk result (λ elements. elements.parts ≡ parts_of kind states.entry.now mapper.entry.now outputs.entry.now num_states) }
        ensures lettered { IfOk result (λ elements. IsLettered elements) }
        ensures err { IfErr result IsOutOfMemory }
    {
        let characters = characters(alloc, mapper)?;
        Ok(Elements {
            kind,
            states,
            mapper,
            outputs,
            num_states,
            characters,
        })
    }
}

impl<'a, V: Copy, A: Allocator> Elements<'a, V, A> {
    /// The base of an element; `None` if it has none or there is no such element.
    fn base_at(&self, element: usize) -> Option<NonZeroU32>
        ensures { number result ≡ base_of self.now.parts element }
    {
        self.states.get(element)?.base()
    }

    /// The check of an element.
    fn check_at(&self, element: usize) -> usize
        requires { element < count self.now.parts }
        ensures { result ≡ check_of self.now.parts element }
    {
        let states = self.states;
        states[element].check() as usize
    }

    /// The character of a code, if there is one.
    pub(crate) fn character(&self, code: usize) -> Option<char>
        ensures { result ≡ character_of self.now code }
    {
        *self.characters.get(code)?
    }

    /// Whether a character has a code.
    pub(crate) fn has_code(&self, character: char) -> bool
        ensures { result ≡ has_code self.now.parts character }
    {
        self.mapper.get(character).is_some()
    }

    /// The parent of an element and the character that leads to it; `None` if it is no child.
    fn parent(&self, element: usize) -> Option<(usize, char)>
        requires { element < count self.now.parts }
        ensures edge { result ≡ edge_of self.now element }
        ensures inside { IfSome result (λ e. (e.0 < count self.now.parts) × (e.1 < length self.now.parts.coding.table)) }
    {
        // A field is read, so that the type's invariant is known here.
        let _num_states = self.num_states;
        let parent = self.check_at(element);
        let base = self.base_at(parent)?;
        let character = self.character(base.get() as usize ^ element)?;
        Some((parent, character))
    }
}

/// The children of an element are the group of the element's own number, which is empty if there
/// are none. So a group is known without reading the element.
///
/// A unit is a character, spelled in UTF-8. The definitions give bytes to any other number too.
impl<'a, V: Copy, A: Allocator> Array for Elements<'a, V, A> {
    ghost use Rattle.std.specs.Char.{encode_utf8};
    ghost use Rattle.std.specs.Prelude.{length};
    ghost use Rattle.daachorse_model.specs.Units.{char_width};
    ghost use Rattle.daachorse_charwise_states.specs.Edges.{edge_of};
    ghost use Rattle.daachorse_charwise_states.specs.Parts.{child, count, fail_of, output_of};

    ghost sees = { λ a. record {
      count = count a.parts;
      units = length a.parts.coding.table;
      child = child a.parts;
      group = λ i. Some i;
      edge = edge_of a;
      fail = fail_of a.parts;
      first = output_of a.parts;
      width = char_width;
      bytes = encode_utf8;
    } };

    fn num_elements(&self) -> usize {
        self.states.len()
    }

    fn num_units(&self) -> usize {
        self.mapper.table().len()
    }

    fn group(&self, element: usize) -> Option<usize> {
        Some(element)
    }

    fn edge(&self, element: usize) -> Option<(usize, usize)> {
        let (parent, character) = self.parent(element)?;
        Some((parent, character as usize))
    }

    fn fail(&self, element: usize) -> u32 {
        let states = self.states;
        states[element].fail()
    }

    fn first(&self, element: usize) -> u32 {
        match self.states.get(element) {
            Some(state) => state.output_pos().map_or(0, NonZeroU32::get),
            None => 0,
        }
    }

    fn width(&self, unit: u32) -> usize {
        // A field is read, so that the type's invariant is known here.
        let _ = self.num_states;
        match unit {
            0..=0x7f => 1,
            0x80..=0x7ff => 2,
            0x800..=0xffff => 3,
            _ => 4,
        }
    }

    fn spell<'b>(&self, element: usize, buffer: &'b mut [u8; 4]) -> &'b [u8] {
        self.unit(element).encode_utf8(buffer).as_bytes()
    }
}

/// A key is the string of a text.
impl<'a, V: Copy, A: Allocator> Keys<V, A> for Elements<'a, V, A> {
    ghost use Rattle.std.specs.Str.{chars};
    ghost use Rattle.std.specs.String.{string_bytes};

    type Unit = char;

    type Key = String<A>;

    ghost number = { λ character. character };

    ghost units_of = { λ key. chars (string_bytes key) };

    ghost outputs = { λ a. a.parts.outputs };

    fn unit(&self, element: usize) -> char {
        match self.parent(element) {
            Some((_parent, character)) => character,
            None => '\0',
        }
    }

    fn output(&self, position: usize) -> Output<V> {
        let outputs = self.outputs;
        outputs[position - 1]
    }

    fn key(&self, alloc: A, units: &[char]) -> Result<String<A>> {
        text_of(alloc, units)
    }
}

impl<V: Copy, A: Allocator + Copy> States<V, A> {
    /// The depth of each element, in characters; 4,294,967,295 if no text leads to it.
    ///
    /// # Errors
    /// Out of memory.
    pub fn depths(&self, alloc: A) -> Result<Vec<u32, A>>
        ensures ok { IfOk result (λ v. IsDepthTable (child self.now) (length self.now.coding.table) (count self.now) v.items) }
        ensures err { IfErr result IsOutOfMemory }
    {
        let elements = self.elements(alloc)?;
        depths_by_parents(alloc, &elements)
    }

    /// The number of bytes of the longest pattern; 0 if there is none. It goes over the elements.
    ///
    /// # Errors
    /// Out of memory.
    pub fn longest(&self, alloc: A) -> Result<usize>
        ensures ok { IfOk result (λ longest. ((w : List ℕ) → content self.now w ≢ [] → size char_width w ≤ longest)
            × ((longest ≡ 0) ⊎ ((w : List ℕ) × (content self.now w ≢ []) × (size char_width w ≡ longest)))) }
        ensures err { IfErr result IsOutOfMemory }
    {
        let elements = self.elements(alloc)?;
        let depths = depths_by_parents(alloc, &elements)?;
        Ok(longest_text::<V, _, A>(&elements, &depths))
    }

    /// For each element whether it has a child. Of a state that says whether its text goes on to a
    /// pattern.
    ///
    /// # Errors
    /// Out of memory.
    pub fn child_marks(&self, alloc: A) -> Result<Vec<bool, A>>
        ensures ok { IfOk result (λ v. HasMarks (sees self.now) v.items) }
        ensures err { IfErr result IsOutOfMemory }
    {
        let elements = self.elements(alloc)?;
        child_marks(alloc, &elements)
    }

    /// All patterns with their values, in byte order, equal ones in order of registration.
    ///
    /// # Errors
    /// Out of memory.
    pub fn pattern_iter<'a>(&'a self, alloc: A) -> Result<PatternWalk<V, Elements<'a, V, A>, A>>
        ensures ok { IfOk result (λ walk. IsListing (content self.entry.now) walk) }
        ensures texts { IfOk result AreTexts }
        ensures err { IfErr result IsOutOfMemory }
    {
        let elements = self.elements(alloc)?;
        PatternWalk::new(alloc, elements)
    }

    /// A walk over the texts of the patterns in their order, each once and in place.
    ///
    /// # Errors
    /// Out of memory.
    pub fn texts<'a>(&'a self, alloc: A) -> Result<TextWalk<V, Elements<'a, V, A>, A>>
        ensures ok { IfOk result (λ walk. IsListing (content self.entry.now) walk.left) }
        ensures err { IfErr result IsOutOfMemory }
    {
        let elements = self.elements(alloc)?;
        TextWalk::new(alloc, elements)
    }
}

/// The character of each code of a mapper, if there is one.
fn characters<A: Allocator + Copy>(alloc: A, mapper: &CodeMapper<A>) -> Result<Vec<Option<char>, A>>
    requires { IsCoding mapper.now }
    ensures ok { IfOk result (λ v. AreCharacters mapper.now (length mapper.now.table) v.items) }
    ensures err { IfErr result IsOutOfMemory }
{
    let mut characters = vec![in alloc; None; mapper.alphabet_size() as usize]?;
    for (code_point, &code) in mapper.table().iter().enumerate() {
        if code != INVALID_CODE {
            characters[code as usize] = character_at(code_point);
        }
    }
    Ok(characters)
}

/// The character at a code point; `None` at a surrogate or past the last.
fn character_at(code_point: usize) -> Option<char>
    ensures { result ≡ character_at code_point }
{
    char::from_u32(u32::try_from(code_point).ok()?)
}
