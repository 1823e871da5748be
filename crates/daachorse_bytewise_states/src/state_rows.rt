//! Rows of the states near the root.

ghost use Rattle.std.specs.Prelude.{◌≡◌, ◌≤◌, length, IfOk, IfSome};
ghost use Rattle.daachorse_model.specs.declared.MatchKind.TheVariants.{Standard};
ghost use Rattle.daachorse_rows.specs.Rows.{AreLabels, IsListOf};
ghost use Rattle.daachorse_bytewise_states.specs.EdgeBytes.{IsMarked, MarksBases, MarksEdges};
ghost use Rattle.daachorse_bytewise_states.specs.Parts.{content, count};
ghost use Rattle.daachorse_bytewise_states.specs.StateRows.{CoversNear, HasNoRoom, HasRows, StaysUnlessLarge};

use crate::edges::Elements;
use crate::states::States;
use daachorse_array::array::Array;
use daachorse_core::MatchKind;
use daachorse_rows::rows::Rows;
use std::alloc::{AllocError, Allocator};

impl<V: Copy, A: Allocator> States<V, A> {
    /// Rows of the states near the root; `None` if there is no room for those that must have one.
    ///
    /// Each state whose text has at most two bytes has a row, and so have as many others as there
    /// is room for; 485 rows always fit. If every state has a row, a standard search takes one look
    /// for each byte.
    ///
    /// Rows take at most 252,672 bytes of slots, two bytes for each element, and a table of 1,276
    /// bytes.
    ///
    /// # Errors
    /// Out of memory.
    pub fn rows<L: Allocator + Copy>(&self, alloc: L) -> Result<Option<Rows<L>>, AllocError>
        ensures right { IfOk result (λ rows. IfSome rows (HasRows self.now)) }
        ensures covered { IfOk result (λ rows. IfSome rows (CoversNear self.now)) }
        ensures stays { IfOk result (λ rows. IfSome rows (λ r. self.now.kind ≡ Standard → StaysUnlessLarge self.now r)) }
        ensures none { IfOk result (λ rows. rows ≡ None → HasNoRoom self.now) }
    {
        let bytes = self.edge_bytes(alloc)?;
        let count = self.num_elements() as u32;
        // A field is read, so that the type's invariant is known here.
        let _num_states = self.num_states;
        match self.kind() {
            MatchKind::Standard => {
                let view = self.standard();
                Rows::new(alloc, &view, bytes.as_slice(), count)
            }
            MatchKind::LeftmostLongest | MatchKind::LeftmostFirst => {
                let view = self.leftmost();
                Rows::new(alloc, &view, bytes.as_slice(), count)
            }
        }
    }

    /// The bytes that lead from one element to another, in order.
    fn edge_bytes<L: Allocator + Copy>(&self, alloc: L) -> Result<Vec<u8, L>, AllocError>
        ensures few { IfOk result (λ v. length v.items ≤ 256) }
        ensures all { IfOk result (λ v. AreLabels (content self.now) (λ label unit. label ≡ unit) v.items) }
    {
        let elements = self.elements();
        let bases = mark_bases(alloc, &elements)?;
        let edges = mark_edges(alloc, &elements, &bases)?;
        list_marked(alloc, &edges)
    }
}

/// Whether each element is the base of some element.
fn mark_bases<V: Copy, L: Allocator>(
    alloc: L,
    elements: &Elements<'_, V>,
) -> Result<Vec<bool, L>, AllocError>
    ensures { IfOk result (λ v. MarksBases elements.now (count elements.now) v.items) }
{
    let mut marks = Vec::from_elem(alloc, false, elements.num_elements())?;
    for element in 0..elements.num_elements() {
        if let Some(base) = elements.base_at(element) {
            marks[base.get() as usize] = true;
        }
    }
    Ok(marks)
}

/// Whether each byte leads to an element from one of these bases.
fn mark_edges<V: Copy, L: Allocator>(
    alloc: L,
    elements: &Elements<'_, V>,
    bases: &Vec<bool, L>,
) -> Result<Vec<bool, L>, AllocError>
    requires { length bases.now.items ≡ count elements.now }
    ensures { IfOk result (λ v. MarksEdges elements.now bases.now.items (count elements.now) v.items) }
{
    let mut marks = Vec::from_elem(alloc, false, 256)?;
    for element in 0..elements.num_elements() {
        let check = elements.check_at(element);
        if bases[element ^ check as usize] {
            marks[check as usize] = true;
        }
    }
    Ok(marks)
}

/// The bytes that are marked, in order.
fn list_marked<L: Allocator>(alloc: L, marks: &Vec<bool, L>) -> Result<Vec<u8, L>, AllocError>
    requires { length marks.now.items ≡ 256 }
    ensures { IfOk result (λ v. IsListOf (IsMarked marks.now.items) 256 v.items) }
{
    let mut bytes = Vec::new(alloc);
    for byte in 0..256u32 {
        if marks[byte as usize] {
            bytes.push(byte as u8)?;
        }
    }
    Ok(bytes)
}
