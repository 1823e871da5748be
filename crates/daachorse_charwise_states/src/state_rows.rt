//! Rows of the states near the root.

ghost use Rattle.std.specs.Prelude.{◌≡◌, ◌↔◌, ◌≤◌, IsTrue, length, IfOk, IfSome, IfErr};
ghost use Rattle.daachorse_core.specs.Refusals.{IsOutOfMemory};
ghost use Rattle.daachorse_model.specs.declared.MatchKind.TheVariants.{Standard};
ghost use Rattle.daachorse_rows.specs.Rows.{AreLabels, IsListOf};
ghost use Rattle.daachorse_charwise_states.specs.Parts.{content};
ghost use Rattle.daachorse_charwise_states.specs.StateRows.{CoversNear, HasFewCodes, HasNoRoom, HasRows, StaysUnlessLarge, IsUsed, stands_for};

use crate::edges::Elements;
use crate::for_rows::{ASCII, ForRows};
use crate::states::States;
use daachorse_core::MatchKind;
use daachorse_core::errors::Result;
use daachorse_rows::label::SLOTTED;
use daachorse_rows::rows::Rows;
use std::alloc::Allocator;

impl<V: Copy, A: Allocator + Copy> States<V, A> {
    /// Rows of the states near the root; `None` if there is no room for those that must have one.
    ///
    /// Rows have slots for the ASCII characters of the patterns and the others among their 510 most
    /// frequent ones. Each state whose text has at most two characters, all with slots, has a row,
    /// and so have as many others as there is room for; 196 rows always fit. If every state has a
    /// row and every character a slot, a standard search takes one look for each character.
    ///
    /// Rows take at most 252,672 bytes of slots, two bytes for each element, and a table of 1,276
    /// bytes.
    ///
    /// # Errors
    /// Out of memory.
    pub fn rows(&self, alloc: A) -> Result<Option<Rows<A>>>
        ensures right { IfOk result (λ rows. IfSome rows (HasRows self.now)) }
        ensures covered { IfOk result (λ rows. IfSome rows (CoversNear self.now)) }
        ensures stays { IfOk result (λ rows. IfSome rows (λ r. self.now.kind ≡ Standard → HasFewCodes self.now → StaysUnlessLarge self.now r)) }
        ensures none { IfOk result (λ rows. rows ≡ None → HasNoRoom self.now) }
        ensures err { IfErr result IsOutOfMemory }
    {
        let labels = self.row_labels(alloc)?;
        let count = self.num_elements() as u32;
        // A field is read, so that the type's invariant is known here.
        let _num_states = self.num_states;
        match self.kind() {
            MatchKind::Standard => {
                let view = ForRows::new(self.standard());
                Ok(Rows::new(alloc, &view, labels.as_slice(), count)?)
            }
            MatchKind::LeftmostLongest | MatchKind::LeftmostFirst => {
                let view = ForRows::new(self.leftmost());
                Ok(Rows::new(alloc, &view, labels.as_slice(), count)?)
            }
        }
    }

    /// The labels of the characters that have slots, in order.
    fn row_labels(&self, alloc: A) -> Result<Vec<u32, A>>
        ensures few { IfOk result (λ v. length v.items ≤ 638) }
        ensures all { IfOk result (λ v. AreLabels (content self.now) (stands_for self.now) v.items) }
        ensures err { IfErr result IsOutOfMemory }
    {
        // A field is read, so that the type's invariant is known here.
        let _num_states = self.num_states;
        let elements = self.elements(alloc)?;
        list_used(alloc, &elements)
    }
}

/// The labels that may have slots and belong to a character with a code, in order.
fn list_used<V: Copy, A: Allocator + Copy>(
    alloc: A,
    elements: &Elements<'_, V, A>,
) -> Result<Vec<u32, A>>
    ensures ok { IfOk result (λ v. IsListOf (IsUsed elements.now) 638 v.items) }
    ensures err { IfErr result IsOutOfMemory }
{
    let mut labels = Vec::new(alloc);
    for label in 0..SLOTTED {
        if is_used(elements, label) {
            labels.push(label)?;
        }
    }
    Ok(labels)
}

/// Whether some character with a code has the label.
fn is_used<V: Copy, A: Allocator>(elements: &Elements<'_, V, A>, label: u32) -> bool
    ensures { IsTrue result ↔ IsUsed elements.now label }
{
    if label < ASCII {
        return elements.has_code(char::from(label as u8));
    }
    match elements.character((label - ASCII) as usize) {
        Some(character) => character as u32 >= ASCII,
        None => false,
    }
}
