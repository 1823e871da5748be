//! The elements of an array that have a child.

ghost use Rattle.std.specs.Prelude.{◌<◌, ◌↔◌, IsTrue, IfOk, IfErr};
ghost use Rattle.daachorse_core.specs.Refusals.{IsOutOfMemory};
ghost use Rattle.daachorse_array.specs.Arrays.{AreGroups, HasEdges};
ghost use Rattle.daachorse_array.specs.Marks.{AreChildMarks, LeadsOn};

use crate::array::Array;
use crate::siblings::Siblings;
use daachorse_core::errors::Result;
use std::alloc::Allocator;

/// For each element whether it has a child.
///
/// Children are looked for, since an element that has none may still have a base.
///
/// # Errors
/// Out of memory.
pub fn child_marks<E: Array, A: Allocator + Copy>(alloc: A, edges: &E) -> Result<Vec<bool, A>>
    requires edges { HasEdges (E.sees edges.now) }
    ensures ok { let view = E.sees edges.now in IfOk result (λ v. AreChildMarks view.child view.count v.items) }
    ensures err { IfErr result IsOutOfMemory }
{
    let groups = Siblings::new(alloc, edges)?;
    let count = edges.num_elements();
    let mut marks = Vec::with_capacity(alloc, count)?;
    for element in 0..count {
        let mark = has_child(edges, &groups, element);
        marks.push_reserved(mark);
    }
    Ok(marks)
}

/// Whether an element has a child.
fn has_child<E: Array, A: Allocator>(edges: &E, groups: &Siblings<A>, element: usize) -> bool
    requires edges { HasEdges (E.sees edges.now) }
    requires groups { AreGroups (E.sees edges.now) groups.now }
    requires element { element < (E.sees edges.now).count }
    ensures { IsTrue result ↔ LeadsOn (E.sees edges.now).child element }
{
    match edges.group(element) {
        Some(group) => groups.members(group).next().is_some(),
        None => false,
    }
}
