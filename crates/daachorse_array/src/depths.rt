//! The depths of an array's elements, found breadth first with no sorting of children.

ghost use Rattle.std.specs.Prelude.{◌≡◌, ◌+◌, ◌<◌, ◌≤◌, ℕ, Some, length, slice_index, vec_capacity, IfOk, IfErr};
ghost use Rattle.daachorse_core.specs.Refusals.{IsOutOfMemory};
ghost use Rattle.daachorse_array.specs.Arrays.{AreGroups, HasEdges};
ghost use Rattle.daachorse_array.specs.Edges.{IsTree, TellChildren, members};
ghost use Rattle.daachorse_array.specs.Depths.{IsDepthTable};
ghost use Rattle.daachorse_array.specs.Trees.{IsNoting};

use crate::array::Array;
use crate::siblings::Siblings;
use daachorse_core::errors::Result;
use std::alloc::Allocator;

/// The depth of an element that no text leads to.
pub(crate) const NOT_REACHED: u32 = u32::MAX;

/// The depth of each element, in units; 4,294,967,295 if no text leads to it.
///
/// # Errors
/// Out of memory.
pub fn depths<E: Array, A: Allocator + Copy>(alloc: A, edges: &E) -> Result<Vec<u32, A>>
    requires tree { let view = E.sees edges.now in IsTree view.child view.count view.units }
    requires tell { let view = E.sees edges.now in TellChildren view.child view.group view.edge view.count }
    ensures ok { let view = E.sees edges.now in IfOk result (λ v. IsDepthTable view.child view.units view.count v.items) }
    ensures err { IfErr result IsOutOfMemory }
{
    let groups = Siblings::new(alloc, edges)?;
    let count = edges.num_elements();
    let mut depths = vec![in alloc; NOT_REACHED; count]?;
    depths[0] = 0;
    let mut reached = Vec::with_capacity(alloc, count)?;
    reached.push_reserved(0);
    let mut entered = 0;
    'elements: while entered < reached.len() {
        let element = reached[entered] as usize;
        entered += 1;
        note_children(edges, &groups, element, &mut depths, &mut reached);
    }
    Ok(depths)
}

/// Sets the depth of each child of an element, and appends it to `reached`.
fn note_children<E: Array, A: Allocator>(
    edges: &E,
    groups: &Siblings<A>,
    element: usize,
    depths: &mut Vec<u32, A>,
    reached: &mut Vec<u32, A>,
)
    requires edges { HasEdges (E.sees edges.now) }
    requires groups { AreGroups (E.sees edges.now) groups.now }
    requires element { element < (E.sees edges.now).count }
    requires size { length depths.old.items ≡ (E.sees edges.now).count }
    requires shallow { slice_index depths.old.items element < 4294967295 }
    requires room { let view = E.sees edges.now in (g : ℕ) → view.group element ≡ Some g
        → length reached.old.items + length (members view.edge g view.count) ≤ vec_capacity reached.old }
    ensures noted { IsNoting ((E.sees edges.now).child element) (slice_index depths.old.items element + 1)
        reached.old.items depths.old.items reached.new.items depths.new.items }
    ensures capacity { vec_capacity reached.new ≡ vec_capacity reached.old }
{
    let Some(group) = edges.group(element) else {
        return;
    };
    let depth = depths[element] + 1;
    for child in groups.members(group) {
        depths[child as usize] = depth;
        reached.push_reserved(child);
    }
}
