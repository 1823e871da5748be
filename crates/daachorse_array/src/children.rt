//! The children of one element, in the order of their units.

ghost use Rattle.std.specs.Prelude.{◌≡◌, ◌≢◌, ◌<◌, [], ◌∷◌, map, reverse, IfErr, IfSome, OnOk};
ghost use Rattle.daachorse_core.specs.Refusals.{IsOutOfMemory};
ghost use Rattle.daachorse_array.specs.Arrays.{AreGroups, HasEdges, children_of};
ghost use Rattle.daachorse_array.specs.Edges.{put_before};
ghost use Rattle.daachorse_array.specs.Trees.{elements_of};

use crate::array::Array;
use crate::siblings::Siblings;
use daachorse_core::errors::Result;
use std::alloc::Allocator;

/// Pushes the children of an element onto `aside`, each with `depth`, the greatest unit first.
pub(crate) fn put_aside<E: Array, A: Allocator>(
    edges: &E,
    groups: &Siblings<A>,
    element: usize,
    depth: u32,
    list: &mut Vec<(u32, u32), A>,
    aside: &mut Vec<(u32, u32), A>,
) -> Result<()>
    requires edges { HasEdges (E.sees edges.now) }
    requires groups { AreGroups (E.sees edges.now) groups.now }
    requires element { element < (E.sees edges.now).count }
    ensures ok { OnOk result (reverse aside.new.items ≡ put_before (map (λ j. (depth, j)) (children_of (E.sees edges.now) element)) (reverse aside.old.items)) }
    ensures err { IfErr result IsOutOfMemory }
    ensures some { IfErr result (λ _. children_of (E.sees edges.now) element ≢ []) }
{
    if let Some(child) = only_child(edges, groups, element) {
        aside.push((depth, child))?;
        return Ok(());
    }
    list_children(edges, groups, element, list)?;
    while let Some((_unit, child)) = list.pop() {
        aside.push((depth, child))?;
    }
    Ok(())
}

/// The only child of an element; `None` if it has none or several.
fn only_child<E: Array, A: Allocator>(
    edges: &E,
    groups: &Siblings<A>,
    element: usize,
) -> Option<u32>
    requires edges { HasEdges (E.sees edges.now) }
    requires groups { AreGroups (E.sees edges.now) groups.now }
    requires element { element < (E.sees edges.now).count }
    ensures { IfSome result (λ child. children_of (E.sees edges.now) element ≡ child ∷ []) }
{
    let group = edges.group(element)?;
    let mut members = groups.members(group);
    let first = members.next()?;
    match members.next() {
        None => Some(first),
        Some(_second) => None,
    }
}

/// Lists the children of an element with their units, the least unit first.
fn list_children<E: Array, A: Allocator>(
    edges: &E,
    groups: &Siblings<A>,
    element: usize,
    list: &mut Vec<(u32, u32), A>,
) -> Result<()>
    requires edges { HasEdges (E.sees edges.now) }
    requires groups { AreGroups (E.sees edges.now) groups.now }
    requires element { element < (E.sees edges.now).count }
    ensures ok { OnOk result (elements_of list.new.items ≡ children_of (E.sees edges.now) element) }
    ensures err { IfErr result IsOutOfMemory }
    ensures some { IfErr result (λ _. children_of (E.sees edges.now) element ≢ []) }
{
    list.clear();
    let Some(group) = edges.group(element) else {
        return Ok(());
    };
    for member in groups.members(group) {
        if let Some((_group, unit)) = edges.edge(member as usize) {
            list.push((unit as u32, member))?;
        }
    }
    if list.len() > 1 {
        list.sort_unstable();
    }
    Ok(())
}
