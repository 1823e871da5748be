//! The depths of the elements of an array whose elements know their parents.
//!
//! From each element of unknown depth a climb goes up to one of known depth, and the elements that
//! it passed get their depths on the way back. No groups are needed, and an element and its parent
//! mostly stand near each other.

ghost use Rattle.std.specs.Prelude.{◌≡◌, ◌≢◌, ◌+◌, ◌<◌, ◌≤◌, ◌^◌, ℕ, Some, [], length, reverse, slice_index, vec_capacity, IfOk, IfErr, IfSome, MatchOption};
ghost use Rattle.std.specs.List.{AllByRecursion};
ghost use Rattle.daachorse_core.specs.Refusals.{IsOutOfMemory};
ghost use Rattle.daachorse_array.specs.Texts.{IsReached};
ghost use Rattle.daachorse_array.specs.Climbs.{AreKnown, IsPathBelow, depths_along};
ghost use Rattle.daachorse_array.specs.Edges.{IsTree, TellChildren};
ghost use Rattle.daachorse_array.specs.Depths.{IsDepthTable};
ghost use Rattle.daachorse_array.specs.Trees.{IsAmong};

use crate::array::Array;
use crate::depths::NOT_REACHED;
use daachorse_core::ROOT_STATE_IDX;
use daachorse_core::errors::Result;
use std::alloc::Allocator;

/// The depth of an element that no climb has reached, and of the root.
const NOT_KNOWN: u32 = 0;

/// The depth of each element, in units; 4,294,967,295 if no text leads to it.
///
/// # Conditions
/// The group of an element's children has the element's number.
///
/// # Errors
/// Out of memory.
pub fn depths_by_parents<E: Array, A: Allocator + Copy>(alloc: A, edges: &E) -> Result<Vec<u32, A>>
    requires tree { let view = E.sees edges.now in IsTree view.child view.count view.units }
    requires tell { let view = E.sees edges.now in TellChildren view.child (λ i. Some i) view.edge view.count }
    ensures ok { let view = E.sees edges.now in IfOk result (λ v. IsDepthTable view.child view.units view.count v.items) }
    ensures err { IfErr result IsOutOfMemory }
{
    let count = edges.num_elements();
    let mut depths = vec![in alloc; NOT_KNOWN; count]?;
    let mut path = Vec::with_capacity(alloc, count)?;
    for element in 0..count {
        match climb(edges, element, &mut depths, &mut path) {
            Some(depth) => descend(depth, &mut depths, &mut path),
            None => path.clear(),
        }
    }
    Ok(depths)
}

/// Pushes an element and those above it onto the path, up to the first of known depth, and returns
/// that depth; `None` if no text leads to them.
#[inline(always)]
fn climb<E: Array, A: Allocator>(
    edges: &E,
    element: usize,
    depths: &mut Vec<u32, A>,
    path: &mut Vec<u32, A>,
) -> Option<u32>
    requires tree { let view = E.sees edges.now in IsTree view.child view.count view.units }
    requires tell { let view = E.sees edges.now in TellChildren view.child (λ i. Some i) view.edge view.count }
    requires few { (E.sees edges.now).count < 2 ^ 32 }
    requires element { element < (E.sees edges.now).count }
    requires known { let view = E.sees edges.now in AreKnown view.child view.count view.units [] depths.old.items }
    requires empty { path.old.items ≡ [] }
    requires room { (E.sees edges.now).count ≤ vec_capacity path.old }
    ensures known { let view = E.sees edges.now in AreKnown view.child view.count view.units (reverse path.new.items) depths.new.items }
    ensures above { let view = E.sees edges.now in MatchOption result
        ((i : ℕ) → IsAmong (reverse path.new.items) i → ¬ IsReached view.child view.units view.count i)
        (λ depth. IsPathBelow view.child view.count view.units depth (reverse path.new.items)) }
    ensures few { IfSome result (λ depth. depth + length path.new.items < 2 ^ 32) }
    ensures passed { 0 < element → slice_index depths.new.items element ≢ 0 }
    ensures kept { (i : ℕ) → slice_index depths.old.items i ≢ 0 → slice_index depths.new.items i ≢ 0 }
    ensures capacity { vec_capacity path.new ≡ vec_capacity path.old }
{
    let mut above = element;
    'up: while above != ROOT_STATE_IDX as usize {
        let depth = depths[above];
        if depth == NOT_REACHED {
            return None;
        }
        if depth != NOT_KNOWN {
            return Some(depth);
        }
        depths[above] = NOT_REACHED;
        path.push_reserved(above as u32);
        let Some((parent, _unit)) = edges.edge(above) else {
            return None;
        };
        above = parent;
    }
    Some(NOT_KNOWN)
}

/// Empties the path and sets the depths of its elements: `depth + 1` for the last one, and one more
/// for each before it.
#[inline(always)]
fn descend<A: Allocator>(depth: u32, depths: &mut Vec<u32, A>, path: &mut Vec<u32, A>)
    requires inside { AllByRecursion (λ i. i < length depths.old.items) (reverse path.old.items) }
    requires few { depth + length path.old.items < 2 ^ 32 }
    ensures depths { depths.new.items ≡ depths_along depth (reverse path.old.items) depths.old.items }
    ensures empty { path.new.items ≡ [] }
    ensures capacity { vec_capacity path.new ≡ vec_capacity path.old }
{
    let mut deepest = depth;
    'down: while let Some(element) = path.pop() {
        deepest += 1;
        depths[element as usize] = deepest;
    }
}
