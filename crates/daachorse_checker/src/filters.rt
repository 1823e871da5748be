//! Whether a prefilter passes at each key of an array.

ghost use Rattle.std.specs.Prelude.{◌++◌, ◌<◌, ℕ, List, All, true, false, length, IfOk, IfErr, IfSome, IfNone, ◌↔◌, IsTrue};
ghost use Rattle.daachorse_core.specs.Refusals.{IsOutOfMemory};
ghost use Rattle.daachorse_array.specs.Arrays.{AreGroups, HasEdges};
ghost use Rattle.daachorse_array.specs.Listing.{has_own, unit_of};
ghost use Rattle.daachorse_prefilter.specs.Windows.{HasRead};
ghost use Rattle.daachorse_checker.specs.Filters.{HasRefused, IsNextOf, IsPushed, PassesAll};
ghost use Rattle.daachorse_checker.specs.Ranks.{HasOnePath};

use daachorse_array::array::{Array, has_own};
use daachorse_array::siblings::Siblings;
use daachorse_core::errors::Result;
use daachorse_prefilter::prefilter::{Prefilter, Window};
use std::alloc::Allocator;

/// Whether a prefilter passes at the beginning of each key of a tree.
///
/// The tree is read level by level, in time and memory linear in its elements. If the prefilter
/// passes at the beginning of a text it passes at every longer one, so nothing below is read.
///
/// # Errors
/// Out of memory.
pub fn passes_all<E: Array, A: Allocator + Copy, B: Allocator>(
    alloc: A,
    array: &E,
    filter: &Prefilter<B>,
) -> Result<bool>
    requires edges { HasEdges (E.sees array.now) }
    requires some { 0 < (E.sees array.now).count }
    requires tree { HasOnePath (E.sees array.now).child }
    ensures ok { let view = E.sees array.now in IfOk result (λ passes. IsTrue passes ↔ PassesAll view.child view.bytes (has_own view.fail view.first) filter.now) }
    ensures err { IfErr result IsOutOfMemory }
{
    let groups = Siblings::new(alloc, array)?;
    let mut level = Vec::new(alloc);
    level.push((0, Window::new()))?;
    for _depth in 0..array.num_elements() {
        if level.is_empty() {
            return Ok(true);
        }
        let Some(next) = next_level(alloc, array, &groups, filter, &level)? else {
            return Ok(false);
        };
        level = next;
    }
    Ok(true)
}

/// The children of the elements at whose texts the prefilter does not pass, with their windows;
/// `None` if one of these elements is a key.
fn next_level<E: Array, A: Allocator + Copy, B: Allocator>(
    alloc: A,
    array: &E,
    groups: &Siblings<A>,
    filter: &Prefilter<B>,
    level: &[(u32, Window)],
) -> Result<Option<Vec<(u32, Window), A>>>
    requires edges { HasEdges (E.sees array.now) }
    requires groups { AreGroups (E.sees array.now) groups.now }
    requires elements { All (λ e. e.0 < (E.sees array.now).count) level.now }
    ensures some { let view = E.sees array.now in IfOk result (λ found. IfSome found (λ next. IsNextOf view.child view.bytes filter.now (has_own view.fail view.first) level.now (length level.now) next.items)) }
    ensures none { let view = E.sees array.now in IfOk result (λ found. IfNone found (HasRefused filter.now (has_own view.fail view.first) level.now)) }
    ensures err { IfErr result IsOutOfMemory }
{
    let mut next = Vec::new(alloc);
    for number in 0..level.len() {
        let entry = level[number];
        if !filter.admits(entry.1) {
            if has_own(array, entry.0 as usize) {
                return Ok(None);
            }
            push_children(array, groups, filter, entry, &mut next)?;
        }
    }
    Ok(Some(next))
}

/// Appends the children of an element, with their windows.
fn push_children<E: Array, A: Allocator, B: Allocator>(
    array: &E,
    groups: &Siblings<A>,
    filter: &Prefilter<B>,
    entry: (u32, Window),
    next: &mut Vec<(u32, Window), A>,
) -> Result<()>
    requires edges { HasEdges (E.sees array.now) }
    requires groups { AreGroups (E.sees array.now) groups.now }
    requires element { entry.0 < (E.sees array.now).count }
    ensures ok { let view = E.sees array.now in IfOk result (λ done. IsPushed view.child view.bytes filter.now entry next.old.items next.new.items) }
    ensures err { IfErr result IsOutOfMemory }
{
    let Some(group) = array.group(entry.0 as usize) else {
        return Ok(());
    };
    for member in groups.members(group) {
        let window = read(array, member as usize, filter, entry.1);
        next.push((member, window))?;
    }
    Ok(())
}

/// The window of a prefilter after the unit that leads to an element.
fn read<E: Array, B: Allocator>(
    array: &E,
    element: usize,
    filter: &Prefilter<B>,
    window: Window,
) -> Window
    requires { element < (E.sees array.now).count }
    ensures { let view = E.sees array.now in (text : List ℕ) → HasRead filter.now text window
        → HasRead filter.now (text ++ view.bytes (unit_of (view.edge element))) result }
{
    let mut buffer = [0; 4];
    filter.read(window, array.spell(element, &mut buffer))
}
