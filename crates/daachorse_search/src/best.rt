//! The scan of a leftmost search for the match that starts first, and of those the longest.

ghost use Rattle.std.specs.Prelude.{◌≡◌, ◌+◌, ◌<◌, ◌≤◌, ◌^◌, ℕ, [], Some};
ghost use Rattle.daachorse_model.specs.Units.{size};
ghost use Rattle.daachorse_search.specs.BestScans.{IsBestScan, IsScanning, IsTheBest, ScansToMatch};
ghost use Rattle.daachorse_search.specs.Views.{IsLeftmostView};

use crate::automaton::Automaton;
use crate::walk::step;
use daachorse_core::edge_label::EdgeLabel;
use daachorse_core::turns::Turns;
use daachorse_haystack::haystack::Haystack;
use std::num::NonZeroU32;

/// A match that a scan found.
#[derive(Clone, Copy, Debug, PartialEq, Eq)]
pub struct Found {
    /// The position of its output.
    pub position: NonZeroU32,
    /// Its end, in bytes from where the scan began.
    pub end: usize,
}

/// The result of a scan.
#[derive(Clone, Copy, Debug, PartialEq, Eq)]
pub enum Scanned {
    /// The best match.
    Best(Found),
    /// No match starts in this many bytes: the whole haystack, or what was read up to the root,
    /// where the scan stopped.
    Clear(usize),
}

/// The best match so far.
#[derive(Drop)]
struct Mark<H> {
    // The position of its output.
    position: NonZeroU32,
    // The haystack after it.
    behind: H,
}

/// Finds the match that starts first, and of those the longest. With `may_stop` the scan gives up
/// at the root, so that the caller can ask its filter. `FOLDED` only makes a second copy of the
/// loop.
#[inline(always)]
pub fn scan_best<V: Copy, A: Automaton<V>, H: Haystack<A::Unit>, const FOLDED: bool>(
    automaton: &A,
    haystack: &H,
    may_stop: bool,
    turns: &mut Turns,
) -> Scanned
    requires kind { IsLeftmostView (A.sees automaton.now) }
    requires fits { size A.Unit.width (H.rest haystack.now) < 2 ^ 64 }
    ensures { IsBestScan A.Unit.width (A.sees automaton.now) (H.rest haystack.now) may_stop turns.old turns.new result }
{
    let mut source = haystack.after(0);
    let mut state = automaton.root();
    match scan_from_root::<V, A, H, FOLDED>(automaton, &mut source, &mut state, may_stop, turns) {
        Some(position) => {
            Scanned::Best(scan_on(automaton, haystack, source, state, position, turns))
        }
        None => Scanned::Clear(haystack.left() - source.left()),
    }
}

/// Scans by [`scan_to_match`], with a loop for each answer to whether it may stop.
#[inline(always)]
fn scan_from_root<V: Copy, A: Automaton<V>, H: Haystack<A::Unit>, const FOLDED: bool>(
    automaton: &A,
    source: &mut H,
    state: &mut u32,
    may_stop: bool,
    turns: &mut Turns,
) -> Option<NonZeroU32>
    requires kind { IsLeftmostView (A.sees automaton.now) }
    requires reached { (A.sees automaton.now).reached state.old }
    requires root { (A.sees automaton.now).text state.old ≡ [] }
    ensures reached { (A.sees automaton.now).reached state.new }
    ensures scans { ScansToMatch A.Unit.width (A.sees automaton.now) (H.rest source.old) (H.rest source.new) ((A.sees automaton.now).text state.new) may_stop result turns.old turns.new }
{
    if may_stop {
        return scan_to_match::<V, A, H, FOLDED>(automaton, source, state, true, turns);
    }
    scan_to_match::<V, A, H, FOLDED>(automaton, source, state, false, turns)
}

/// Reads on from the root to the first end of a match, and returns the position of its first
/// output. Returns `None` at the end of the haystack, or at the root if the scan may stop.
#[inline(always)]
fn scan_to_match<V: Copy, A: Automaton<V>, H: Haystack<A::Unit>, const FOLDED: bool>(
    automaton: &A,
    source: &mut H,
    state: &mut u32,
    may_stop: bool,
    turns: &mut Turns,
) -> Option<NonZeroU32>
    requires kind { IsLeftmostView (A.sees automaton.now) }
    requires reached { (A.sees automaton.now).reached state.old }
    requires root { (A.sees automaton.now).text state.old ≡ [] }
    ensures reached { (A.sees automaton.now).reached state.new }
    ensures scans { ScansToMatch A.Unit.width (A.sees automaton.now) (H.rest source.old) (H.rest source.new) ((A.sees automaton.now).text state.new) may_stop result turns.old turns.new }
{
    if let Some(position) = automaton.output_pos(*state) {
        return Some(position);
    }
    'units: loop {
        let Some(unit) = source.next() else {
            return None;
        };
        let (next, position) = step(automaton, *state, unit, turns);
        *state = next;
        if let Some(position) = position {
            return Some(position);
        }
        if may_stop && automaton.is_root(next) {
            return None;
        }
    }
}

/// Reads on from the end of a match for a better one, and returns the best.
#[inline(always)]
fn scan_on<V: Copy, A: Automaton<V>, H: Haystack<A::Unit>>(
    automaton: &A,
    haystack: &H,
    source: H,
    state: u32,
    position: NonZeroU32,
    turns: &mut Turns,
) -> Found
    requires kind { IsLeftmostView (A.sees automaton.now) }
    requires reached { (A.sees automaton.now).reached state }
    requires left { size A.Unit.width (H.rest source) ≤ size A.Unit.width (H.rest haystack.now) }
    ensures { (before : ℕ) → IsScanning A.Unit.width (A.sees automaton.now) (H.rest haystack.now) (H.rest source) ((A.sees automaton.now).text state)
        (Some (position.value, size A.Unit.width (H.rest source))) before turns.old
        → IsTheBest A.Unit.width (A.sees automaton.now) (H.rest haystack.now) result.position.value result.end before turns.new }
{
    let mut source = source;
    let mut state = state;
    let mut mark = Mark {
        position,
        behind: source.after(0),
    };
    'units: loop {
        let Some(unit) = source.next() else {
            return found_at(&mark, haystack);
        };
        let (next, position) = step(automaton, state, unit, turns);
        state = next;
        if automaton.is_root(state) {
            return found_at(&mark, haystack);
        }
        if let Some(position) = position {
            let behind = source.after(0);
            mark = Mark { position, behind };
        }
    }
}

/// The match of a mark, with its end counted from the beginning of the haystack.
#[inline(always)]
fn found_at<U: EdgeLabel, H: Haystack<U>>(mark: &Mark<H>, haystack: &H) -> Found
    requires { size U.width (H.rest mark.now.behind) ≤ size U.width (H.rest haystack.now) }
    ensures position { result.position ≡ mark.now.position }
    ensures end { result.end + size U.width (H.rest mark.now.behind) ≡ size U.width (H.rest haystack.now) }
{
    Found {
        position: mark.position,
        end: haystack.left() - mark.behind.left(),
    }
}
