//! A scan from one place for the match that starts first, and of those the longest, one unit at a
//! time.

ghost use Rattle.std.specs.Prelude.{◌≡◌, ◌+◌, ◌<◌, ◌≤◌, ◌^◌, ℕ, false, None, if◌then◌else◌, List, [], ◌∷◌, ◌++◌};
ghost use Rattle.daachorse_search.specs.Views.{IsLeftmostView, HasMarks};
ghost use Rattle.daachorse_streams.specs.Scans.{IsScan, depth};

use daachorse_core::edge_label::EdgeLabel;
use daachorse_core::turns::Turns;
use daachorse_search::automaton::Automaton;
use daachorse_search::walk::step;
use std::num::NonZeroU32;

/// The best match so far.
#[derive(Clone, Copy)]
pub(crate) struct Pending {
    /// The position of its output.
    pub(crate) position: NonZeroU32,
    /// Its end, in bytes from the beginning of the haystack.
    pub(crate) end: usize,
}

/// Where a scan stands.
#[derive(Clone, Copy)]
pub(crate) struct Scan {
    pub(crate) state: u32,
    /// The number of bytes up to here, from the beginning of the haystack.
    pub(crate) place: usize,
    pub(crate) best: Option<Pending>,
    /// Whether there is a best match and no further unit can lead to a better one.
    pub(crate) decided: bool,
}

/// A scan that begins at a place.
#[inline(always)]
pub(crate) fn begin<V: Copy, A: Automaton<V>>(automaton: &A, marks: &[bool], place: usize) -> Scan
    requires kind { IsLeftmostView (A.sees automaton.now) }
    requires marks { HasMarks (A.sees automaton.now) marks.now }
    ensures { IsScan A.Unit.width (A.sees automaton.now) place [] result [] }
{
    let state = automaton.root();
    match automaton.output_pos(state) {
        Some(position) => Scan {
            state,
            place,
            best: Some(Pending {
                position,
                end: place,
            }),
            decided: !marks[state as usize],
        },
        None => Scan {
            state,
            place,
            best: None,
            decided: false,
        },
    }
}

/// Where a search stands that passes over a unit before it scans.
#[inline(always)]
pub(crate) fn idle(root: u32, place: usize) -> Scan
    ensures { result ≡ record { state = root; place = place; best = None; decided = false } }
{
    Scan {
        state: root,
        place,
        best: None,
        decided: false,
    }
}

/// Reads one unit, and returns whether it lies behind the best match.
#[inline(always)]
pub(crate) fn advance<V: Copy, A: Automaton<V>>(
    automaton: &A,
    marks: &[bool],
    scan: &mut Scan,
    unit: A::Unit,
    turns: &mut Turns,
) -> bool
    requires kind { IsLeftmostView (A.sees automaton.now) }
    requires marks { HasMarks (A.sees automaton.now) marks.now }
    requires reached { (A.sees automaton.now).reached scan.old.state }
    requires open { scan.old.decided ≡ false }
    requires fits { scan.old.place + A.Unit.width (A.Unit.unit unit) < 2 ^ 64 }
    ensures scan { (from : ℕ) (w behind : List ℕ) → IsScan A.Unit.width (A.sees automaton.now) from w scan.old behind
        → IsScan A.Unit.width (A.sees automaton.now) from (w ++ A.Unit.unit unit ∷ []) scan.new (if result then behind ++ A.Unit.unit unit ∷ [] else []) }
    ensures most { turns.new + depth (A.sees automaton.now) scan.new ≤ turns.old + depth (A.sees automaton.now) scan.old + 2 }
    ensures least { turns.old + (if (A.sees automaton.now).has_label (A.Unit.unit unit) then 1 else 0) ≤ turns.new }
{
    let (state, position) = step(automaton, scan.state, unit, turns);
    scan.state = state;
    scan.place += unit.num_bytes();
    if automaton.is_root(state) {
        scan.decided = scan.best.is_some();
        return scan.decided;
    }
    if let Some(position) = position {
        let end = scan.place;
        scan.best = Some(Pending { position, end });
        scan.decided = !marks[state as usize];
        return false;
    }
    if scan.best.is_none() {
        return false;
    }
    scan.decided = !marks[state as usize];
    true
}
