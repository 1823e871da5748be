//! The searches of a stream as one type.

ghost use Rattle.std.specs.Prelude.{◌≡◌, ◌<◌, ◌≤◌, ◌^◌, ◌+◌, [], ◌∷◌, ◌++◌, Bool, List, ℕ, cond, drop, false, length, option_to_list};
ghost use Rattle.daachorse_model.specs.declared.Match.{Match as ModelMatch};
ghost use Rattle.daachorse_model.specs.Folding.{as_read};
ghost use Rattle.daachorse_model.specs.Units.{size};
ghost use Rattle.daachorse_core.specs.Seen.{units};
ghost use Rattle.daachorse_search.specs.Standings.{IsFindStanding};
ghost use Rattle.daachorse_search.specs.Views.{IsStandard};
ghost use Rattle.daachorse_streams.specs.Streamed.{IsSameStream, IsSettled};
ghost use Rattle.daachorse_c.specs.Streams.{HasGiven, HasReported, HasReportedBy, IsOver, IsPlaced, IsQuiet, IsUnended, KnowsEnd, StandsIn, ReportsMore, dictionary_in, folds_in, kind_by, kind_in, read_by, read_in};
ghost use Rattle.daachorse_c.specs.Writes.{Writes};

use crate::found::CMatch;
use crate::overlapping_stream::{OverlappingStream, OverlappingStreamStanding};
use crate::stream_unit::StreamUnit;
use daachorse::{LeftmostStanding, Match};
use daachorse_core::edge_label::EdgeLabel;
use daachorse_search::automaton::Automaton;
use daachorse_search::find::FindWalk;
use daachorse_search::find_stepper::{FindStanding, FindStepper};
use daachorse_streams::leftmost_stream::LeftmostStream;
use std::alloc::Global;

/// A search that is fed one unit at a time, and reports what it finds as there is room: by the states
/// `S` for standard searches, or `L` for leftmost ones.
#[derive(Drop)]
pub enum Stepper<'a, S: Automaton<u32>, L: Automaton<u32>> {
    /// For matches that do not overlap.
    Find(Finder<'a, S>),
    /// For all matches, or for the longest at each end.
    Overlapping(OverlappingStream<S>),
    /// For leftmost matches.
    Leftmost(LeftmostStream<'a, u32, L, Global>),
}

/// A search for matches that do not overlap.
#[derive(Drop)]
pub struct Finder<'a, S: Automaton<u32>> {
    /// The stepper of the library.
    pub stepper: FindStepper<'a, u32, S>,
    /// Whether the match that ends here was reported.
    pub reported: bool,
}

impl<'a, S: Automaton<u32>> Finder<'a, S>
where
    S::Unit: StreamUnit,
{
    /// A search that has consumed and reported nothing.
    pub(crate) fn new(states: S, folds: bool) -> Self
        requires { IsStandard (S.sees states) }
        ensures automaton { result.stepper.automaton ≡ states }
        ensures folds { result.stepper.folds ≡ folds }
        ensures read { result.stepper.read ≡ [] }
        ensures unreported { result.reported ≡ false }
    {
        let walk = FindWalk::new(states);
        Finder {
            stepper: FindStepper::new(walk, &[], folds),
            reported: false,
        }
    }

    /// Resumes a search that stood so over the same states, where the match that ends there was
    /// reported or not.
    pub(crate) fn resume(states: S, standing: FindStanding, reported: bool, folds: bool) -> Self
        requires { IsFindStanding S.Unit.width S.sees states standing }
        ensures automaton { result.stepper.automaton ≡ states }
        ensures folds { result.stepper.folds ≡ folds }
        ensures read { result.stepper.read ≡ units standing.walk.seen }
        ensures reported { result.reported ≡ reported }
    {
        Finder {
            stepper: FindStepper::resume(states, &[], standing, folds),
            reported,
        }
    }
}

/// A stepper saved without its automaton.
#[derive(Drop)]
pub enum Standing<U: EdgeLabel> {
    /// Of a search for matches that do not overlap, and whether the one that ends there was reported.
    Find(FindStanding, bool),
    /// Of a search for all matches, or for the longest at each end.
    Overlapping(OverlappingStreamStanding),
    /// Of a search for leftmost matches.
    Leftmost(LeftmostStanding<U, Global>),
}

impl<'a, S: Automaton<u32>, L: Automaton<u32, Unit = S::Unit>> Stepper<'a, S, L>
where
    S::Unit: StreamUnit,
{
    /// Saves the stepper, to be resumed.
    pub(crate) fn into_standing(self) -> Standing<S::Unit>
        ensures stands { (a : S) (b : L) → IsOver a b self.entry → StandsIn S.Unit.width S.sees L.sees S.Unit.unit a b result }
        ensures search { kind_by result ≡ kind_in self.entry }
        ensures read { read_by result ≡ read_in self.entry }
        ensures unended { KnowsEnd false self.entry → IsUnended result }
        ensures reported { (a : S) (b : L) (reported : List (ModelMatch ℕ)) → IsOver a b self.entry → HasReported S.Unit.width S.sees L.sees self.entry reported → HasReportedBy S.Unit.width S.sees L.sees a b (folds_in self.entry) result reported }
    {
        match self {
            Stepper::Find(Finder { stepper, reported }) => {
                Standing::Find(stepper.into_standing(), reported)
            }
            Stepper::Overlapping(stepper) => Standing::Overlapping(stepper.into_standing()),
            Stepper::Leftmost(stream) => Standing::Leftmost(stream.into_standing()),
        }
    }

    /// Consumes one unit, folded if the automaton ignores case.
    pub(crate) fn consume(&mut self, unit: S::Unit)
        requires quiet { IsQuiet S.Unit.width S.sees L.sees self.old }
        requires unended { KnowsEnd false self.old }
        requires fits { size S.Unit.width (read_in self.old) + S.Unit.width (S.Unit.unit unit) < 2 ^ 64 }
        ensures over { (a : S) (b : L) → IsOver a b self.old → IsOver a b self.new }
        ensures folds { folds_in self.new ≡ folds_in self.old }
        ensures search { kind_in self.new ≡ kind_in self.old }
        ensures dictionary { dictionary_in S.Unit.width S.sees L.sees self.new ≡ dictionary_in S.Unit.width S.sees L.sees self.old }
        ensures read { read_in self.new ≡ read_in self.old ++ as_read (folds_in self.old) (S.Unit.unit unit ∷ []) }
        ensures unended { KnowsEnd false self.new }
        ensures reported { (reported : List (ModelMatch ℕ)) → HasReported S.Unit.width S.sees L.sees self.old reported → HasReported S.Unit.width S.sees L.sees self.new reported }
    {
        match self {
            Stepper::Find(finder) => {
                finder.stepper.consume(unit);
                finder.reported = false;
            }
            Stepper::Overlapping(stepper) => stepper.consume(unit),
            Stepper::Leftmost(stream) => stream.consume(unit),
        }
    }

    /// Writes the matches that are certain and were not reported, as many as there is room for, and
    /// returns their number.
    pub(crate) fn report(&mut self, out: &mut [CMatch]) -> usize
        ensures over { (a : S) (b : L) → IsOver a b self.old → IsOver a b self.new }
        ensures folds { folds_in self.new ≡ folds_in self.old }
        ensures search { kind_in self.new ≡ kind_in self.old }
        ensures dictionary { dictionary_in S.Unit.width S.sees L.sees self.new ≡ dictionary_in S.Unit.width S.sees L.sees self.old }
        ensures read { read_in self.new ≡ read_in self.old }
        ensures end { (ended : Bool) → KnowsEnd ended self.old → KnowsEnd ended self.new }
        ensures reported { (reported : List (ModelMatch ℕ)) → HasReported S.Unit.width S.sees L.sees self.old reported → ReportsMore (HasReported S.Unit.width S.sees L.sees self.new) reported out.old out.new result }
        ensures quiet { result < length out.old → IsQuiet S.Unit.width S.sees L.sees self.new }
        ensures room { result ≤ length out.old }
    {
        match self {
            Stepper::Find(finder) => {
                report_one(finder.stepper.matches(), &mut finder.reported, out)
            }
            Stepper::Overlapping(stepper) => stepper.report(out),
            Stepper::Leftmost(stream) => report_certain(stream, out),
        }
    }
}

/// Writes the match, unless there is none, it was reported, or there is no room.
fn report_one(found: Option<Match<u32>>, reported: &mut bool, out: &mut [CMatch]) -> usize
    ensures writes { Writes (cond reported.old [] (option_to_list found)) out.old out.new result }
    ensures left { cond reported.new [] (option_to_list found) ≡ drop result (cond reported.old [] (option_to_list found)) }
{
    if *reported || out.is_empty() {
        return 0;
    }
    match found {
        Some(found) => {
            out[0] = CMatch::of(found);
            *reported = true;
            1
        }
        None => 0,
    }
}

/// Writes the matches that are certain, as many as there is room for.
fn report_certain<L: Automaton<u32>>(
    stream: &mut LeftmostStream<'_, u32, L, Global>,
    out: &mut [CMatch],
) -> usize
    ensures same { IsSameStream stream.old stream.new }
    ensures reported { (reported : List (ModelMatch ℕ)) → HasGiven L.Unit.width L.sees stream.old reported → ReportsMore (HasGiven L.Unit.width L.sees stream.new) reported out.old out.new result }
    ensures room { result ≤ length out.old }
    ensures settled { result < length out.old → IsSettled L.Unit.width (L.sees stream.new.automaton).content stream.new stream.new }
{
    let mut written = 0;
    while written < out.len() {
        let Some(found) = stream.next_certain() else {
            return written;
        };
        out[written] = CMatch::of(found);
        written += 1;
    }
    written
}

impl<U: EdgeLabel> Standing<U> {
    /// The number of bytes consumed.
    pub(crate) fn place(&self) -> usize
        requires { IsPlaced U.width self.now }
        ensures { result ≡ size U.width (read_by self.now) }
    {
        match self {
            Standing::Find(standing, _reported) => standing.place(),
            Standing::Overlapping(standing) => standing.place,
            Standing::Leftmost(standing) => standing.place(),
        }
    }
}
