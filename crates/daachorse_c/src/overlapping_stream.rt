//! The search for all matches, or the longest at each end, one unit at a time, which reports them as
//! there is room.

ghost use Rattle.std.specs.Prelude.{◌≡◌, ◌<◌, ◌^◌, ◌+◌, [], ◌∷◌, ◌++◌, drop, length};
ghost use Rattle.daachorse_core.specs.Outputs.{number};
ghost use Rattle.daachorse_core.specs.Seen.{units};
ghost use Rattle.daachorse_model.specs.Folding.{as_read};
ghost use Rattle.daachorse_model.specs.Matches.{matches_after};
ghost use Rattle.daachorse_model.specs.Units.{size};
ghost use Rattle.daachorse_search.specs.Views.{IsStandard};
ghost use Rattle.daachorse_search.specs.Walks.{HasPlace, matches_from};
ghost use Rattle.daachorse_c.specs.OverlappingStreams.{IsReporting, all_or_first, left_from};
ghost use Rattle.daachorse_c.specs.Writes.{Writes};

use crate::found::CMatch;
use daachorse_core::ascii_fold::AsciiFold;
use daachorse_core::edge_label::EdgeLabel;
use daachorse_search::automaton::Automaton;
use daachorse_search::overlapping::OverlappingWalk;
use daachorse_search::stepwise::Stepwise;
use daachorse_search::walk;
use std::marker::Model;
use std::num::NonZeroU32;

/// A search for all matches, or for the longest at each end, that is fed one unit at a time. It
/// reports those that end where it stands as there is room for them.
#[derive(Drop)]
pub struct OverlappingStream<A: Automaton<u32>> {
    walk: OverlappingWalk<u32, A>,
    // The number of bytes consumed.
    place: usize,
    // Whether each unit is folded.
    folds: bool,
    // Whether of those that end at a place only the longest is reported.
    longest_only: bool,
    // The next output to report of those that end here.
    next: Option<NonZeroU32>,
}

/// Where such a search stands, without the automaton.
#[derive(Drop)]
pub struct OverlappingStreamStanding {
    /// The state of its walk.
    pub walk: walk::Standing,
    /// The number of bytes consumed.
    pub place: usize,
    /// Whether of those that end at a place only the longest is reported.
    pub longest_only: bool,
    /// The next output to report of those that end there.
    pub next: Option<NonZeroU32>,
}

impl<A: Automaton<u32>> Model for OverlappingStream<A> {
    ghost use Rattle.daachorse_core.specs.Outputs.{number};
    ghost use Rattle.daachorse_core.specs.Seen.{units};
    ghost use Rattle.daachorse_search.specs.Stepwise.{StandsAt};
    ghost use Rattle.daachorse_search.specs.Walks.{HasPlace, matches_from};
    ghost use Rattle.daachorse_c.specs.OverlappingStreams.{Reporting, all_or_first};

    ghost Value = { Reporting A };

    ghost view = { λ s. record {
      automaton = s.walk.automaton;
      folds = s.folds;
      longest_only = s.longest_only;
      read = units s.walk.seen;
      left = all_or_first s.longest_only (matches_from A.Unit.width (A.sees s.walk.automaton) s.walk.seen (number s.next));
    } };

    ghost invariant = { λ s. StandsAt A.Unit.width (units s.walk.seen) s.place
        × HasPlace A.Unit.width (A.sees s.walk.automaton) s.walk.seen (number s.next) };
}

impl<A: Automaton<u32>> OverlappingStream<A> {
    /// A search that has consumed nothing.
    pub(crate) fn new(automaton: A, folds: bool, longest_only: bool) -> Self
        requires { IsStandard (A.sees automaton) }
        ensures automaton { result.automaton ≡ automaton }
        ensures folds { result.folds ≡ folds }
        ensures read { result.read ≡ [] }
        ensures longest_only { result.longest_only ≡ longest_only }
        ensures left { result.left ≡ all_or_first longest_only (matches_after A.Unit.width (A.sees automaton).content []) }
    {
        let walk = OverlappingWalk::new(automaton);
        let next = walk.begin();
        OverlappingStream {
            walk,
            place: 0,
            folds,
            longest_only,
            next,
        }
    }

    /// Resumes a search that stood so over the same automaton.
    pub(crate) fn resume(automaton: A, standing: OverlappingStreamStanding, folds: bool) -> Self
        requires { IsReporting A.Unit.width A.sees automaton standing }
        ensures automaton { result.automaton ≡ automaton }
        ensures folds { result.folds ≡ folds }
        ensures longest_only { result.longest_only ≡ standing.longest_only }
        ensures read { result.read ≡ units standing.walk.seen }
        ensures left { result.left ≡ left_from A.Unit.width A.sees automaton standing }
    {
        let OverlappingStreamStanding {
            walk,
            place,
            longest_only,
            next,
        } = standing;
        let walk = OverlappingWalk::resume(automaton, walk);
        OverlappingStream {
            walk,
            place,
            folds,
            longest_only,
            next,
        }
    }

    /// Where the search stands, for [`Self::resume`].
    pub(crate) fn into_standing(self) -> OverlappingStreamStanding
        ensures stands { IsReporting A.Unit.width A.sees self.automaton result }
        ensures longest_only { result.longest_only ≡ self.longest_only }
        ensures read { units result.walk.seen ≡ self.read }
        ensures left { left_from A.Unit.width A.sees self.automaton result ≡ self.left }
    {
        let OverlappingStream {
            walk,
            place,
            folds: _folds,
            longest_only,
            next,
        } = self;
        let walk = walk.into_standing();
        OverlappingStreamStanding {
            walk,
            place,
            longest_only,
            next,
        }
    }

    /// Reports matches while there is room, and returns how many.
    pub(crate) fn report(&mut self, out: &mut [CMatch]) -> usize
        ensures automaton { self.new.automaton ≡ self.old.automaton }
        ensures folds { self.new.folds ≡ self.old.folds }
        ensures longest_only { self.new.longest_only ≡ self.old.longest_only }
        ensures read { self.new.read ≡ self.old.read }
        ensures writes { Writes self.old.left out.old out.new result }
        ensures left { self.new.left ≡ drop result self.old.left }
    {
        let (written, next) = report_from(
            &self.walk,
            self.place,
            self.longest_only,
            self.next,
            out,
        );
        self.next = next;
        written
    }
}

impl<A: Automaton<u32>> OverlappingStream<A>
where
    A::Unit: AsciiFold,
{
    /// Consumes one unit. What is left to report at the place before it is left out.
    pub(crate) fn consume(&mut self, unit: A::Unit)
        requires { size A.Unit.width self.old.read + A.Unit.width (A.Unit.unit unit) < 2 ^ 64 }
        ensures automaton { self.new.automaton ≡ self.old.automaton }
        ensures folds { self.new.folds ≡ self.old.folds }
        ensures longest_only { self.new.longest_only ≡ self.old.longest_only }
        ensures read { self.new.read ≡ self.old.read ++ as_read self.old.folds (A.Unit.unit unit ∷ []) }
        ensures left { self.new.left ≡ all_or_first self.old.longest_only (matches_after A.Unit.width (A.sees self.old.automaton).content self.new.read) }
    {
        // Folding keeps the number of bytes.
        let bytes = unit.num_bytes();
        let read = if self.folds { unit.folded() } else { unit };
        self.advance(read, bytes);
    }

    /// Consumes one unit of `bytes` bytes as it is.
    fn advance(&mut self, unit: A::Unit, bytes: usize)
        requires fits { size A.Unit.width self.old.read + A.Unit.width (A.Unit.unit unit) < 2 ^ 64 }
        requires bytes { bytes ≡ A.Unit.width (A.Unit.unit unit) }
        ensures automaton { self.new.automaton ≡ self.old.automaton }
        ensures folds { self.new.folds ≡ self.old.folds }
        ensures longest_only { self.new.longest_only ≡ self.old.longest_only }
        ensures read { self.new.read ≡ self.old.read ++ A.Unit.unit unit ∷ [] }
        ensures left { self.new.left ≡ all_or_first self.old.longest_only (matches_after A.Unit.width (A.sees self.old.automaton).content self.new.read) }
    {
        self.place += bytes;
        self.next = self.walk.advance(unit);
    }
}

/// Reports the outputs from `next` on, or the first of them alone, while there is room. Returns how
/// many, and the next to report.
fn report_from<A: Automaton<u32>>(
    walk: &OverlappingWalk<u32, A>,
    place: usize,
    first_only: bool,
    mut next: Option<NonZeroU32>,
    out: &mut [CMatch],
) -> (usize, Option<NonZeroU32>)
    requires place { place ≡ size A.Unit.width (units walk.now.seen) }
    requires next { HasPlace A.Unit.width (A.sees walk.now.automaton) walk.now.seen (number next) }
    ensures writes { Writes (all_or_first first_only (matches_from A.Unit.width (A.sees walk.now.automaton) walk.now.seen (number next))) out.old out.new result.0 }
    ensures next { HasPlace A.Unit.width (A.sees walk.now.automaton) walk.now.seen (number result.1) }
    ensures left { all_or_first first_only (matches_from A.Unit.width (A.sees walk.now.automaton) walk.now.seen (number result.1))
        ≡ drop result.0 (all_or_first first_only (matches_from A.Unit.width (A.sees walk.now.automaton) walk.now.seen (number next))) }
{
    let mut written = 0;
    while let Some(position) = next {
        if written == out.len() {
            return (written, next);
        }
        let (found, later) = walk.give(position, place);
        out[written] = CMatch::of(found);
        written += 1;
        next = if first_only { None } else { later };
    }
    (written, next)
}
