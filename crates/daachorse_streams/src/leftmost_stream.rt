//! The leftmost matches in what is given unit by unit.

ghost use Rattle.std.specs.Prelude.{◌≡◌, ◌+◌, ◌*◌, ◌^◌, ◌<◌, ◌≤◌, ◌++◌, ℕ, true, false, List, [], ◌∷◌, length, IfOk, MatchOption};
ghost use Rattle.daachorse_model.specs.Certain.{BeginEach};
ghost use Rattle.daachorse_model.specs.Folding.{as_read};
ghost use Rattle.daachorse_model.specs.Leftmost.{leftmost};
ghost use Rattle.daachorse_model.specs.Units.{size};
ghost use Rattle.daachorse_haystack.specs.Filters.{IsSoundFor};
ghost use Rattle.daachorse_search.specs.BestScans.{HasNoLongerKey};
ghost use Rattle.daachorse_search.specs.Views.{IsLeftmostView};
ghost use Rattle.daachorse_streams.specs.Marked.{BeginsStreaming, IsMarkedFor};
ghost use Rattle.daachorse_streams.specs.Standings.{IsLeftmostStanding, streamed_by};
ghost use Rattle.daachorse_streams.specs.Streamed.{HasSkipped, IsRoomFor, IsSameStream, IsSettled, LooksAtKeys};

use crate::leftmost_standing::LeftmostStanding;
use crate::scan::begin;
use crate::search::{Search, give, is_at_root, walk};
use crate::stream_marks::StreamMarks;
use daachorse_core::Match;
use daachorse_core::ascii_fold::AsciiFold;
use daachorse_core::edge_label::EdgeLabel;
use daachorse_core::turns::{Seen, Turns};
use daachorse_haystack::filter::Filter;
use daachorse_haystack::haystack::Haystack;
use daachorse_search::automaton::Automaton;
use std::alloc::{AllocError, Allocator};
use std::collections::VecDeque;
use std::marker::{Model, PhantomData};

/// A leftmost search that is given its haystack unit by unit, and gives each match as soon as it
/// is certain: as soon as each haystack that goes on from there has it.
///
/// It keeps the units that it may have to read again, no more than the longest pattern has.
#[derive(Drop)]
pub struct LeftmostStream<'a, V: Copy, A: Automaton<V>, ALLOC: Allocator> {
    automaton: A,
    // Of each state, whether its text goes on to a longer one.
    marks: &'a [bool],
    // Whether units are read folded.
    folds: bool,
    search: Search<A::Unit, ALLOC>,
    of: PhantomData<V>,
}

impl<'a, V: Copy, A: Automaton<V>, ALLOC: Allocator> Model for LeftmostStream<'a, V, A, ALLOC> {
    ghost use Rattle.daachorse_search.specs.Views.{HasMarks};
    ghost use Rattle.daachorse_streams.specs.Searching.{IsSearching};
    ghost use Rattle.daachorse_streams.specs.Standings.{streamed};
    ghost use Rattle.daachorse_streams.specs.Streamed.{LeftmostStreamed};

    ghost Value = { LeftmostStreamed V A };

    ghost view = { λ s. streamed A.Unit.width A.sees s.automaton s.folds s.search };

    ghost invariant = { λ s. HasMarks (A.sees s.automaton) s.marks.now
        × IsSearching A.Unit.width (A.sees s.automaton) A.Unit.unit s.search };
}

impl<'a, V: Copy, A: Automaton<V>, ALLOC: Allocator> LeftmostStream<'a, V, A, ALLOC> {
    /// A search that was given nothing yet. It takes all its memory here: for as many units as the
    /// longest pattern has bytes.
    ///
    /// # Conditions
    /// The automaton is for leftmost searches, and the marks are its own.
    pub fn new<B: Allocator>(
        alloc: ALLOC,
        automaton: A,
        marks: &'a StreamMarks<B>,
        folds: bool,
    ) -> Result<Self, AllocError>
        requires kind { IsLeftmostView (A.sees automaton) }
        requires marks { IsMarkedFor A.Unit.width (A.sees automaton) marks.now }
        ensures { IfOk result (BeginsStreaming automaton folds) }
    {
        let longest = marks.longest;
        let marks: &[bool] = &marks.children;
        let room = if longest == 0 { 1 } else { longest };
        let ring = VecDeque::with_capacity(alloc, room)?;
        let scan = begin(&automaton, marks, 0);
        Ok(LeftmostStream {
            automaton,
            marks,
            folds,
            search: Search {
                ring,
                walked: 0,
                scan,
                skips: false,
                after: false,
                ended: false,
                turns: Turns::new(),
                seen: Seen::new(),
            },
            of: PhantomData,
        })
    }

    /// A search that goes on from where another over the same automaton stood. What was consumed
    /// stays as it was read.
    ///
    /// # Conditions
    /// The search stood in the automaton, and the marks are its own.
    #[inline(always)]
    pub fn resume<B: Allocator>(
        automaton: A,
        marks: &'a StreamMarks<B>,
        folds: bool,
        standing: LeftmostStanding<A::Unit, ALLOC>,
    ) -> Self
        requires marks { IsMarkedFor A.Unit.width (A.sees automaton) marks.now }
        requires stands { IsLeftmostStanding A.Unit.width A.sees automaton A.Unit.unit standing }
        ensures { result ≡ streamed_by A.Unit.width A.sees automaton folds standing }
    {
        LeftmostStream {
            automaton,
            marks: &marks.children,
            folds,
            search: standing.search,
            of: PhantomData,
        }
    }

    /// Where the search stands.
    #[inline(always)]
    pub fn into_standing(self) -> LeftmostStanding<A::Unit, ALLOC>
        ensures stands { IsLeftmostStanding A.Unit.width A.sees self.entry.automaton A.Unit.unit result }
        ensures same { streamed_by A.Unit.width A.sees self.entry.automaton self.entry.folds result ≡ self.entry }
    {
        let place = self.place();
        LeftmostStanding {
            search: self.search,
            place,
        }
    }

    /// Whether units are read folded.
    #[inline(always)]
    pub fn folds(&self) -> bool
        ensures { result ≡ self.now.folds }
    {
        self.folds
    }

    /// The number of bytes consumed. It goes over the units that are still to read: none, if all
    /// certain matches were asked for.
    #[inline(always)]
    pub fn place(&self) -> usize
        ensures { result ≡ size A.Unit.width self.now.read }
    {
        let ring = &self.search.ring;
        let mut place = self.search.scan.place;
        'units: for index in self.search.walked..ring.len() {
            place += ring[index].num_bytes();
        }
        place
    }

    /// Takes the next unit. It takes no memory, and looks at no state.
    ///
    /// # Conditions
    /// All certain matches were asked for, the haystack has not ended, and the place after the unit
    /// fits.
    #[inline(always)]
    pub fn consume(&mut self, unit: A::Unit)
    where
        A::Unit: AsciiFold,
        requires taken { self.old.waiting ≡ false }
        requires open { self.old.ended ≡ false }
        requires fits { size A.Unit.width self.old.read + A.Unit.width (A.Unit.unit unit) < 2 ^ 64 }
        ensures automaton { self.new.automaton ≡ self.old.automaton }
        ensures folds { self.new.folds ≡ self.old.folds }
        ensures read { self.new.read ≡ self.old.read ++ as_read self.old.folds (A.Unit.unit unit ∷ []) }
        ensures given { self.new.given ≡ self.old.given }
        ensures ended { self.new.ended ≡ false }
        ensures turns { self.new.turns ≡ self.old.turns }
    {
        let read = as_given(unit, self.folds);
        self.search.ring.push_back_reserved(read);
        self.search.seen.push(read.code());
    }

    /// Whether [`Self::skip`] would ask the filter. It is for speed alone.
    #[inline(always)]
    pub fn asks<H: Haystack<A::Unit>, F: Filter<A::Unit, H>>(&self, filter: &F) -> bool {
        is_at_root(&self.automaton, &self.search) && filter.is_open()
    }

    /// Consumes the units of a block that comes next, as they are to be read, up to the first place
    /// at which the filter passes, and returns how many bytes they are. No match begins in them.
    ///
    /// It consumes none where a match may have begun before the block, or the filter is closed.
    /// The last of the units, in fewer bytes than the longest pattern has, are still to read, so
    /// certain matches have to be asked for again.
    ///
    /// # Conditions
    /// All certain matches were asked for, the haystack has not ended, the place after the block
    /// fits, and the filter passes at each pattern of the automaton.
    #[inline(always)]
    pub fn skip<H: Haystack<A::Unit>, F: Filter<A::Unit, H>>(
        &mut self,
        filter: &mut F,
        block: H,
    ) -> usize
        requires taken { self.old.waiting ≡ false }
        requires open { self.old.ended ≡ false }
        requires fits { size A.Unit.width self.old.read + size A.Unit.width (H.rest block) < 2 ^ 64 }
        requires sound { IsSoundFor (F.passes filter.old) (A.sees self.old.automaton).content }
        ensures passes { (w : List ℕ) → F.passes filter.new w ≡ F.passes filter.old w }
        ensures automaton { self.new.automaton ≡ self.old.automaton }
        ensures folds { self.new.folds ≡ self.old.folds }
        ensures skipped { HasSkipped A.Unit.width (A.sees self.old.automaton).content self.old (H.rest block) result self.new }
        ensures none { result ≡ 0 → self.new ≡ self.old }
        ensures given { self.new.given ≡ self.old.given }
        ensures ended { self.new.ended ≡ false }
        ensures turns { self.new.turns ≡ self.old.turns }
    {
        if !is_at_root(&self.automaton, &self.search) || !filter.is_open() {
            return 0;
        }
        let mut later = block.after(0);
        filter.skip(&mut later);
        let bytes = block.left() - later.left();
        if bytes == 0 {
            return 0;
        }
        self.search.pass_over(block, bytes);
        bytes
    }

    /// Ends the haystack: all matches that are left are certain now.
    #[inline(always)]
    pub fn end(&mut self)
        ensures automaton { self.new.automaton ≡ self.old.automaton }
        ensures folds { self.new.folds ≡ self.old.folds }
        ensures read { self.new.read ≡ self.old.read }
        ensures given { self.new.given ≡ self.old.given }
        ensures ended { self.new.ended ≡ true }
        ensures turns { self.new.turns ≡ self.old.turns }
    {
        self.search.ended = true;
    }

    /// The next match, if it is certain: of what was consumed so far, or of the whole haystack
    /// where it has ended.
    #[inline(always)]
    pub fn next_certain(&mut self) -> Option<Match<V>>
        ensures same { IsSameStream self.old self.new }
        ensures gives { MatchOption result (IsSettled A.Unit.width (A.sees self.new.automaton).content self.old self.new) (λ m. self.new.given ≡ self.old.given ++ m ∷ []) }
        ensures begins { self.new.ended ≡ false → BeginEach A.Unit.width (A.sees self.new.automaton).content self.new.read self.new.given }
        ensures first { (rest : List (Match V)) × (leftmost A.Unit.width (A.sees self.new.automaton).content self.new.read ≡ self.new.given ++ rest) }
    {
        'matches: loop {
            walk(&self.automaton, self.marks, &mut self.search);
            let Some(best) = self.search.certain() else {
                return None;
            };
            if let Some(found) = give(&self.automaton, self.marks, &mut self.search, best) {
                return Some(found);
            }
        }
    }

    /// Does nothing. Its contract says for how many units there is room.
    #[inline(always)]
    pub fn room_is_exact(&self)
        ensures { IsRoomFor A.Unit.width (A.sees self.now.automaton).content self.now.room }
    {
        let _ = &self.folds;
    }

    /// Does nothing. Its contract bounds the turns.
    #[inline(always)]
    pub fn turns_are_bounded(&self)
        ensures most { (m : ℕ) → HasNoLongerKey (A.sees self.now.automaton).content m
            → self.now.turns ≤ 2 * length self.now.read + 4 * (m * length self.now.given) }
        ensures least { self.now.waiting ≡ false → LooksAtKeys (A.sees self.now.automaton) self.now.read self.now.read self.now.turns }
    {
        let _ = &self.folds;
    }
}

/// The unit as it is read: folded, if `folds` is set.
#[inline(always)]
fn as_given<U: AsciiFold>(unit: U, folds: bool) -> U
    ensures unit { as_read folds (U.EdgeLabel.unit unit ∷ []) ≡ U.EdgeLabel.unit result ∷ [] }
    ensures width { U.EdgeLabel.width (U.EdgeLabel.unit result) ≡ U.EdgeLabel.width (U.EdgeLabel.unit unit) }
{
    if folds { unit.folded() } else { unit }
}
