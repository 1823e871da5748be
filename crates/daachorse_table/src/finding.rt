//! Compares the matches of an iterator, and those of a stepper after each unit, with expected ones.

ghost use Rattle.std.specs.Iterator.{IsFinite};
ghost use Rattle.std.specs.Prelude.{◌≡◌, []};
ghost use Rattle.std.specs.Str.Iter.{bytes_rest};
ghost use Rattle.daachorse_search.specs.Standings.{IsFindStanding, IsOverlappingStanding};

use daachorse_core::Match;
use daachorse_core::ascii_fold::AsciiFold;
use daachorse_core::edge_label::EdgeLabel;
use daachorse_haystack::decoding::Decoded;
use daachorse_haystack::filter::Filter;
use daachorse_haystack::haystack::Haystack;
use daachorse_haystack::source;
use daachorse_search::automaton::Automaton;
use daachorse_search::find::FindWalk;
use daachorse_search::find_stepper::{FindStanding, FindStepper};
use daachorse_search::leftmost::LeftmostMatches;
use daachorse_search::matches::Matches;
use daachorse_search::matches_from::MatchesFrom;
use daachorse_search::matches_from_reader::MatchesFromReader;
use daachorse_search::overlapping::{NoSuffixWalk, OverlappingWalk};
use daachorse_search::overlapping_stepper::{FindOverlappingStepper, OverlappingStanding};
use daachorse_search::reader::ReadSource;
use daachorse_search::step_unit::StepUnit;
use daachorse_search::stepwise::Stepwise;
use daachorse_streams::block_source::{BlockSource, BlockUnit};
use daachorse_streams::leftmost_from_reader::LeftmostFromReader;
use std::alloc::Allocator;
use std::io::{self, ErrorKind};
use std::iter::Copied;
use std::slice::Iter;
use std::str;

/// The start, the end and the value of a match.
pub type Found = (usize, usize, u32);

/// The place past which no stepper goes.
pub const FARTHEST: usize = 1_000_000_000;

/// The matches and depths still to come, and whether all so far were expected.
#[derive(Drop)]
pub struct Expected<'a> {
    left: Iter<'a, Found>,
    depths: Iter<'a, u32>,
    holds: bool,
}

impl<'a> Expected<'a> {
    pub fn new(matches: &'a [Found], depths: &'a [u32]) -> Self {
        Self {
            left: matches.iter(),
            depths: depths.iter(),
            holds: true,
        }
    }

    /// Takes a depth; `None` is expected after the last.
    fn take_depth(&mut self, depth: Option<u32>) {
        self.holds = self.holds && self.depths.next() == depth.as_ref();
    }

    /// Takes a match, and returns whether all so far were expected.
    fn take(&mut self, found: Match<u32>) -> bool {
        match self.left.next() {
            Some((start, end, value)) => {
                let same = found.start() == *start && found.end() == *end;
                self.holds = self.holds && same && found.value() == *value;
            }
            None => self.holds = false,
        }
        self.holds
    }

    /// Takes the matches in turn, up to the first unexpected one.
    pub fn take_all<I: Iterator<Item = Match<u32>> + Drop>(&mut self, matches: I)
        requires can { I.can_next matches }
        requires ends { IsFinite (I.remaining matches) }
    {
        for found in matches {
            if !self.take(found) {
                return;
            }
        }
    }

    /// Takes the matches that a stepper reports at this place, in turn, up to the first unexpected
    /// one. Each ends there.
    pub fn take_at<I: Iterator<Item = Match<u32>> + Drop>(&mut self, place: usize, matches: I)
        requires can { I.can_next matches }
        requires ends { IsFinite (I.remaining matches) }
    {
        for found in matches {
            self.holds = self.holds && found.end() == place;
            if !self.take(found) {
                return;
            }
        }
    }

    /// Whether exactly the expected matches came.
    pub fn is_met(&self) -> bool {
        self.holds && self.left.len() == 0
    }
}

/// Whether this match is the expected one, or none is expected and found.
pub fn is_found(found: Option<Match<u32>>, expected: Option<Found>) -> bool {
    match (found, expected) {
        (Some(found), Some((start, end, value))) => {
            found.start() == start && found.end() == end && found.value() == value
        }
        (None, None) => true,
        _ => false,
    }
}

/// Whether these are the expected matches, in this order.
pub fn are<I: Iterator<Item = Match<u32>> + Drop>(matches: I, expected: &[Found]) -> bool
    requires can { I.can_next matches }
    requires ends { IsFinite (I.remaining matches) }
{
    let mut expected = Expected::new(expected, &[]);
    expected.take_all(matches);
    expected.is_met()
}

/// A search over a reader, which may be asked at any time.
trait ReadSearch: Drop {
    /// The next match, or the error at which the search ends.
    fn next_read(&mut self) -> Option<io::Result<Match<u32>>>;
}

impl<W: Stepwise<u32>, S: ReadSource<W::Unit>> ReadSearch for MatchesFromReader<u32, W, S>
where
    W::Unit: AsciiFold,
{
    fn next_read(&mut self) -> Option<io::Result<Match<u32>>> {
        self.next()
    }
}

impl<'a, A: Automaton<u32>, ALLOC: Allocator, S: BlockSource<A::Unit>, B: Allocator> ReadSearch
    for LeftmostFromReader<'a, u32, A, ALLOC, S, B>
where
    A::Unit: BlockUnit,
{
    fn next_read(&mut self) -> Option<io::Result<Match<u32>>> {
        self.next()
    }
}

/// Whether a search over a reader gives these matches, in this order, then this error, if there is
/// one, and nothing after it.
fn are_read<I: ReadSearch>(mut items: I, expected: &[Found], error: Option<ErrorKind>) -> bool {
    for wanted in expected {
        match items.next_read() {
            Some(Ok(found)) if (found.start(), found.end(), found.value()) == *wanted => {}
            _ => return false,
        }
    }
    let failure = match items.next_read() {
        Some(Ok(_)) => return false,
        Some(Err(failure)) => Some(failure.kind()),
        None => None,
    };
    failure == error && items.next_read().is_none()
}

/// Whether a search over a reader for matches that do not overlap gives what is expected, as
/// [`are_read`] has it.
///
/// A call is proved some times faster where the automaton is the type parameter than where its walk
/// or the whole search is.
pub fn gives_read<A: Automaton<u32>, S: ReadSource<A::Unit>>(
    search: MatchesFromReader<u32, FindWalk<u32, A>, S>,
    expected: &[Found],
    error: Option<ErrorKind>,
) -> bool
where
    A::Unit: AsciiFold,
{
    are_read(search, expected, error)
}

/// As [`gives_read`], for all matches.
pub fn gives_overlapping_read<A: Automaton<u32>, S: ReadSource<A::Unit>>(
    search: MatchesFromReader<u32, OverlappingWalk<u32, A>, S>,
    expected: &[Found],
    error: Option<ErrorKind>,
) -> bool
where
    A::Unit: AsciiFold,
{
    are_read(search, expected, error)
}

/// As [`gives_read`], for the longest match at each end.
pub fn gives_no_suffix_read<A: Automaton<u32>, S: ReadSource<A::Unit>>(
    search: MatchesFromReader<u32, NoSuffixWalk<u32, A>, S>,
    expected: &[Found],
    error: Option<ErrorKind>,
) -> bool
where
    A::Unit: AsciiFold,
{
    are_read(search, expected, error)
}

/// As [`gives_read`], for a leftmost search.
pub fn gives_leftmost_read<
    A: Automaton<u32>,
    ALLOC: Allocator,
    S: BlockSource<A::Unit>,
    B: Allocator,
>(
    search: LeftmostFromReader<'_, u32, A, ALLOC, S, B>,
    expected: &[Found],
    error: Option<ErrorKind>,
) -> bool
where
    A::Unit: BlockUnit,
{
    are_read(search, expected, error)
}

/// Whether a search of the bytes of a slice in turn gives the expected matches, in this order.
fn are_from<W: Stepwise<u32, Unit = u8>>(
    search: MatchesFrom<u32, W, source::Bytes<Copied<Iter<'_, u8>>>>,
    expected: &[Found],
) -> bool
    requires { search.read ≡ [] }
{
    are(search, expected)
}

/// Whether a search of the bytes of a slice in turn, for matches that do not overlap, gives the
/// expected matches, in this order.
pub fn gives_from<A: Automaton<u32, Unit = u8>>(
    search: MatchesFrom<u32, FindWalk<u32, A>, source::Bytes<Copied<Iter<'_, u8>>>>,
    expected: &[Found],
) -> bool
    requires { search.read ≡ [] }
{
    are_from(search, expected)
}

/// As [`gives_from`], for all matches.
pub fn gives_overlapping_from<A: Automaton<u32, Unit = u8>>(
    search: MatchesFrom<u32, OverlappingWalk<u32, A>, source::Bytes<Copied<Iter<'_, u8>>>>,
    expected: &[Found],
) -> bool
    requires { search.read ≡ [] }
{
    are_from(search, expected)
}

/// As [`gives_from`], for the longest match at each end.
pub fn gives_no_suffix_from<A: Automaton<u32, Unit = u8>>(
    search: MatchesFrom<u32, NoSuffixWalk<u32, A>, source::Bytes<Copied<Iter<'_, u8>>>>,
    expected: &[Found],
) -> bool
    requires { search.read ≡ [] }
{
    are_from(search, expected)
}

/// Whether a search of the bytes of a text in turn gives the expected matches, in this order.
fn are_from_text<W: Stepwise<u32, Unit = char>>(
    search: MatchesFrom<u32, W, Decoded<str::Bytes<'_>>>,
    text: &str,
    expected: &[Found],
) -> bool
    requires read { search.read ≡ [] }
    requires source { bytes_rest search.source ≡ text.now }
{
    let _len = text.len();
    are(search, expected)
}

/// Whether a search of the bytes of a text in turn, for matches that do not overlap, gives the
/// expected matches, in this order.
pub fn gives_from_text<A: Automaton<u32, Unit = char>>(
    search: MatchesFrom<u32, FindWalk<u32, A>, Decoded<str::Bytes<'_>>>,
    text: &str,
    expected: &[Found],
) -> bool
    requires read { search.read ≡ [] }
    requires source { bytes_rest search.source ≡ text.now }
{
    are_from_text(search, text, expected)
}

/// As [`gives_from_text`], for all matches.
pub fn gives_overlapping_from_text<A: Automaton<u32, Unit = char>>(
    search: MatchesFrom<u32, OverlappingWalk<u32, A>, Decoded<str::Bytes<'_>>>,
    text: &str,
    expected: &[Found],
) -> bool
    requires read { search.read ≡ [] }
    requires source { bytes_rest search.source ≡ text.now }
{
    are_from_text(search, text, expected)
}

/// As [`gives_from_text`], for the longest match at each end.
pub fn gives_no_suffix_from_text<A: Automaton<u32, Unit = char>>(
    search: MatchesFrom<u32, NoSuffixWalk<u32, A>, Decoded<str::Bytes<'_>>>,
    text: &str,
    expected: &[Found],
) -> bool
    requires read { search.read ≡ [] }
    requires source { bytes_rest search.source ≡ text.now }
{
    are_from_text(search, text, expected)
}

/// Whether these are the expected values, in this order.
pub fn are_values<I: Iterator<Item = u32> + Drop>(values: I, expected: &[u32]) -> bool
    requires can { I.can_next values }
    requires ends { IsFinite (I.remaining values) }
{
    let mut left = expected.iter();
    for value in values {
        if left.next() != Some(&value) {
            return false;
        }
    }
    left.len() == 0
}

/// Whether a search returns the expected matches, in this order. It is dropped at any other.
fn are_given<W: Stepwise<u32>, H: Haystack<W::Unit>, F: Filter<W::Unit, H>>(
    mut search: Matches<u32, W, H, F>,
    expected: &[Found],
) -> bool {
    let mut expected = Expected::new(expected, &[]);
    expected.take_all(&mut search);
    search.turns_are_bounded();
    expected.is_met()
}

/// Whether a search for matches that do not overlap returns the expected matches, in this order. It
/// is dropped at any other.
pub fn gives<A: Automaton<u32>, H: Haystack<A::Unit>, F: Filter<A::Unit, H>>(
    search: Matches<u32, FindWalk<u32, A>, H, F>,
    expected: &[Found],
) -> bool {
    are_given(search, expected)
}

/// As [`gives`], for all matches.
pub fn gives_overlapping<A: Automaton<u32>, H: Haystack<A::Unit>, F: Filter<A::Unit, H>>(
    search: Matches<u32, OverlappingWalk<u32, A>, H, F>,
    expected: &[Found],
) -> bool {
    are_given(search, expected)
}

/// As [`gives`], for the longest match at each end.
pub fn gives_no_suffix<A: Automaton<u32>, H: Haystack<A::Unit>, F: Filter<A::Unit, H>>(
    search: Matches<u32, NoSuffixWalk<u32, A>, H, F>,
    expected: &[Found],
) -> bool {
    are_given(search, expected)
}

/// Whether a leftmost search returns the expected matches, in this order. It is dropped at any
/// other.
pub fn gives_leftmost<A: Automaton<u32>, H: Haystack<A::Unit>, F: Filter<A::Unit, H>>(
    mut search: LeftmostMatches<u32, A, H, F>,
    expected: &[Found],
) -> bool {
    let mut expected = Expected::new(expected, &[]);
    expected.take_all(&mut search);
    search.turns_are_bounded();
    expected.is_met()
}

/// Lets a stepper consume units, and takes its matches and its depth after each. It stops at the first
/// unexpected one.
pub fn step_over<A: Automaton<u32>>(
    stepper: &mut FindStepper<'_, u32, A>,
    units: &[A::Unit],
    expected: &mut Expected<'_>,
)
where
    A::Unit: StepUnit,
    ensures automaton { stepper.new.automaton ≡ stepper.old.automaton }
{
    for place in 0..units.len() {
        if !expected.holds || stepper.place() > FARTHEST {
            expected.holds = false;
            return;
        }
        let unit = units[place];
        unit.in_range();
        stepper.consume(unit);
        expected.take_depth(stepper.depth());
        expected.take_at(stepper.place(), stepper.matches().into_iter());
    }
}

/// Whether a fresh stepper reports exactly these matches and depths, before the first unit and
/// after each.
pub fn are_stepped<A: Automaton<u32>>(
    mut stepper: FindStepper<'_, u32, A>,
    units: &[A::Unit],
    expected: &[Found],
    depths: &[u32],
) -> bool
where
    A::Unit: StepUnit,
{
    let mut expected = Expected::new(expected, depths);
    expected.take_depth(stepper.depth());
    expected.take_all(stepper.matches().into_iter());
    step_over(&mut stepper, units, &mut expected);
    stepper.turns_are_bounded();
    expected.is_met()
}

/// As [`step_over`], over all matches.
pub fn step_overlapping_over<A: Automaton<u32>>(
    stepper: &mut FindOverlappingStepper<'_, u32, A>,
    units: &[A::Unit],
    expected: &mut Expected<'_>,
)
where
    A::Unit: StepUnit,
    ensures automaton { stepper.new.automaton ≡ stepper.old.automaton }
{
    for place in 0..units.len() {
        if !expected.holds || stepper.place() > FARTHEST {
            expected.holds = false;
            return;
        }
        let unit = units[place];
        unit.in_range();
        stepper.consume(unit);
        expected.take_depth(stepper.depth());
        expected.take_at(stepper.place(), stepper.matches());
    }
}

/// As [`are_stepped`], over all matches.
pub fn are_stepped_overlapping<A: Automaton<u32>>(
    mut stepper: FindOverlappingStepper<'_, u32, A>,
    units: &[A::Unit],
    expected: &[Found],
    depths: &[u32],
) -> bool
where
    A::Unit: StepUnit,
{
    let mut expected = Expected::new(expected, depths);
    expected.take_depth(stepper.depth());
    expected.take_all(stepper.matches());
    step_overlapping_over(&mut stepper, units, &mut expected);
    stepper.turns_are_bounded();
    expected.is_met()
}

/// Lets a fresh stepper consume units as [`step_over`] does, and returns where it stands.
pub fn stand_after<A: Automaton<u32>>(
    mut stepper: FindStepper<'_, u32, A>,
    units: &[A::Unit],
    expected: &mut Expected<'_>,
) -> FindStanding
where
    A::Unit: StepUnit,
    ensures { IsFindStanding A.Unit.width A.sees stepper.entry.automaton result }
{
    expected.take_all(stepper.matches().into_iter());
    step_over(&mut stepper, units, expected);
    stepper.into_standing()
}

/// As [`stand_after`], over all matches.
pub fn stand_overlapping_after<A: Automaton<u32>>(
    mut stepper: FindOverlappingStepper<'_, u32, A>,
    units: &[A::Unit],
    expected: &mut Expected<'_>,
) -> OverlappingStanding
where
    A::Unit: StepUnit,
    ensures { IsOverlappingStanding A.Unit.width A.sees stepper.entry.automaton result }
{
    expected.take_all(stepper.matches());
    step_overlapping_over(&mut stepper, units, expected);
    stepper.into_standing()
}

/// Lets a resumed stepper consume units as [`step_over`] does.
pub fn step_on<A: Automaton<u32>>(
    mut stepper: FindStepper<'_, u32, A>,
    units: &[A::Unit],
    expected: &mut Expected<'_>,
)
where
    A::Unit: StepUnit,
{
    step_over(&mut stepper, units, expected);
}

/// As [`step_on`], over all matches.
pub fn step_overlapping_on<A: Automaton<u32>>(
    mut stepper: FindOverlappingStepper<'_, u32, A>,
    units: &[A::Unit],
    expected: &mut Expected<'_>,
)
where
    A::Unit: StepUnit,
{
    step_overlapping_over(&mut stepper, units, expected);
}
