//! The iterators and steppers of the automaton over bytes. `S` is the view of its states that they
//! walk through: the states themselves, or those with rows.

use crate::bytewise::states::{Leftmost, Standard, States};
use daachorse_array::prefixes::CommonPrefixes;
use daachorse_array::values::Values;
pub use daachorse_bytewise_states::patterns::PatternIterator;
use daachorse_haystack::{haystack, source};
use daachorse_prefilter::skipping::Skipping;
use daachorse_search::ending_here::EndingHere;
use daachorse_search::find::FindWalk;
use daachorse_search::leftmost::LeftmostMatches;
use daachorse_search::matches::Matches;
use daachorse_search::matches_from::MatchesFrom;
use daachorse_search::matches_from_reader::MatchesFromReader;
use daachorse_search::overlapping::{NoSuffixWalk, OverlappingWalk};
use daachorse_search::reader::ReadBytes;
use daachorse_search::{find_stepper, overlapping_stepper};
use daachorse_streams::leftmost_from_reader::LeftmostFromReader;
use daachorse_streams::{by_kind, leftmost_stream};
use std::alloc::Global;

/// The iterator of `find_iter`: non-overlapping matches in a slice, by earliest end.
pub type FindSliceIterator<'a, V, A = Global, S = Standard<'a, V>> = Matches<
    V,
    FindWalk<V, S>,
    haystack::Bytes<'a>,
    Skipping<'a, A>,
>;

/// The iterator of `find_iter_from_iter`: non-overlapping matches in the bytes of a source.
pub type FindIterator<'a, P, V, S = Standard<'a, V>> = MatchesFrom<
    V,
    FindWalk<V, S>,
    source::Bytes<P>,
>;

/// The iterator of `find_iter_from_reader`: non-overlapping matches in what a reader gives.
pub type FindReaderIterator<'a, R, V, S = Standard<'a, V>> = MatchesFromReader<
    V,
    FindWalk<V, S>,
    ReadBytes<R>,
>;

/// The iterator of `find_overlapping_iter`: all matches in a slice, by rising ends.
pub type FindOverlappingSliceIterator<'a, V, A = Global, S = Standard<'a, V>> = Matches<
    V,
    OverlappingWalk<V, S>,
    haystack::Bytes<'a>,
    Skipping<'a, A>,
>;

/// The iterator of `find_overlapping_iter_from_iter`: all matches in the bytes of a source.
pub type FindOverlappingIterator<'a, P, V, S = Standard<'a, V>> = MatchesFrom<
    V,
    OverlappingWalk<V, S>,
    source::Bytes<P>,
>;

/// The iterator of `find_overlapping_iter_from_reader`: all matches in what a reader gives.
pub type FindOverlappingReaderIterator<'a, R, V, S = Standard<'a, V>> = MatchesFromReader<
    V,
    OverlappingWalk<V, S>,
    ReadBytes<R>,
>;

/// The iterator of `find_overlapping_no_suffix_iter`: the longest match at each end in a slice.
pub type FindOverlappingNoSuffixSliceIterator<'a, V, A = Global, S = Standard<'a, V>> = Matches<
    V,
    NoSuffixWalk<V, S>,
    haystack::Bytes<'a>,
    Skipping<'a, A>,
>;

/// The iterator of `find_overlapping_no_suffix_iter_from_iter`: the longest match at each end.
pub type FindOverlappingNoSuffixIterator<'a, P, V, S = Standard<'a, V>> = MatchesFrom<
    V,
    NoSuffixWalk<V, S>,
    source::Bytes<P>,
>;

/// The iterator of `find_overlapping_no_suffix_iter_from_reader`: the longest match at each end.
pub type FindOverlappingNoSuffixReaderIterator<'a, R, V, S = Standard<'a, V>> = MatchesFromReader<
    V,
    NoSuffixWalk<V, S>,
    ReadBytes<R>,
>;

/// The iterator of `leftmost_find_iter`: non-overlapping matches in a slice, by earliest start.
pub type LeftmostFindIterator<'a, V, A = Global, S = Leftmost<'a, V>> = LeftmostMatches<
    V,
    S,
    haystack::Bytes<'a>,
    Skipping<'a, A>,
>;

/// The iterator of `matches_by_kind`: the matches of the search that the automaton's kind names.
pub type MatchesByKind<'a, V, A = Global, S = Standard<'a, V>, L = Leftmost<'a, V>> =
    by_kind::MatchesByKind<u8, V, FindWalk<V, S>, L, haystack::Bytes<'a>, Skipping<'a, A>>;

/// The iterator of `leftmost_stream_from_reader`: leftmost matches in what a reader gives.
pub type LeftmostReaderIterator<'a, R, V, B = Global, A = Global, S = Leftmost<'a, V>> =
    LeftmostFromReader<'a, V, S, B, ReadBytes<R>, A>;

/// A search for leftmost matches that is given one byte at a time.
pub type LeftmostStream<'a, V, B = Global, S = Leftmost<'a, V>> = leftmost_stream::LeftmostStream<
    'a,
    V,
    S,
    B,
>;

/// A search for non-overlapping matches that is given one byte at a time.
pub type FindStepper<'a, V, S = Standard<'a, V>> = find_stepper::FindStepper<'a, V, S>;

/// A search for all matches that is given one byte at a time.
pub type FindOverlappingStepper<'a, V, S = Standard<'a, V>> =
    overlapping_stepper::FindOverlappingStepper<'a, V, S>;

/// The iterator of the stepper's `matches`: those that end with the bytes consumed, the longest
/// first. It keeps its place while the stepper goes on.
pub type FindOverlappingStepperIterator<'a, V, S = Standard<'a, V>> = EndingHere<V, S>;

/// The iterator of `get`: the values of one pattern.
pub type ValueIterator<'a, V> = Values<'a, V>;

/// The iterator of `common_prefixes`: the patterns that begin a slice.
pub type CommonPrefixIterator<'a, V, A = Global> = CommonPrefixes<
    'a,
    V,
    States<V, A>,
    haystack::Bytes<'a>,
>;
