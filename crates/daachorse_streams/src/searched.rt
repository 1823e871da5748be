//! What is searched: the states of an automaton, as they are or with rows.

ghost use Rattle.std.specs.Prelude.{◌≡◌, ◌≢◌, ◌<◌, ◌^◌, ◌++◌, Bool, IfErr, IfOk, List, ℕ, Option};
ghost use Rattle.daachorse_core.specs.Refusals.{IsOutOfMemory};
ghost use Rattle.daachorse_haystack.specs.Filters.{IsSoundFor};
ghost use Rattle.daachorse_model.specs.declared.MatchKind.{MatchKind};
ghost use Rattle.daachorse_model.specs.declared.MatchKind.TheVariants.{Standard};
ghost use Rattle.daachorse_model.specs.Dictionary.{Dictionary};
ghost use Rattle.daachorse_model.specs.Folding.{as_read};
ghost use Rattle.daachorse_model.specs.Prefixes.{HasPrefixes};
ghost use Rattle.daachorse_model.specs.Units.{size};
ghost use Rattle.daachorse_prefilter.specs.Asked.{Asked, BeginsAskingBoth};
ghost use Rattle.daachorse_prefilter.specs.Filters.{Filter as Prefilter};
ghost use Rattle.daachorse_streams.specs.Streams.{IsLongest};
ghost use Rattle.daachorse_search.specs.Views.{AutomatonView, HasDepths, HasMarks, IsLeftmostView, IsStandard};
ghost use Rattle.daachorse_streams.specs.Marked.{IsMarkedFor};

use crate::block_source::BlockUnit;
use crate::piece::Piece;
use crate::stream_marks::StreamMarks;
use daachorse_core::MatchKind;
use daachorse_core::errors::Result;
use daachorse_haystack::filter::Filter;
use daachorse_haystack::haystack::Haystack;
use daachorse_prefilter::skipping::Skipping;
use daachorse_search::automaton::Automaton;
use std::alloc::Allocator;

/// The states of an automaton with what its searches know of it.
pub trait Searched: Drop {
    /// The units of its patterns and haystacks: bytes, or characters.
    type Unit: BlockUnit;

    /// The value of a pattern.
    type Value: Copy;

    /// The allocator of its tables.
    type Alloc: Allocator + Copy;

    /// The patterns that it holds: each text with its values, in order.
    ghost dictionary: { Self → Dictionary Self.Value };

    /// The kind of its searches.
    ghost kind: { Self → MatchKind };

    /// Whether haystacks are folded.
    ghost folds: { Self → Bool };

    /// The filter, if it has one.
    ghost filter: { Self → Option Prefilter };

    /// The buckets of its patterns, if it has some.
    ghost buckets: { Self → Option (List ℕ) };

    /// The depths of the states of its standard searches, if they are cached.
    ghost depths: { Self → List ℕ };

    /// What leftmost streams see of its states.
    ghost view: { Self → AutomatonView Self.Value };

    /// Returns the kind of its searches.
    fn match_kind(&self) -> MatchKind
        ensures { result ≡ kind self.now };

    /// Returns whether haystacks are folded.
    fn is_ascii_case_insensitive(&self) -> bool
        ensures { result ≡ folds self.now };

    /// Returns the number of states: one for each prefix of a pattern, the empty one included.
    fn num_states(&self) -> usize
        ensures { HasPrefixes (dictionary self.now) result };

    /// The filter for a new search of what a reader gives.
    fn skipping<'s>(&'s self) -> Skipping<'s, Self::Alloc>
        ensures asks { BeginsAskingBoth (buckets self.entry.now) (filter self.entry.now) result }
        ensures sound { IsSoundFor (Self.Unit.passes result) (dictionary self.entry.now) };

    /// Returns the allocator of its tables.
    fn allocator(&self) -> Self::Alloc;

    /// Returns the number of bytes of the longest pattern, and 0 if there is none.
    fn longest_pattern(&self) -> Result<usize>
        ensures ok { IfOk result (IsLongest Self.Unit.EdgeLabel.width (dictionary self.now)) }
        ensures err { IfErr result IsOutOfMemory };

    /// Makes what the leftmost streams over it share.
    fn stream_marks(&self, alloc: Self::Alloc) -> Result<StreamMarks<Self::Alloc>>
        ensures ok { IfOk result (IsMarkedFor Self.Unit.EdgeLabel.width (view self.now)) }
        ensures err { IfErr result IsOutOfMemory };

    // Leftmost streams see its patterns.
    ghost view_content: { (s : Self) → (view s).content ≡ dictionary s };
}

/// Lends what the searches of a haystack go through.
pub trait Lends<'a>: Searched {
    /// A haystack as it is given: a slice of bytes, or a string.
    type Text: Piece;

    /// A haystack as it is read.
    type Haystack: Haystack<Self::Unit>;

    /// The filter of a search.
    type Filter: Filter<Self::Unit, Self::Haystack>;

    /// The view of standard searches.
    type Standard: Automaton<Self::Value, Unit = Self::Unit>;

    /// The view of leftmost searches.
    type Leftmost: Automaton<Self::Value, Unit = Self::Unit>;

    /// The view of leftmost streams.
    type Marked: Automaton<Self::Value, Unit = Self::Unit>;

    /// The units of a haystack.
    ghost units: { Self.Text → List ℕ };

    /// What a filter asks.
    ghost asked: { Self.Filter → Asked };

    /// What standard searches see.
    ghost states: { Self → Self.Standard };

    /// What leftmost searches see.
    ghost leftmost_states: { Self → Self.Leftmost };

    /// What leftmost streams go through.
    ghost marked_states: { Self → Self.Marked };

    /// A haystack as it is read.
    fn haystack(&self, text: Self::Text) -> Self::Haystack
        ensures units { Self.Haystack.rest result ≡ as_read (Self.folds self.now) (units text) }
        ensures fits { size Self.Unit.EdgeLabel.width (Self.Haystack.rest result) < 2 ^ 64 }
        ensures cuts { (front back : List ℕ) → as_read (Self.folds self.now) (units text) ≡ front ++ back
            → Self.Text.may_cut text (size Self.Unit.EdgeLabel.width front) };

    /// Lends the filter for a new search of a haystack.
    fn lend_filter(&'a self) -> Self::Filter
        ensures asks { BeginsAskingBoth (Self.buckets self.entry.now) (Self.filter self.entry.now) (asked result) }
        ensures sound { IsSoundFor (Self.Filter.passes result) (Self.dictionary self.entry.now) };

    /// Lends the view of standard searches.
    fn standard(&'a self) -> Self::Standard
        requires { Self.kind self.now ≡ Standard }
        ensures lends { result ≡ states self.entry.now }
        ensures content { (Self.Standard.sees result).content ≡ Self.dictionary self.entry.now }
        ensures links { IsStandard (Self.Standard.sees result) };

    /// Lends the depths of the states of that view, if they are cached.
    fn depths(&'a self) -> &'a [u32]
        ensures depths { result.now ≡ Self.depths self.entry.now }
        ensures right { HasDepths (Self.Standard.sees (states self.entry.now)) result.now };

    /// Lends the view of leftmost searches.
    fn leftmost(&'a self) -> Self::Leftmost
        requires { Self.kind self.now ≢ Standard }
        ensures lends { result ≡ leftmost_states self.entry.now }
        ensures content { (Self.Leftmost.sees result).content ≡ Self.dictionary self.entry.now }
        ensures links { IsLeftmostView (Self.Leftmost.sees result) };

    /// Lends the view of leftmost streams.
    fn marked(&'a self) -> Self::Marked
        requires { Self.kind self.now ≢ Standard }
        ensures lends { result ≡ marked_states self.entry.now }
        ensures content { (Self.Marked.sees result).content ≡ Self.dictionary self.entry.now }
        ensures marks { (marks : List Bool) → HasMarks (Self.view self.entry.now) marks → HasMarks (Self.Marked.sees result) marks }
        ensures links { IsLeftmostView (Self.Marked.sees result) };

    // The views have its patterns.
    ghost content: { (s : Self) → (Self.Standard.sees (states s)).content ≡ Self.dictionary s };

    ghost leftmost_content: { (s : Self) → (Self.Leftmost.sees (leftmost_states s)).content ≡ Self.dictionary s };

    // No link is dead in a standard search, and in a leftmost one those that the patterns say.
    ghost alive: { (s : Self) → Self.kind s ≡ Standard → IsStandard (Self.Standard.sees (states s)) };

    ghost dead: { (s : Self) → Self.kind s ≢ Standard → IsLeftmostView (Self.Leftmost.sees (leftmost_states s)) };
}
