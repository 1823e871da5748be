//! An automaton over characters with rows of the states near its root, for faster searches.

ghost use Rattle.std.specs.Prelude.{◌≡◌, IfOk, IfSome, IfErr, IsSortedByKey, encode_utf8_all};
ghost use Rattle.std.specs.Cmp.Lexicographic.{slice_cmp};
ghost use Rattle.std.specs.Ordering.{nat_cmp};
ghost use Rattle.daachorse_core.specs.Refusals.{IsOutOfMemory};
ghost use Rattle.daachorse_model.specs.declared.MatchKind.TheVariants.{Standard};
ghost use Rattle.daachorse_model.specs.Prefixes.{IsListing};
ghost use Rattle.daachorse_prefilter.specs.Buckets.{MayTell};
ghost use Rattle.daachorse_charwise_states.specs.StateRows.{HasFewCodes, HasNoRoom};
ghost use Rattle.daachorse_charwise_states.specs.Texts.{AreTexts};
ghost use Rattle.daachorse.specs.charwise.Accelerated.{HasRowsNear, IsAllRowsUnlessLarge, MayTellBuckets};
ghost use Rattle.daachorse.specs.charwise.Automata.{dictionary_of, kind_of, states_of};

use crate::charwise::iter::PatternIterator;
use crate::charwise::{AhoCorasick, CharwiseDoubleArrayAhoCorasick, states};
use daachorse_charwise_states::for_rows::ForRows;
use daachorse_charwise_states::strings::first_ten;
use daachorse_core::MatchKind;
use daachorse_core::errors::{DaachorseError, Result};
use daachorse_haystack::text::Text;
use daachorse_prefilter::buckets::{Buckets, BucketsBuilder, Filling};
use daachorse_prefilter::skipping::Skipping;
pub use daachorse_rows::refused::AccelerateError;
use daachorse_rows::rows::Rows;
use daachorse_rows::view::RowView;
use daachorse_streams::searched::{Lends, Searched};
use daachorse_streams::stream_marks::StreamMarks;
use std::alloc::{Allocator, Global};
use std::marker::Model;

/// The view of states with rows for standard searches.
pub type RowedStandard<'a, V> = RowView<'a, V, states::StandardForRows<'a, V>>;

/// The view of states with rows for leftmost searches.
pub type RowedLeftmost<'a, V> = RowView<'a, V, states::LeftmostForRows<'a, V>>;

/// An automaton with rows of the states near its root. Searches find the same matches.
///
/// A row gives for each ASCII character, and each other that is among the 510 most frequent of the
/// patterns, the state at which the whole step ends, so that a search takes one look for each such
/// character while it stays in rows, and follows no failure link. If no step leaves the rows, each
/// standard search and stepper takes at most one turn for each character. Steppers
/// report no depths.
pub type Accelerated<V, A = Global> = AhoCorasick<Rowed<V, A>>;

/// An automaton, the rows of its states near the root, and the buckets of its patterns, if there
/// are some.
#[derive(Drop)]
pub struct Rowed<V: Copy, A: Allocator = Global> {
    automaton: CharwiseDoubleArrayAhoCorasick<V, A>,
    rows: Rows<A>,
    // Asked by searches in a text ahead of the prefilter.
    buckets: Option<Buckets<A>>,
}

impl<V: Copy, A: Allocator> Model for Rowed<V, A> {
    ghost use Rattle.daachorse.specs.charwise.Accelerated.{Accelerated};
    ghost use Rattle.daachorse_charwise_states.specs.StateRows.{HasRows};
    ghost use Rattle.daachorse_prefilter.specs.Buckets.{MayTell};
    ghost use Rattle.daachorse.specs.charwise.Automata.{dictionary_of};
    ghost use Rattle.std.specs.Prelude.{encode_utf8_all};

    ghost Value = { Accelerated V };

    ghost view = { λ s. record { automaton = s.automaton; rows = s.rows; buckets = s.buckets } };

    ghost invariant = { λ s. HasRows s.automaton.parts s.rows × MayTell encode_utf8_all (dictionary_of s.automaton) s.buckets };
}

impl<V: Copy, A: Allocator + Copy> CharwiseDoubleArrayAhoCorasick<V, A> {
    /// Makes rows of the states near the root, for faster searches.
    ///
    /// Each prefix of at most two characters that are ASCII or among the 510 most frequent of the
    /// patterns gets a row. If there is no room for these, or an allocation fails, the error has
    /// the automaton. Longer prefixes get rows while there is room. A row has three slots and one
    /// for each of these characters, rounded up to a multiple of four, and the 126,336 slots are at
    /// least 196 rows.
    ///
    /// Use it to search much text for up to some thousand words of few different characters. With
    /// many, as in 1,000 Japanese words, there is no room (`docs/SPEED.md`).
    ///
    /// With a prefilter and no pattern of less than three bytes, searches in a text also ask eight
    /// buckets of patterns, unless the shortest has six bytes and there are fewer than 1,024
    /// states. The rows take at most 256 KiB and two bytes an element, and the buckets 64 KiB.
    /// It takes time linear in the automaton's size, however many patterns it has.
    pub fn accelerate(self, alloc: A) -> Result<Accelerated<V, A>, AccelerateError<Self>>
        ensures automaton { IfOk result (λ a. a.automaton ≡ self) }
        ensures covered { IfOk result HasRowsNear }
        ensures stays { IfOk result (λ a. kind_of a.automaton ≡ Standard → HasFewCodes (states_of a.automaton) → IsAllRowsUnlessLarge a) }
        ensures told { IfOk result MayTellBuckets }
        ensures back { IfErr result (λ e. e.automaton ≡ self) }
        ensures none { IfErr result (λ e. e.refusal ≡ None → HasNoRoom (states_of self)) }
        ensures err { IfErr result (λ e. IfSome e.refusal IsOutOfMemory) }
    {
        let rows = match self.searched.states.rows(alloc) {
            Ok(Some(rows)) => rows,
            Ok(None) => return Err(self.refused(None)),
            Err(error) => return Err(self.refused(Some(error))),
        };
        match self.buckets(alloc) {
            Ok(buckets) => Ok(AhoCorasick {
                searched: Rowed {
                    automaton: self,
                    rows,
                    buckets,
                },
            }),
            Err(error) => Err(self.refused(Some(error))),
        }
    }

    fn refused(self, refusal: Option<DaachorseError>) -> AccelerateError<Self>
        ensures automaton { result.automaton ≡ self }
        ensures refusal { result.refusal ≡ refusal }
    {
        AccelerateError {
            automaton: self,
            refusal,
        }
    }

    /// The buckets of the patterns, if there is a prefilter and they are ahead of it.
    fn buckets(&self, alloc: A) -> Result<Option<Buckets<A>>>
        ensures told { IfOk result (MayTell encode_utf8_all (dictionary_of self.now)) }
        ensures err { IfErr result IsOutOfMemory }
    {
        if self.searched.filter.is_none() {
            return Ok(None);
        }
        let mut filling = self.filling(alloc)?;
        if !filling.is_worth(self.num_states()) {
            return Ok(None);
        }
        let mut builder = BucketsBuilder::new(alloc)?;
        let mut texts = self.searched.states.texts(alloc)?;
        'texts: while texts.advance()? {
            // Buckets read ten bytes, and take all lengths from nine on alike.
            let beginning = first_ten(alloc, texts.text())?;
            let text = beginning.as_str();
            let bucket = filling.next_bucket(text.len());
            builder.add(text.as_bytes(), bucket);
        }
        Ok(Some(builder.close()))
    }

    /// How many texts are patterns of each length.
    fn filling(&self, alloc: A) -> Result<Filling>
        ensures err { IfErr result IsOutOfMemory }
    {
        let mut filling = Filling::new();
        let mut texts = self.searched.states.texts(alloc)?;
        'texts: while texts.advance()? {
            let beginning = first_ten(alloc, texts.text())?;
            filling.count(beginning.as_str().len());
        }
        Ok(filling)
    }
}

impl<V: Copy, A: Allocator + Copy> Accelerated<V, A> {
    /// As [`CharwiseDoubleArrayAhoCorasick::iter`].
    pub fn iter<'s>(&'s self, alloc: A) -> Result<PatternIterator<'s, V, A>>
        ensures ok { IfOk result (λ patterns. IsListing (dictionary_of self.entry.now.automaton) patterns) }
        ensures texts { IfOk result AreTexts }
        ensures by_bytes { IfOk result (IsSortedByKey (λ r. encode_utf8_all r.0) (slice_cmp nat_cmp)) }
        ensures err { IfErr result IsOutOfMemory }
    {
        self.automaton().iter(alloc)
    }
}

impl<V: Copy, A: Allocator> Accelerated<V, A> {
    /// Returns the automaton without its rows.
    pub fn into_automaton(self) -> CharwiseDoubleArrayAhoCorasick<V, A>
        ensures { result ≡ self.automaton }
    {
        let Rowed {
            automaton,
            rows: _rows,
            buckets: _buckets,
        } = self.searched;
        automaton
    }

    /// Returns the automaton whose states have the rows.
    pub fn automaton(&self) -> &CharwiseDoubleArrayAhoCorasick<V, A>
        ensures { result.now ≡ self.now.automaton }
    {
        &self.searched.automaton
    }
}

impl<V: Copy, A: Allocator + Copy> Searched for Rowed<V, A> {
    ghost use Rattle.std.specs.Prelude.{[], refl};
    ghost use Rattle.daachorse_charwise_states.specs.Valid.{sees};
    ghost use Rattle.daachorse.specs.charwise.Automata.{dictionary_of, kind_of, states_of};

    type Unit = char;

    type Value = V;

    type Alloc = A;

    ghost dictionary = { λ a. dictionary_of a.automaton };

    ghost kind = { λ a. kind_of a.automaton };

    ghost folds = { λ a. a.automaton.folds };

    ghost filter = { λ a. a.automaton.filter };

    ghost buckets = { λ a. a.buckets };

    ghost depths = { λ a. [] };

    ghost view = { λ a. sees (states_of a.automaton) };

    fn match_kind(&self) -> MatchKind {
        self.automaton.match_kind()
    }

    #[inline(always)]
    fn is_ascii_case_insensitive(&self) -> bool {
        self.automaton.is_ascii_case_insensitive()
    }

    fn num_states(&self) -> usize {
        self.automaton.num_states()
    }

    #[inline(always)]
    fn skipping<'s>(&'s self) -> Skipping<'s, A> {
        self.automaton
            .searched()
            .skipping()
            .with_buckets(self.buckets.as_ref())
    }

    fn allocator(&self) -> A {
        self.automaton.searched().allocator()
    }

    fn longest_pattern(&self) -> Result<usize> {
        self.automaton.searched().longest_pattern()
    }

    fn stream_marks(&self, alloc: A) -> Result<StreamMarks<A>> {
        self.automaton.searched().stream_marks(alloc)
    }

    ghost view_content = { λ s. refl };
}

impl<'a, V: Copy + 'a, A: Allocator + Copy + 'a> Lends<'a> for Rowed<V, A> {
    ghost use Rattle.std.specs.Prelude.{refl};
    ghost use Rattle.std.specs.Str.{chars};
    ghost use Rattle.daachorse.specs.charwise.Accelerated.{rowed_states};
    ghost use Rattle.daachorse.specs.charwise.Automata.{states_of};
    ghost use Rattle.daachorse_charwise_states.proofs.DeadLaws.{alive, is_leftmost_automaton};

    type Text = &'a str;

    type Haystack = Text<'a>;

    type Filter = Skipping<'a, A>;

    type Standard = RowedStandard<'a, V>;

    type Leftmost = RowedLeftmost<'a, V>;

    type Marked = states::Leftmost<'a, V>;

    ghost units = { λ text. chars text.now };

    ghost asked = { λ filter. filter };

    ghost states = { λ a. rowed_states a };

    ghost leftmost_states = { λ a. rowed_states a };

    ghost marked_states = { λ a. states_of a.automaton };

    #[inline(always)]
    fn haystack(&self, text: &'a str) -> Text<'a> {
        self.automaton.searched().haystack(text)
    }

    #[inline(always)]
    fn lend_filter(&'a self) -> Skipping<'a, A> {
        self.skipping()
    }

    #[inline(always)]
    fn standard(&'a self) -> RowedStandard<'a, V> {
        self.rows
            .view(ForRows::new(self.automaton.searched().standard()))
    }

    /// None: a stepper over rows stands at a cell, and not at a state.
    #[inline(always)]
    fn depths(&'a self) -> &'a [u32] {
        &[]
    }

    #[inline(always)]
    fn leftmost(&'a self) -> RowedLeftmost<'a, V> {
        self.rows
            .view(ForRows::new(self.automaton.searched().leftmost()))
    }

    /// The states without rows, which the marks count.
    #[inline(always)]
    fn marked(&'a self) -> states::Leftmost<'a, V> {
        self.automaton.searched().marked()
    }

    ghost content = { λ s. refl };

    ghost leftmost_content = { λ s. refl };

    ghost alive = { λ s kind. alive (states_of s.automaton) kind };

    ghost dead = { λ s kind. is_leftmost_automaton (states_of s.automaton) kind };
}
