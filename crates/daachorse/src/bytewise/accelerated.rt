//! An automaton over bytes with rows of the states near its root, for faster searches.

ghost use Rattle.std.specs.Prelude.{◌≡◌, IfOk, IfSome, IfErr};
ghost use Rattle.daachorse_core.specs.Refusals.{IsOutOfMemory};
ghost use Rattle.daachorse_model.specs.declared.MatchKind.TheVariants.{Standard};
ghost use Rattle.daachorse_model.specs.Prefixes.{IsListing};
ghost use Rattle.daachorse_prefilter.specs.Buckets.{MayTell};
ghost use Rattle.daachorse_bytewise_states.specs.StateRows.{HasNoRoom};
ghost use Rattle.daachorse.specs.bytewise.Accelerated.{HasRowsNear, IsAllRowsUnlessLarge, MayTellBuckets};
ghost use Rattle.daachorse.specs.bytewise.Automata.{dictionary_of, kind_of, states_of};

use crate::bytewise::iter::PatternIterator;
use crate::bytewise::{AhoCorasick, DoubleArrayAhoCorasick, states};
use daachorse_core::MatchKind;
use daachorse_core::errors::{DaachorseError, Result};
use daachorse_haystack::haystack::Bytes;
use daachorse_prefilter::buckets::{Buckets, BucketsBuilder, Filling};
use daachorse_prefilter::skipping::Skipping;
pub use daachorse_rows::refused::AccelerateError;
use daachorse_rows::rows::Rows;
use daachorse_rows::view::RowView;
use daachorse_streams::searched::{Lends, Searched};
use daachorse_streams::stream_marks::StreamMarks;
use std::alloc::{Allocator, Global};
use std::marker::Model;

/// The view of states with rows for standard searches.
pub type RowedStandard<'a, V> = RowView<'a, V, states::Standard<'a, V>>;

/// The view of states with rows for leftmost searches.
pub type RowedLeftmost<'a, V> = RowView<'a, V, states::Leftmost<'a, V>>;

/// An automaton with rows of the states near its root. Searches find the same matches.
///
/// A row gives for each byte the state at which the whole step ends, so that a search takes one
/// look for each byte while it stays in rows, and follows no failure link. If no step leaves the
/// rows, each standard search and stepper takes at most one turn for each byte. Steppers report
/// no depths.
pub type Accelerated<V, A = Global> = AhoCorasick<Rowed<V, A>>;

/// An automaton, the rows of its states near the root, and the buckets of its patterns, if there
/// are some.
#[derive(Drop)]
pub struct Rowed<V: Copy, A: Allocator = Global> {
    automaton: DoubleArrayAhoCorasick<V, A>,
    rows: Rows<A>,
    // Asked by searches in a slice ahead of the prefilter.
    buckets: Option<Buckets<A>>,
}

impl<V: Copy, A: Allocator> Model for Rowed<V, A> {
    ghost use Rattle.daachorse.specs.bytewise.Accelerated.{Accelerated};
    ghost use Rattle.daachorse_bytewise_states.specs.StateRows.{HasRows};
    ghost use Rattle.daachorse_prefilter.specs.Buckets.{MayTell};
    ghost use Rattle.daachorse.specs.bytewise.Automata.{dictionary_of};

    ghost Value = { Accelerated V };

    ghost view = { λ s. record { automaton = s.automaton; rows = s.rows; buckets = s.buckets } };

    ghost invariant = { λ s. HasRows s.automaton.parts s.rows × MayTell (λ w. w) (dictionary_of s.automaton) s.buckets };
}

impl<V: Copy, A: Allocator + Copy> DoubleArrayAhoCorasick<V, A> {
    /// Makes rows of the states near the root, for faster searches.
    ///
    /// Each prefix of at most two bytes gets a row. If there is no room for these, or an allocation
    /// fails, the error has the automaton. Longer prefixes get rows while there is room. A row has
    /// three slots and one for each byte that occurs in patterns, rounded up to a multiple of four,
    /// and the 126,336 slots are at least 485 rows.
    ///
    /// Use it to search much text for up to some thousand words, or one thousand in a leftmost
    /// search. Tens of thousands make overlapping and leftmost searches slower (`docs/SPEED.md`).
    ///
    /// With a prefilter and no pattern of less than three bytes, searches in a slice also ask eight
    /// buckets of patterns, unless the shortest has six bytes and there are fewer than 1,024
    /// states. The rows take at most 256 KiB and two bytes an element, and the buckets 64 KiB.
    /// It takes time linear in the automaton's size, however many patterns it has.
    pub fn accelerate(self, alloc: A) -> Result<Accelerated<V, A>, AccelerateError<Self>>
        ensures automaton { IfOk result (λ a. a.automaton ≡ self) }
        ensures covered { IfOk result HasRowsNear }
        ensures stays { IfOk result (λ a. kind_of a.automaton ≡ Standard → IsAllRowsUnlessLarge a) }
        ensures told { IfOk result MayTellBuckets }
        ensures back { IfErr result (λ e. e.automaton ≡ self) }
        ensures none { IfErr result (λ e. e.refusal ≡ None → HasNoRoom (states_of self)) }
        ensures err { IfErr result (λ e. IfSome e.refusal IsOutOfMemory) }
    {
        let rows = match self.searched.states.rows(alloc) {
            Ok(Some(rows)) => rows,
            Ok(None) => return Err(self.refused(None)),
            Err(error) => return Err(self.refused(Some(error.into()))),
        };
        match self.buckets(alloc) {
            Ok(buckets) => Ok(AhoCorasick {
                searched: Rowed {
                    automaton: self,
                    rows,
                    buckets,
                },
            }),
            Err(error) => Err(self.refused(Some(error))),
        }
    }

    fn refused(self, refusal: Option<DaachorseError>) -> AccelerateError<Self>
        ensures automaton { result.automaton ≡ self }
        ensures refusal { result.refusal ≡ refusal }
    {
        AccelerateError {
            automaton: self,
            refusal,
        }
    }

    /// The buckets of the patterns, if there is a prefilter and they are ahead of it.
    fn buckets(&self, alloc: A) -> Result<Option<Buckets<A>>>
        ensures told { IfOk result (MayTell (λ w. w) (dictionary_of self.now)) }
        ensures err { IfErr result IsOutOfMemory }
    {
        if self.searched.filter.is_none() {
            return Ok(None);
        }
        let mut filling = self.filling(alloc)?;
        if !filling.is_worth(self.num_states()) {
            return Ok(None);
        }
        let mut builder = BucketsBuilder::new(alloc)?;
        let mut texts = self.searched.states.texts(alloc)?;
        'texts: while texts.advance()? {
            let text = texts.text();
            let bucket = filling.next_bucket(text.len());
            builder.add(text, bucket);
        }
        Ok(Some(builder.close()))
    }

    /// How many texts are patterns of each length.
    fn filling(&self, alloc: A) -> Result<Filling>
        ensures err { IfErr result IsOutOfMemory }
    {
        let mut filling = Filling::new();
        let mut texts = self.searched.states.texts(alloc)?;
        'texts: while texts.advance()? {
            filling.count(texts.text().len());
        }
        Ok(filling)
    }
}

impl<V: Copy, A: Allocator + Copy> Accelerated<V, A> {
    /// As [`DoubleArrayAhoCorasick::iter`].
    pub fn iter<'s>(&'s self, alloc: A) -> Result<PatternIterator<'s, V, A>>
        ensures ok { IfOk result (λ patterns. IsListing (dictionary_of self.entry.now.automaton) patterns) }
        ensures err { IfErr result IsOutOfMemory }
    {
        self.automaton().iter(alloc)
    }
}

impl<V: Copy, A: Allocator> Accelerated<V, A> {
    /// Returns the automaton without its rows.
    pub fn into_automaton(self) -> DoubleArrayAhoCorasick<V, A>
        ensures { result ≡ self.automaton }
    {
        let Rowed {
            automaton,
            rows: _rows,
            buckets: _buckets,
        } = self.searched;
        automaton
    }

    /// Returns the automaton whose states have the rows.
    pub fn automaton(&self) -> &DoubleArrayAhoCorasick<V, A>
        ensures { result.now ≡ self.now.automaton }
    {
        &self.searched.automaton
    }
}

impl<V: Copy, A: Allocator + Copy> Searched for Rowed<V, A> {
    ghost use Rattle.std.specs.Prelude.{[], refl};
    ghost use Rattle.daachorse_bytewise_states.specs.Valid.{sees};
    ghost use Rattle.daachorse.specs.bytewise.Automata.{dictionary_of, kind_of, states_of};

    type Unit = u8;

    type Value = V;

    type Alloc = A;

    ghost dictionary = { λ a. dictionary_of a.automaton };

    ghost kind = { λ a. kind_of a.automaton };

    ghost folds = { λ a. a.automaton.folds };

    ghost filter = { λ a. a.automaton.filter };

    ghost buckets = { λ a. a.buckets };

    ghost depths = { λ a. [] };

    ghost view = { λ a. sees (states_of a.automaton) };

    fn match_kind(&self) -> MatchKind {
        self.automaton.match_kind()
    }

    #[inline(always)]
    fn is_ascii_case_insensitive(&self) -> bool {
        self.automaton.is_ascii_case_insensitive()
    }

    fn num_states(&self) -> usize {
        self.automaton.num_states()
    }

    #[inline(always)]
    fn skipping<'s>(&'s self) -> Skipping<'s, A> {
        self.automaton
            .searched()
            .skipping()
            .with_buckets(self.buckets.as_ref())
    }

    fn allocator(&self) -> A {
        self.automaton.searched().allocator()
    }

    fn longest_pattern(&self) -> Result<usize> {
        self.automaton.searched().longest_pattern()
    }

    fn stream_marks(&self, alloc: A) -> Result<StreamMarks<A>> {
        self.automaton.searched().stream_marks(alloc)
    }

    ghost view_content = { λ s. refl };
}

impl<'a, V: Copy + 'a, A: Allocator + Copy + 'a> Lends<'a> for Rowed<V, A> {
    ghost use Rattle.std.specs.Prelude.{refl};
    ghost use Rattle.daachorse.specs.bytewise.Accelerated.{rowed_states};
    ghost use Rattle.daachorse.specs.bytewise.Automata.{states_of};
    ghost use Rattle.daachorse_bytewise_states.proofs.DeadLaws.{alive, is_leftmost_automaton};

    type Text = &'a [u8];

    type Haystack = Bytes<'a>;

    type Filter = Skipping<'a, A>;

    type Standard = RowedStandard<'a, V>;

    type Leftmost = RowedLeftmost<'a, V>;

    type Marked = states::Leftmost<'a, V>;

    ghost units = { λ text. text.now };

    ghost asked = { λ filter. filter };

    ghost states = { λ a. rowed_states a };

    ghost leftmost_states = { λ a. rowed_states a };

    ghost marked_states = { λ a. states_of a.automaton };

    #[inline(always)]
    fn haystack(&self, text: &'a [u8]) -> Bytes<'a> {
        self.automaton.searched().haystack(text)
    }

    #[inline(always)]
    fn lend_filter(&'a self) -> Skipping<'a, A> {
        self.skipping()
    }

    #[inline(always)]
    fn standard(&'a self) -> RowedStandard<'a, V> {
        self.rows.view(self.automaton.searched().standard())
    }

    /// None: a stepper over rows stands at a cell, and not at a state.
    #[inline(always)]
    fn depths(&'a self) -> &'a [u32] {
        &[]
    }

    #[inline(always)]
    fn leftmost(&'a self) -> RowedLeftmost<'a, V> {
        self.rows.view(self.automaton.searched().leftmost())
    }

    /// The states without rows, which the marks count.
    #[inline(always)]
    fn marked(&'a self) -> states::Leftmost<'a, V> {
        self.automaton.searched().marked()
    }

    ghost content = { λ s. refl };

    ghost leftmost_content = { λ s. refl };

    ghost alive = { λ s kind. alive (states_of s.automaton) kind };

    ghost dead = { λ s kind. is_leftmost_automaton (states_of s.automaton) kind };
}
