//! The automaton over bytes.

ghost use Rattle.std.specs.Prelude.{◌≡◌, ◌⊎◌, ℕ, false, true, List, [], IfOk, IfErr, OnOk, OnErr, length, map, max};
ghost use Rattle.std.specs.Iterator.{IsFinite};
ghost use Rattle.std.specs.Iterator.Runs.{WholeRun};
ghost use Rattle.std.specs.List.{fold};
ghost use Rattle.daachorse_core.specs.Refusals.{IsOutOfMemory};
ghost use Rattle.daachorse_model.specs.declared.MatchKind.TheVariants.{Standard};
ghost use Rattle.daachorse_model.specs.Dictionary.{registrations_of};
ghost use Rattle.daachorse_model.specs.Prefixes.{IsListing};
ghost use Rattle.daachorse.specs.bytewise.Automata.{HasDepths, MayFold, MayHaveFilter, dictionary_of, kind_of, states_of};
ghost use Rattle.daachorse.specs.bytewise.Building.{IsBuildRefusal, IsBuiltOf, IsBuiltWith, IsRefusalOf, kept_filter};

pub mod accelerated;
pub mod builder;
pub mod iter;
mod lookup;
mod searched;
pub mod states;
mod written;

pub use crate::automaton::AhoCorasick;
pub use crate::bytewise::accelerated::{AccelerateError, Accelerated};
pub use crate::bytewise::builder::DoubleArrayAhoCorasickBuilder;
use crate::bytewise::iter::PatternIterator;
use crate::bytewise::states::States;
use daachorse_core::errors::Result;
use daachorse_prefilter::prefilter::{Prefilter, clone_filter};
use std::alloc::{Allocator, Global};
use std::fmt;
use std::hash::{Hash, Hasher};
use std::marker::Model;

/// An automaton that finds many patterns in bytes at once.
///
/// It is that of Aho and Corasick (1975), a trie of the patterns with failure links, in a double
/// array laid out as by Kanda, Akabe and Oda (arXiv 2207.13870). Its units are bytes, and the
/// places of a match count bytes. An element takes 12 bytes, and an output of a `u32` 12.
///
/// Searches and steppers need [`MatchKind::Standard`], but [`Self::leftmost_find_iter`] needs
/// another kind, and [`Self::find`], [`Self::is_match`], [`Self::replace_all`] and lookups, as
/// [`Self::get`], take any. Those alone take memory that are passed an allocator. A standard
/// search takes at most two turns, looks at one state, for each byte.
///
/// Threads can share an automaton: it is `Send` and `Sync` if its values and its allocator are.
pub type DoubleArrayAhoCorasick<V, A = Global> = AhoCorasick<Plain<V, A>>;

/// The states of an automaton, with its options, its filter and its depths.
#[derive(Drop)]
pub struct Plain<V: Copy, A: Allocator = Global> {
    states: States<V, A>,
    // Whether A to Z of a haystack are read as a to z. The patterns then have no A to Z.
    folds: bool,
    // Passes at the beginning of each pattern.
    filter: Option<Prefilter<A>>,
    // The depth of each element in bytes, or nothing.
    depths: Vec<u32, A>,
}

/// Does nothing; a call holds that threads can pass on and share a `T`.
const fn is_send_and_sync<T: Send + Sync>() {}

/// Holds that an automaton is `Send` and `Sync` if its values and its allocator are.
const fn automaton_is_send_and_sync<V: Copy + Send + Sync, A: Allocator + Send + Sync>() {
    is_send_and_sync::<DoubleArrayAhoCorasick<V, A>>();
}

impl<V: Copy, A: Allocator> Model for Plain<V, A> {
    ghost use Rattle.daachorse.specs.bytewise.Automata.{Automaton, IsKept};

    ghost Value = { Automaton V };

    ghost view = { λ a. record { parts = a.states; folds = a.folds; filter = a.filter; depths = a.depths.items } };

    ghost invariant = { λ a. IsKept a.states a.folds a.filter a.depths.items };
}

impl<V: Copy, A: Allocator + Copy> Plain<V, A> {
    /// Computes the depths.
    fn cache_depths(&mut self) -> Result<()>
        requires { kind_of self.old ≡ Standard }
        ensures states { states_of self.new ≡ states_of self.old }
        ensures folds { self.new.folds ≡ self.old.folds }
        ensures filter { self.new.filter ≡ self.old.filter }
        ensures ok { OnOk result (HasDepths self.new) }
        ensures unchanged { OnErr result (self.new ≡ self.old) }
        ensures err { IfErr result IsOutOfMemory }
    {
        prove!(self.states.kind().is_standard());
        let depths = self.states.depths(*self.depths.allocator())?;
        self.depths = depths;
        Ok(())
    }
}

impl<V: Copy, A: Allocator + Copy> DoubleArrayAhoCorasick<V, A> {
    /// Builds an automaton for the standard searches, as the default builder's
    /// [`DoubleArrayAhoCorasickBuilder::build`] does.
    pub fn new<'p, P: IntoIterator<Item = &'p [u8]>>(alloc: A, patterns: P) -> Result<Self>
    where
        P::IntoIter: Drop,
        V: TryFrom<usize>,
        V::Error: Drop,
        requires { (it : P.IntoIter) → P.into_iter_gives patterns it → P.IntoIter.can_next it × IsFinite (P.IntoIter.remaining it) }
        ensures ok { IfOk result (λ a. (it : P.IntoIter) × P.into_iter_gives patterns it
            × WholeRun P.IntoIter.next_gives it (λ p. IsBuiltOf V.try_from_gives Standard false (map (λ t. t.now) p.items) a)) }
        ensures filter { IfOk result (λ a. (it : P.IntoIter) × P.into_iter_gives patterns it
            × WholeRun P.IntoIter.next_gives it (λ p. a.filter ≡ kept_filter true (map (λ t. t.now) p.items))) }
        ensures err { IfErr result (λ e. IsOutOfMemory e ⊎ ((it : P.IntoIter) × P.into_iter_gives patterns it
            × WholeRun P.IntoIter.next_gives it (λ p. IsBuildRefusal V.try_from_gives Standard (map (λ t. t.now) p.items) e))) }
    {
        DoubleArrayAhoCorasickBuilder::new().build(alloc, patterns)
    }

    /// Builds an automaton for the standard searches, as the default builder's
    /// [`DoubleArrayAhoCorasickBuilder::build_with_values`] does.
    pub fn with_values<'p, P: IntoIterator<Item = (&'p [u8], V)>>(
        alloc: A,
        patvals: P,
    ) -> Result<Self>
    where
        P::IntoIter: Drop,
        requires { (it : P.IntoIter) → P.into_iter_gives patvals it → P.IntoIter.can_next it × IsFinite (P.IntoIter.remaining it) }
        ensures ok { IfOk result (λ a. (it : P.IntoIter) × P.into_iter_gives patvals it
            × WholeRun P.IntoIter.next_gives it (λ p. IsBuiltWith Standard false (registrations_of p.items) a)) }
        ensures filter { IfOk result (λ a. (it : P.IntoIter) × P.into_iter_gives patvals it
            × WholeRun P.IntoIter.next_gives it (λ p. a.filter ≡ kept_filter true (map (λ t. t.0.now) p.items))) }
        ensures err { IfErr result (λ e. IsOutOfMemory e ⊎ ((it : P.IntoIter) × P.into_iter_gives patvals it
            × WholeRun P.IntoIter.next_gives it (λ p. IsRefusalOf Standard (registrations_of p.items) e))) }
    {
        DoubleArrayAhoCorasickBuilder::new().build_with_values(alloc, patvals)
    }
}

impl<V: Copy, A: Allocator + Copy> DoubleArrayAhoCorasick<V, A> {
    /// An automaton of these parts, with no depths cached.
    pub(crate) fn of_states(
        alloc: A,
        states: States<V, A>,
        folds: bool,
        filter: Option<Prefilter<A>>,
    ) -> Self
        requires folded { MayFold states folds }
        requires filter { MayHaveFilter states filter }
        ensures states { states_of result ≡ states }
        ensures folds { result.folds ≡ folds }
        ensures filter { result.filter ≡ filter }
        ensures depths { result.depths ≡ [] }
    {
        AhoCorasick {
            searched: Plain {
                states,
                folds,
                filter,
                depths: Vec::new(alloc),
            },
        }
    }

    /// Computes the depth of each state in bytes, which steppers made after that report. It takes
    /// four bytes for each element. Fails only if an allocation fails.
    pub fn cache_depths(&mut self) -> Result<()>
        requires { kind_of self.old ≡ Standard }
        ensures states { states_of self.new ≡ states_of self.old }
        ensures folds { self.new.folds ≡ self.old.folds }
        ensures filter { self.new.filter ≡ self.old.filter }
        ensures ok { OnOk result (HasDepths self.new) }
        ensures unchanged { OnErr result (self.new ≡ self.old) }
        ensures err { IfErr result IsOutOfMemory }
    {
        self.searched.cache_depths()
    }

    /// Lists the patterns with their values in byte order, equal ones in order of registration.
    ///
    /// An automaton for [`MatchKind::LeftmostFirst`] holds no pattern that extends one registered
    /// earlier. Of `ab`, `a` and `ab` the list is `a`, `ab` and `ab` with the values 1, 0 and 2.
    /// The call and each item fail only if an allocation fails.
    pub fn iter<'a>(&'a self, alloc: A) -> Result<PatternIterator<'a, V, A>>
        ensures ok { IfOk result (λ patterns. IsListing (dictionary_of self.entry.now) patterns) }
        ensures err { IfErr result IsOutOfMemory }
    {
        self.searched.states.pattern_iter(alloc)
    }

    /// Returns the number of patterns that [`Self::iter`] lists, where equal ones count each.
    ///
    /// It is counted anew in each call, which fails only if an allocation fails.
    pub fn num_patterns(&self, alloc: A) -> Result<usize>
        ensures ok { IfOk result (λ n. (listed : List (List ℕ × V)) × IsListing (dictionary_of self.now) listed × (n ≡ length listed)) }
        ensures err { IfErr result IsOutOfMemory }
    {
        // A number of a fixed size might be too small, and a vector of nothing takes no memory.
        let mut counted = Vec::new(alloc);
        for item in self.iter(alloc)? {
            let (_pattern, _value) = item?;
            counted.push(())?;
        }
        Ok(counted.len())
    }

    /// Returns the number of bytes of the longest pattern that [`Self::iter`] lists, and 0 if there
    /// is none. It goes over the patterns, and fails only if an allocation fails.
    pub fn max_pattern_len(&self, alloc: A) -> Result<usize>
        ensures ok { IfOk result (λ n. (listed : List (List ℕ × V)) × IsListing (dictionary_of self.now) listed × (n ≡ fold (λ longest r. max longest (length r.0)) 0 listed)) }
        ensures err { IfErr result IsOutOfMemory }
    {
        let mut longest = 0;
        for item in self.iter(alloc)? {
            let (pattern, _value) = item?;
            longest = longest.max(pattern.len());
        }
        Ok(longest)
    }

    /// Returns a copy in memory of its own. It is no `Clone::clone`, since an allocation may fail.
    pub fn clone(&self) -> Result<Self>
        ensures same { IfOk result (λ a. a ≡ self.now) }
        ensures err { IfErr result IsOutOfMemory }
    {
        let of = &self.searched;
        let depths = Vec::from_slice(*of.depths.allocator(), &of.depths)?;
        Ok(AhoCorasick {
            searched: Plain {
                states: of.states.clone()?,
                folds: of.folds,
                filter: clone_filter(&of.filter)?,
                depths,
            },
        })
    }
}

/// Automata are equal if all that they hold is equal, the cached depths included.
impl<V: Copy + PartialEq, A: Allocator> PartialEq for DoubleArrayAhoCorasick<V, A> {
    ghost use Rattle.daachorse_bytewise_states.specs.Equality.{parts_per};
    ghost use Rattle.daachorse_array.specs.Automata.{automaton_per};
    ghost use Rattle.daachorse_prefilter.specs.Equality.{filter_equiv};
    ghost use Rattle.daachorse.specs.bytewise.Automata.{automaton_eq};

    ghost eq = { automaton_eq V.eq };

    ghost laws = { automaton_per filter_equiv (parts_per V.laws) };

    fn eq(&self, other: &Self) -> bool {
        self.searched.states == other.searched.states
            && (self.searched.folds == other.searched.folds
                && (self.searched.filter == other.searched.filter
                    && self.searched.depths == other.searched.depths))
    }
}

impl<V: Copy + Eq, A: Allocator> Eq for DoubleArrayAhoCorasick<V, A> {
    ghost use Rattle.daachorse_bytewise_states.specs.Equality.{parts_equiv};
    ghost use Rattle.daachorse_array.specs.Automata.{automaton_equiv};
    ghost use Rattle.daachorse_prefilter.specs.Equality.{filter_equiv};

    ghost laws = { automaton_equiv filter_equiv (parts_equiv V.Eq.laws) };
}

impl<V: Copy + Hash, A: Allocator> Hash for DoubleArrayAhoCorasick<V, A> {
    ghost use Rattle.daachorse_bytewise_states.specs.Equality.{parts_alike};
    ghost use Rattle.daachorse_array.specs.Automata.{automaton_alike};
    ghost use Rattle.daachorse_prefilter.specs.Equality.{filter_alike};
    ghost use Rattle.daachorse.specs.bytewise.Automata.{automaton_input};

    ghost hash_input = { automaton_input V.hash_input };

    ghost respects_eq = { automaton_alike filter_alike (parts_alike V.respects_eq) };

    fn hash<H: Hasher>(&self, state: &mut H) {
        self.searched.states.hash(state);
        self.searched.folds.hash(state);
        self.searched.filter.hash(state);
        self.searched.depths.hash(state);
    }
}

/// Shows the options, the numbers of states and elements, and whether there is a prefilter.
impl<V: Copy, A: Allocator> fmt::Debug for DoubleArrayAhoCorasick<V, A> {
    fn fmt<W: fmt::Write>(&self, f: &mut fmt::Formatter<W>) -> fmt::Result {
        f.debug_struct("DoubleArrayAhoCorasick")
            .field("match_kind", &self.searched.states.kind())
            .field("ascii_case_insensitive", &self.searched.folds)
            .field("num_states", &self.searched.states.num_states())
            .field("num_elements", &self.searched.states.num_elements())
            .field("prefilter", &self.searched.filter.is_some())
            .finish()
    }
}
