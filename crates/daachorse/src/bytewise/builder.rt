//! The builder of the automaton over bytes.

ghost use Rattle.std.specs.Prelude.{◌≡◌, ◌⊎◌, false, true, None, length, IfOk, IfErr, IsSomeAnd, map};
ghost use Rattle.std.specs.Iterator.{IsFinite};
ghost use Rattle.std.specs.Iterator.Runs.{WholeRun};
ghost use Rattle.std.specs.Ordering.{nat_cmp};
ghost use Rattle.daachorse_core.specs.Refusals.{IsOutOfMemory};
ghost use Rattle.daachorse_build.specs.Builders.{states_of};
ghost use Rattle.daachorse_build.specs.Counts.{LinksLeadBack};
ghost use Rattle.daachorse_build.specs.Groups.{IsProfileOf};
ghost use Rattle.daachorse_patterns.specs.Documents.{documents_of};
ghost use Rattle.daachorse_model.specs.declared.MatchKind.TheVariants.{Standard};
ghost use Rattle.daachorse_model.specs.Dictionary.{registrations_of};
ghost use Rattle.daachorse_model.specs.Folding.{all_as_read, texts_as_read};
ghost use Rattle.daachorse.specs.bytewise.Building.{IsBuildRefusal, IsBuiltOf, IsBuiltWith, IsRefusalOf, kept_filter};

use crate::bytewise::DoubleArrayAhoCorasick;
use crate::bytewise::states::States;
use daachorse_build::nfa_builder::NfaBuilder;
use daachorse_core::MatchKind;
use daachorse_core::errors::Result;
use daachorse_patterns::corpus::Corpus;
use daachorse_patterns::filter::build_filter;
use daachorse_patterns::folding::{fold_bytes, lend_bytes};
use daachorse_patterns::gathering::{gather, indexed};
use daachorse_patterns::settings::Settings;
use daachorse_patterns::trie::build_trie;
use daachorse_placement::build_helper::Profile;
use std::alloc::{Allocator, Global};
use std::marker::Model;

/// The most patterns that an automaton may hold.
const MAX_PATTERNS: usize = 0x00ff_ffff;

/// A builder of [`DoubleArrayAhoCorasick`].
#[derive(Drop)]
pub struct DoubleArrayAhoCorasickBuilder<A: Allocator = Global> {
    settings: Settings<u8, A>,
}

impl<A: Allocator> Model for DoubleArrayAhoCorasickBuilder<A> {
    ghost use Rattle.std.specs.Prelude.{ℕ};
    ghost use Rattle.daachorse_patterns.specs.declared.settings.Settings.{Settings};

    ghost Value = { Settings ℕ A };

    ghost view = { λ b. b.settings };

    ghost invariant = { λ b. Unit {0} };
}

impl<A: Allocator> Default for DoubleArrayAhoCorasickBuilder<A> {
    ghost use Rattle.std.specs.Prelude.{◌≡◌, false, true, None};
    ghost use Rattle.daachorse_model.specs.declared.MatchKind.TheVariants.{Standard};

    ghost is_default = { λ b. (b.match_kind ≡ Standard) × (b.use_prefilter ≡ true) × (b.corpus ≡ None) × (b.ascii_case_insensitive ≡ false) };

    /// The same as [`DoubleArrayAhoCorasickBuilder::new`].
    fn default() -> Self {
        Self::new()
    }
}

impl<A: Allocator> DoubleArrayAhoCorasickBuilder<A> {
    /// Returns a builder for the standard searches: case-sensitive, with a prefilter and no corpus.
    pub fn new() -> Self
        ensures kind { result.match_kind ≡ Standard }
        ensures filter { result.use_prefilter ≡ true }
        ensures corpus { result.corpus ≡ None }
        ensures folds { result.ascii_case_insensitive ≡ false }
    {
        Self {
            settings: Settings::new(),
        }
    }

    /// Sets the kind of searches that the automaton is built for.
    pub fn match_kind(mut self, kind: MatchKind) -> Self
        ensures { result ≡ record self { match_kind = kind } }
    {
        self.settings.match_kind = kind;
        self
    }

    /// Sets whether the automaton gets a prefilter, as it does by default. No match depends on it.
    ///
    /// None is kept without patterns, with one under 2 bytes, or if it would pass too often.
    pub fn use_prefilter(mut self, yes: bool) -> Self
        ensures { result ≡ record self { use_prefilter = yes } }
    {
        self.settings.use_prefilter = yes;
        self
    }

    /// Sets whether searches ignore the case of ASCII letters. They do not by default.
    ///
    /// If they do, A to Z are read as a to z in patterns, corpus and haystacks. Patterns are then
    /// held and listed in lower case, and those that differ in case alone are equal. A build takes
    /// memory for a copy of the patterns.
    pub fn ascii_case_insensitive(mut self, yes: bool) -> Self
        ensures { result ≡ record self { ascii_case_insensitive = yes } }
    {
        self.settings.ascii_case_insensitive = yes;
        self
    }
}

impl<A: Allocator + Copy> DoubleArrayAhoCorasickBuilder<A> {
    /// Sets sample haystacks, which are copied. The states that searches over them read most often
    /// are laid out closest together. No match depends on it. Fails only if an allocation fails.
    pub fn corpus<'d, D: IntoIterator<Item = &'d [u8]>>(
        mut self,
        alloc: A,
        haystacks: D,
    ) -> Result<Self>
    where
        D::IntoIter: Drop,
        requires { (it : D.IntoIter) → D.into_iter_gives haystacks it → D.IntoIter.can_next it × IsFinite (D.IntoIter.remaining it) }
        ensures kind { IfOk result (λ b. b.match_kind ≡ self.match_kind) }
        ensures filter { IfOk result (λ b. b.use_prefilter ≡ self.use_prefilter) }
        ensures folds { IfOk result (λ b. b.ascii_case_insensitive ≡ self.ascii_case_insensitive) }
        ensures copies { IfOk result (λ b. (it : D.IntoIter) × D.into_iter_gives haystacks it
            × WholeRun D.IntoIter.next_gives it (λ p. IsSomeAnd b.corpus (λ corpus. documents_of (λ u. u) corpus ≡ map (λ t. t.now) p.items))) }
        ensures err { IfErr result IsOutOfMemory }
    {
        let documents = gather(alloc, haystacks.into_iter())?;
        self.settings.corpus = Some(Corpus::copy_of(alloc, &documents)?);
        Ok(self)
    }

    /// Builds an automaton of these patterns. Pattern `i`, from 0, gets the value of the index `i`.
    ///
    /// Fails first with `InvalidConversion` if an index has no value, and then as
    /// [`Self::build_with_values`].
    pub fn build<'p, V, P: IntoIterator<Item = &'p [u8]>>(
        self,
        alloc: A,
        patterns: P,
    ) -> Result<DoubleArrayAhoCorasick<V, A>>
    where
        V: Copy + TryFrom<usize>,
        V::Error: Drop,
        P::IntoIter: Drop,
        requires { (it : P.IntoIter) → P.into_iter_gives patterns it → P.IntoIter.can_next it × IsFinite (P.IntoIter.remaining it) }
        ensures ok { IfOk result (λ a. (it : P.IntoIter) × P.into_iter_gives patterns it
            × WholeRun P.IntoIter.next_gives it (λ p. IsBuiltOf V.try_from_gives self.match_kind self.ascii_case_insensitive (map (λ t. t.now) p.items) a)) }
        ensures filter { IfOk result (λ a. (it : P.IntoIter) × P.into_iter_gives patterns it
            × WholeRun P.IntoIter.next_gives it (λ p. a.filter ≡ kept_filter self.use_prefilter (all_as_read self.ascii_case_insensitive (map (λ t. t.now) p.items)))) }
        ensures err { IfErr result (λ e. IsOutOfMemory e ⊎ ((it : P.IntoIter) × P.into_iter_gives patterns it
            × WholeRun P.IntoIter.next_gives it (λ p. IsBuildRefusal V.try_from_gives self.match_kind (all_as_read self.ascii_case_insensitive (map (λ t. t.now) p.items)) e))) }
    {
        let texts = gather(alloc, patterns.into_iter())?;
        let settings = self.settings.with_documents_as_read();
        from_texts(alloc, &settings, &texts)
    }

    /// Builds an automaton of these patterns with their values, in memory from `alloc`. Equal
    /// patterns are all kept, in order.
    ///
    /// Fails with `InvalidArgument` at a pattern of more than 4,294,967,295 bytes, and with
    /// `AutomatonScale` at one with which there are more than 4,294,967,295 distinct prefixes.
    /// After the last, fails with `AutomatonScale` for more than 16,777,215 patterns, or if more
    /// than 4,294,967,295 elements are needed; that takes more than 16,777,214 prefixes of longer
    /// patterns. Fails with `OutOfMemory` if an allocation fails.
    pub fn build_with_values<'p, V, P: IntoIterator<Item = (&'p [u8], V)>>(
        self,
        alloc: A,
        patvals: P,
    ) -> Result<DoubleArrayAhoCorasick<V, A>>
    where
        V: Copy,
        P::IntoIter: Drop,
        requires { (it : P.IntoIter) → P.into_iter_gives patvals it → P.IntoIter.can_next it × IsFinite (P.IntoIter.remaining it) }
        ensures ok { IfOk result (λ a. (it : P.IntoIter) × P.into_iter_gives patvals it
            × WholeRun P.IntoIter.next_gives it (λ p. IsBuiltWith self.match_kind self.ascii_case_insensitive (registrations_of p.items) a)) }
        ensures filter { IfOk result (λ a. (it : P.IntoIter) × P.into_iter_gives patvals it
            × WholeRun P.IntoIter.next_gives it (λ p. a.filter ≡ kept_filter self.use_prefilter (all_as_read self.ascii_case_insensitive (map (λ t. t.0.now) p.items)))) }
        ensures err { IfErr result (λ e. IsOutOfMemory e ⊎ ((it : P.IntoIter) × P.into_iter_gives patvals it
            × WholeRun P.IntoIter.next_gives it (λ p. IsRefusalOf self.match_kind (texts_as_read self.ascii_case_insensitive (registrations_of p.items)) e))) }
    {
        let patterns = gather(alloc, patvals.into_iter())?;
        let settings = self.settings.with_documents_as_read();
        from_patterns(alloc, &settings, &patterns)
    }
}

/// An automaton of these texts, each with the value of its index.
fn from_texts<V: Copy + TryFrom<usize>, A: Allocator + Copy>(
    alloc: A,
    settings: &Settings<u8, A>,
    texts: &[&[u8]],
) -> Result<DoubleArrayAhoCorasick<V, A>>
where
    V::Error: Drop,
    ensures ok { IfOk result (λ a. IsBuiltOf V.try_from_gives settings.now.match_kind settings.now.ascii_case_insensitive (map (λ t. t.now) texts.now) a) }
    ensures filter { IfOk result (λ a. a.filter ≡ kept_filter settings.now.use_prefilter (all_as_read settings.now.ascii_case_insensitive (map (λ t. t.now) texts.now))) }
    ensures err { IfErr result (IsBuildRefusal V.try_from_gives settings.now.match_kind (all_as_read settings.now.ascii_case_insensitive (map (λ t. t.now) texts.now))) }
{
    let patterns = indexed(alloc, texts)?;
    from_patterns(alloc, settings, &patterns)
}

/// An automaton of these patterns, which are folded first if the settings ignore case.
fn from_patterns<V: Copy, A: Allocator + Copy>(
    alloc: A,
    settings: &Settings<u8, A>,
    patterns: &[(&[u8], V)],
) -> Result<DoubleArrayAhoCorasick<V, A>>
    ensures ok { IfOk result (IsBuiltWith settings.now.match_kind settings.now.ascii_case_insensitive (registrations_of patterns.now)) }
    ensures filter { IfOk result (λ a. a.filter ≡ kept_filter settings.now.use_prefilter (all_as_read settings.now.ascii_case_insensitive (map (λ p. p.0.now) patterns.now))) }
    ensures err { IfErr result (IsRefusalOf settings.now.match_kind (texts_as_read settings.now.ascii_case_insensitive (registrations_of patterns.now))) }
{
    if !settings.ascii_case_insensitive {
        return from_read(alloc, settings, patterns);
    }
    let copies = fold_bytes(alloc, patterns)?;
    let folded = lend_bytes(alloc, &copies)?;
    from_read(alloc, settings, &folded)
}

/// An automaton of these patterns, which are folded already if the settings ignore case.
fn from_read<V: Copy, A: Allocator + Copy>(
    alloc: A,
    settings: &Settings<u8, A>,
    patterns: &[(&[u8], V)],
) -> Result<DoubleArrayAhoCorasick<V, A>>
    requires { texts_as_read settings.now.ascii_case_insensitive (registrations_of patterns.now) ≡ registrations_of patterns.now }
    ensures ok { IfOk result (IsBuiltWith settings.now.match_kind settings.now.ascii_case_insensitive (registrations_of patterns.now)) }
    ensures filter { IfOk result (λ a. a.filter ≡ kept_filter settings.now.use_prefilter (map (λ p. p.0.now) patterns.now)) }
    ensures err { IfErr result (IsRefusalOf settings.now.match_kind (registrations_of patterns.now)) }
{
    let kind = settings.match_kind;
    let nfa = build_trie(alloc, kind, Some(MAX_PATTERNS), patterns)?;
    let profile = profile_of(alloc, kind, &settings.corpus, &nfa)?;
    let states = States::build(alloc, kind, nfa, &profile)?;
    let filter = build_filter(alloc, settings.use_prefilter, patterns)?;
    let folds = settings.ascii_case_insensitive;
    Ok(DoubleArrayAhoCorasick::of_states(alloc, states, folds, filter))
}

/// How often searches over the corpus read each state. Standard ones step from the root by a table.
fn profile_of<V: Copy, A: Allocator + Copy>(
    alloc: A,
    kind: MatchKind,
    corpus: &Option<Corpus<u8, A>>,
    nfa: &NfaBuilder<u8, V, A>,
) -> Result<Profile<A>>
    requires { LinksLeadBack nat_cmp (states_of nfa.now) }
    ensures ok { IfOk result (IsProfileOf (length (states_of nfa.now))) }
    ensures err { IfErr result IsOutOfMemory }
{
    let Some(corpus) = corpus else {
        return Ok(Profile::new(alloc));
    };
    let dense_root = kind.is_standard();
    corpus.profile(alloc, nfa, dense_root, &|_label: u8| true)
}
