//! The settings of the builders of both automata.

ghost use Rattle.std.specs.Prelude.{◌≡◌, true, false, None, option_map};
ghost use Rattle.daachorse_model.specs.declared.MatchKind.TheVariants.{Standard};
ghost use Rattle.daachorse_model.specs.Folding.{all_as_read};
ghost use Rattle.daachorse_patterns.specs.Documents.{documents_of};

use crate::corpus::Corpus;
use daachorse_core::MatchKind;
use daachorse_core::ascii_fold::AsciiFold;
use daachorse_core::edge_label::EdgeLabel;
use std::alloc::Allocator;

/// The settings of a builder of automata over labels of type `L`.
#[derive(Drop)]
pub struct Settings<L: EdgeLabel, A: Allocator> {
    /// The kind of searches that an automaton is built for.
    pub match_kind: MatchKind,
    /// Whether an automaton gets a prefilter, if its patterns allow one.
    pub use_prefilter: bool,
    /// The documents by which states are laid out, if there are any.
    pub corpus: Option<Corpus<L, A>>,
    /// Whether an automaton searches without regard to the case of ASCII letters.
    pub ascii_case_insensitive: bool,
}

impl<L: EdgeLabel, A: Allocator> Settings<L, A> {
    /// The default settings.
    pub fn new() -> Self
        ensures kind { result.match_kind ≡ Standard }
        ensures filter { result.use_prefilter ≡ true }
        ensures corpus { result.corpus ≡ None }
        ensures fold { result.ascii_case_insensitive ≡ false }
    {
        Settings {
            match_kind: MatchKind::Standard,
            use_prefilter: true,
            corpus: None,
            ascii_case_insensitive: false,
        }
    }
}

impl<L: AsciiFold, A: Allocator> Settings<L, A> {
    /// The same settings, with the documents folded if patterns are.
    pub fn with_documents_as_read(mut self) -> Self
        ensures kind { result.match_kind ≡ self.match_kind }
        ensures filter { result.use_prefilter ≡ self.use_prefilter }
        ensures fold { result.ascii_case_insensitive ≡ self.ascii_case_insensitive }
        ensures corpus { option_map (λ corpus. documents_of L.EdgeLabel.unit corpus) result.corpus
            ≡ option_map (λ corpus. all_as_read self.ascii_case_insensitive (documents_of L.EdgeLabel.unit corpus)) self.corpus }
    {
        if self.ascii_case_insensitive
            && let Some(corpus) = &mut self.corpus
        {
            corpus.fold();
        }
        self
    }
}
