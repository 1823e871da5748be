//! The documents by which states are laid out, and what searches over them read of a trie.
#![tactic(auto, using(daachorse_core::proofs::Failures::failures))]

ghost use Rattle.std.specs.Prelude.{◌≡◌, [], length, map, IfOk, IfErr};
ghost use Rattle.daachorse_build.specs.Builders.{states_of};
ghost use Rattle.daachorse_build.specs.Counts.{HasCounts, LinksLeadBack};
ghost use Rattle.daachorse_build.specs.Groups.{IsProfileOf};
ghost use Rattle.daachorse_core.specs.Refusals.{IsOutOfMemory};
ghost use Rattle.daachorse_model.specs.Folding.{folded};
ghost use Rattle.daachorse_patterns.specs.Documents.{documents_of};

use crate::pattern::Pattern;
use daachorse_build::nfa_builder::NfaBuilder;
use daachorse_core::ascii_fold::AsciiFold;
use daachorse_core::edge_label::EdgeLabel;
use daachorse_core::errors::Result;
use daachorse_placement::build_helper::Profile;
use std::alloc::Allocator;

/// Copies of documents, as lists of labels.
#[derive(Drop)]
pub struct Corpus<L: EdgeLabel, A: Allocator> {
    documents: Vec<Vec<L, A>, A>,
}

impl<L: EdgeLabel, A: Allocator + Copy> Corpus<L, A> {
    /// Copies the documents. Fails if an allocation does.
    pub fn copy_of<P: Pattern<L>>(alloc: A, documents: &[P]) -> Result<Self>
        ensures ok { IfOk result (λ corpus. documents_of L.unit corpus ≡ map P.units documents.now) }
        ensures err { IfErr result IsOutOfMemory }
    {
        let mut buffer = Vec::new(alloc);
        let mut copies = Vec::with_capacity(alloc, documents.len())?;
        for document in documents {
            let labels = document.labels(&mut buffer)?;
            copies.push(Vec::from_slice(alloc, labels)?)?;
        }
        Ok(Self { documents: copies })
    }

    /// What searches over the documents read of a trie. It is empty if there is no document. Fails
    /// if an allocation does.
    pub fn profile<V: Copy, H: Fn(L) -> bool>(
        &self,
        alloc: A,
        nfa: &NfaBuilder<L, V, A>,
        dense_root: bool,
        has_label: &H,
    ) -> Result<Profile<A>>
        requires links { LinksLeadBack L.cmp (states_of nfa.now) }
        requires callable { H.IsAlwaysCallable has_label.now }
        ensures ok { IfOk result (IsProfileOf (length (states_of nfa.now))) }
        ensures none { documents_of L.unit self.now ≡ [] → IfOk result (λ profile. profile.visits.items ≡ []) }
        ensures err { IfErr result IsOutOfMemory }
    {
        let mut profile = Profile::new(alloc);
        if self.documents.is_empty() {
            return Ok(profile);
        }
        profile.resize(nfa.states().len())?;
        count_all(nfa, &self.documents, &mut profile, dense_root, has_label);
        Ok(profile)
    }
}

impl<L: AsciiFold, A: Allocator> Corpus<L, A> {
    /// Folds the documents: A to Z become a to z, and any other label stays.
    pub fn fold(&mut self)
        ensures { documents_of L.EdgeLabel.unit self.new ≡ map folded (documents_of L.EdgeLabel.unit self.old) }
    {
        for document in self.documents.iter_mut() {
            fold_labels(document);
        }
    }
}

fn fold_labels<L: AsciiFold>(labels: &mut [L])
    ensures { map L.EdgeLabel.unit labels.new ≡ folded (map L.EdgeLabel.unit labels.old) }
{
    for label in labels.iter_mut() {
        *label = label.folded();
    }
}

/// Counts searches over the documents.
fn count_all<L: EdgeLabel, V: Copy, A: Allocator + Copy, H: Fn(L) -> bool>(
    nfa: &NfaBuilder<L, V, A>,
    documents: &[Vec<L, A>],
    profile: &mut Profile<A>,
    dense_root: bool,
    has_label: &H,
)
    requires links { LinksLeadBack L.cmp (states_of nfa.now) }
    requires counts { HasCounts (length (states_of nfa.now)) profile.old }
    requires callable { H.IsAlwaysCallable has_label.now }
    ensures { HasCounts (length (states_of nfa.now)) profile.new }
{
    for document in documents {
        nfa.profile_haystack(document, profile, dense_root, has_label);
    }
}
