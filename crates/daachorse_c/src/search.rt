//! The searches, and which automata each one serves.

ghost use Rattle.std.specs.Prelude.{◌≡◌, ◌↔◌, IfErr, IfOk, IsTrue};
ghost use Rattle.daachorse_c.specs.declared.refusal.Refusal.TheVariants.{UnknownSearch};
ghost use Rattle.daachorse_c.specs.Searches.{IsUnknownSearch, ServesKind, search_of, stream_number};

use crate::refusal::Refusal;
use daachorse::MatchKind;

/// A search in a haystack.
#[derive(Clone, Copy, PartialEq, Eq)]
pub enum SearchKind {
    /// Matches that do not overlap, each ending as early as possible.
    Find,
    /// Every match.
    Overlapping,
    /// The longest match at each end.
    NoSuffix,
    /// Matches that do not overlap, each starting as early as possible.
    Leftmost,
    /// The patterns that are the whole haystack.
    Whole,
    /// The patterns that begin the haystack.
    Prefixes,
}

impl SearchKind {
    /// Whether the search serves automata of this kind.
    pub(crate) fn is_for(self, kind: MatchKind) -> bool
        ensures { IsTrue result ↔ ServesKind self kind }
    {
        match self {
            SearchKind::Find | SearchKind::Overlapping | SearchKind::NoSuffix => kind.is_standard(),
            SearchKind::Leftmost => kind.is_leftmost(),
            SearchKind::Whole | SearchKind::Prefixes => true,
        }
    }
}

/// A search that a stream may go through.
#[derive(Clone, Copy, PartialEq, Eq)]
pub enum StreamKind {
    /// That of [`SearchKind::Find`].
    Find,
    /// That of [`SearchKind::Overlapping`].
    Overlapping,
    /// That of [`SearchKind::NoSuffix`].
    NoSuffix,
    /// That of [`SearchKind::Leftmost`].
    Leftmost,
}

impl StreamKind {
    /// The search with this number in C. Fails if there is none.
    pub(crate) fn numbered(number: u32) -> Result<StreamKind, Refusal>
        ensures found { IfOk result (λ k. stream_number k ≡ number) }
        ensures err { IfErr result (λ r. (r ≡ UnknownSearch) × IsUnknownSearch number) }
    {
        match number {
            0 => Ok(StreamKind::Find),
            1 => Ok(StreamKind::Overlapping),
            2 => Ok(StreamKind::NoSuffix),
            3 => Ok(StreamKind::Leftmost),
            _ => Err(Refusal::UnknownSearch),
        }
    }

    /// The search of a whole haystack that finds the same.
    pub(crate) fn search(self) -> SearchKind
        ensures { result ≡ search_of self }
    {
        match self {
            StreamKind::Find => SearchKind::Find,
            StreamKind::Overlapping => SearchKind::Overlapping,
            StreamKind::NoSuffix => SearchKind::NoSuffix,
            StreamKind::Leftmost => SearchKind::Leftmost,
        }
    }
}
