//! The two lists of elements, one for standard searches and one for leftmost searches.

ghost use Rattle.std.specs.Prelude.{◌≡◌, true, false};
ghost use Rattle.daachorse_model.specs.declared.MatchKind.{MatchKind};
ghost use Rattle.daachorse_model.specs.Kinds.{is_leftmost};

use daachorse_core::MatchKind;
use daachorse_search::view::{ForLeftmost, ForStandard};

/// How an access finds the list of the elements. A type that names the searches knows the list at
/// compile time, so that no access tests the kind.
pub trait ForKinds: Drop {
    /// The kinds of automata that it serves.
    ghost fits: { MatchKind → Type 0 };

    /// Whether the elements stand in the list for leftmost searches.
    fn is_leftmost(kind: MatchKind) -> bool
        requires { fits kind }
        ensures { result ≡ is_leftmost kind };
}

/// The list for standard searches.
impl ForKinds for ForStandard {
    ghost fits = { λ kind. is_leftmost kind ≡ false };

    #[inline(always)]
    fn is_leftmost(_kind: MatchKind) -> bool {
        false
    }
}

/// The list for leftmost searches.
impl ForKinds for ForLeftmost {
    ghost fits = { λ kind. is_leftmost kind ≡ true };

    #[inline(always)]
    fn is_leftmost(_kind: MatchKind) -> bool {
        true
    }
}

/// The list is chosen by the kind at each access, for code that reads few elements.
#[derive(Clone, Copy, Debug)]
pub struct ByKind;

impl ForKinds for ByKind {
    ghost fits = { λ kind. Unit {0} };

    #[inline(always)]
    fn is_leftmost(kind: MatchKind) -> bool {
        kind.is_leftmost()
    }
}
