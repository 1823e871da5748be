//! The loops that replace matches.

ghost use Rattle.std.specs.Prelude.{◌≡◌, ℕ, List, OnErr, OnOk};
ghost use Rattle.std.specs.Io.KnownBytes.{Appends};
ghost use Rattle.daachorse_streams.specs.Replaced.{AppendsBeginning, AreParts, OfReplaced, OfReplacedSoFar};
ghost use Rattle.daachorse_streams.specs.ReplacedWith.{IsReplaced, IsReplacedSoFar};

use crate::appending::Appending;
use crate::by_kind::MatchesByKind;
use crate::piece::Piece;
use daachorse_core::edge_label::EdgeLabel;
use daachorse_haystack::filter::Filter;
use daachorse_haystack::haystack::Haystack;
use daachorse_model::Match;
use daachorse_search::automaton::Automaton;
use daachorse_search::stepwise::Stepwise;

/// Puts out the haystack, each match replaced by what `replacement` returns for it and its text. If
/// the output refuses, it has taken a prefix of that.
///
/// # Conditions
/// The matches follow one another, and start and end where the haystack may be cut.
/// The replacement may be called at any match.
#[inline]
pub fn replace<
    U: EdgeLabel,
    V: Copy,
    W: Stepwise<V, Unit = U>,
    L: Automaton<V, Unit = U>,
    H: Haystack<U>,
    S: Filter<U, H>,
    P: Piece,
    F: Fn(Match<V>, P) -> P + Drop,
    O,
    A: Appending<P, O>,
>(
    haystack: P,
    matches: MatchesByKind<U, V, W, L, H, S>,
    out: &mut O,
    replacement: F,
) -> Result<(), A::Error>
    requires callable { F.IsAlwaysCallable replacement }
    requires parts { AreParts (P.may_cut haystack) 0 matches }
    ensures whole { OnOk result (OfReplaced P.bytes (P.bytes haystack) (F.post replacement) matches (Appends (A.taken out.old) (A.taken out.new))) }
    ensures beginning { OnErr result (OfReplacedSoFar P.bytes (P.bytes haystack) (F.post replacement) matches (AppendsBeginning (A.taken out.old) (A.taken out.new))) }
{
    let mut place = 0;
    for found in matches {
        A::append(out, haystack.part(place, found.start))?;
        let matched = haystack.part(found.start, found.end);
        A::append(out, replacement(found, matched))?;
        place = found.end;
    }
    A::append(out, haystack.part(place, haystack.end()))
}

/// Puts out the haystack, in place of each match what `write` appends for it and its text. Stops
/// at the first refusal, of the output or of `write`.
///
/// # Conditions
/// The matches follow one another, and start and end where the haystack may be cut.
/// The closure may be called at any match and any output.
#[inline]
pub fn replace_with<
    U: EdgeLabel,
    V: Copy,
    W: Stepwise<V, Unit = U>,
    L: Automaton<V, Unit = U>,
    H: Haystack<U>,
    S: Filter<U, H>,
    P: Piece,
    O,
    A: Appending<P, O>,
    F: FnMut(Match<V>, P, &mut O) -> Result<(), A::Error> + Drop,
>(
    haystack: P,
    matches: MatchesByKind<U, V, W, L, H, S>,
    out: &mut O,
    mut write: F,
) -> Result<(), A::Error>
    requires callable { F.IsAlwaysCallable write }
    requires parts { AreParts (P.may_cut haystack) 0 matches }
    ensures whole { OnOk result (IsReplaced P.bytes A.taken (P.bytes haystack) F.step matches write out.old out.new) }
    ensures beginning { OnErr result (IsReplacedSoFar P.bytes A.taken (P.bytes haystack) F.step matches write out.old out.new) }
{
    let mut written = 0;
    for found in matches {
        A::append(out, haystack.part(written, found.start))?;
        let matched = haystack.part(found.start, found.end);
        write(found, matched, out)?;
        written = found.end;
    }
    A::append(out, haystack.part(written, haystack.end()))
}
