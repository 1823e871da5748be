//! The matches of the search that an automaton's kind names.

ghost use Rattle.std.specs.Prelude.{◌≡◌, ◌<◌, ◌^◌, slice_get};
ghost use Rattle.daachorse_haystack.specs.Filters.{IsSoundFor};
ghost use Rattle.daachorse_model.specs.Leftmost.{leftmost};
ghost use Rattle.daachorse_model.specs.Matches.{standard};
ghost use Rattle.daachorse_model.specs.Units.{size};
ghost use Rattle.daachorse_search.specs.Views.{IsLeftmostView, IsStandard};

use daachorse_core::Match;
use daachorse_core::edge_label::EdgeLabel;
use daachorse_haystack::filter::Filter;
use daachorse_haystack::haystack::Haystack;
use daachorse_search::automaton::Automaton;
use daachorse_search::find::find_in;
use daachorse_search::leftmost::LeftmostMatches;
use daachorse_search::matches::Matches;
use daachorse_search::stepwise::Stepwise;
use std::marker::Model;

/// The matches of the search that an automaton's kind names. They do not overlap.
#[derive(Drop)]
pub struct MatchesByKind<
    U: EdgeLabel,
    V: Copy,
    W: Stepwise<V, Unit = U>,
    L: Automaton<V, Unit = U>,
    H: Haystack<U>,
    F: Filter<U, H>,
> {
    search: Search<Matches<V, W, H, F>, LeftmostMatches<V, L, H, F>>,
}

/// Each search is compiled by itself.
#[derive(Drop)]
enum Search<S, L> {
    Standard(S),
    Leftmost(L),
}

impl<
    U: EdgeLabel,
    V: Copy,
    W: Stepwise<V, Unit = U>,
    L: Automaton<V, Unit = U>,
    H: Haystack<U>,
    F: Filter<U, H>,
> Model for MatchesByKind<U, V, W, L, H, F> {
    ghost use Rattle.std.specs.Prelude.{List};
    ghost use Rattle.daachorse_model.specs.declared.Match.{Match};
    ghost use Rattle.daachorse_streams.specs.declared.by_kind.Search.TheVariants.{Standard, Leftmost};

    ghost Value = { List (Match V) };

    ghost view = { λ s. elim s.search [
      | Standard matches ↦ matches.left
      | Leftmost matches ↦ matches.left
    ] };

    ghost invariant = { λ s. Unit {0} };
}

impl<
    U: EdgeLabel,
    V: Copy,
    W: Stepwise<V, Unit = U>,
    L: Automaton<V, Unit = U>,
    H: Haystack<U>,
    F: Filter<U, H>,
> MatchesByKind<U, V, W, L, H, F> {
    /// The matches of a standard search.
    #[inline(always)]
    pub fn standard(matches: Matches<V, W, H, F>) -> Self
        ensures { result ≡ matches.left }
    {
        MatchesByKind {
            search: Search::Standard(matches),
        }
    }

    /// The matches of a leftmost search.
    #[inline(always)]
    pub fn leftmost(matches: LeftmostMatches<V, L, H, F>) -> Self
        ensures { result ≡ matches.left }
    {
        MatchesByKind {
            search: Search::Leftmost(matches),
        }
    }
}

impl<
    U: EdgeLabel,
    V: Copy,
    W: Stepwise<V, Unit = U>,
    L: Automaton<V, Unit = U>,
    H: Haystack<U>,
    F: Filter<U, H>,
> Iterator for MatchesByKind<U, V, W, L, H, F> {
    ghost use Rattle.std.specs.Iterator.{YieldsFirst, item_count};

    type Item = Match<V>;

    ghost next_gives = { YieldsFirst (λ left. left) };

    ghost remaining = { item_count (λ left. left) };

    #[inline(always)]
    fn next(&mut self) -> Option<Match<V>> {
        match &mut self.search {
            Search::Standard(matches) => matches.next(),
            Search::Leftmost(matches) => matches.next(),
        }
    }
}

/// The first match of the standard search in a haystack. The search is not moved.
#[inline(always)]
pub fn first_in<V: Copy, A: Automaton<V>, H: Haystack<A::Unit>, F: Filter<A::Unit, H>>(
    automaton: A,
    haystack: H,
    filter: F,
) -> Option<Match<V>>
    requires alive { IsStandard (A.sees automaton) }
    requires fits { size A.Unit.width (H.rest haystack) < 2 ^ 64 }
    requires sound { IsSoundFor (F.passes filter) (A.sees automaton).content }
    ensures { result ≡ slice_get (standard A.Unit.width (A.sees automaton).content (H.rest haystack)) 0 }
{
    find_in(automaton, haystack, filter).next()
}

/// The first match of the leftmost search in a haystack. The search is not moved.
#[inline(always)]
pub fn first_leftmost_in<V: Copy, A: Automaton<V>, H: Haystack<A::Unit>, F: Filter<A::Unit, H>>(
    automaton: A,
    haystack: H,
    filter: F,
) -> Option<Match<V>>
    requires kind { IsLeftmostView (A.sees automaton) }
    requires fits { size A.Unit.width (H.rest haystack) < 2 ^ 64 }
    requires sound { IsSoundFor (F.passes filter) (A.sees automaton).content }
    ensures { result ≡ slice_get (leftmost A.Unit.width (A.sees automaton).content (H.rest haystack)) 0 }
{
    LeftmostMatches::with_filter(automaton, haystack, filter).next()
}
