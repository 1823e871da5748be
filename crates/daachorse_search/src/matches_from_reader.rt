//! Standard searches in what a reader gives.

ghost use Rattle.std.specs.Prelude.{◌≡◌, [], IfSome, IsSomeAnd};
ghost use Rattle.daachorse_search.specs.Beginnings.{BeginsFrom};
ghost use Rattle.daachorse_search.specs.Readers.{GivesRead, items_to_read};

use crate::matches_from::MatchesFrom;
use crate::reader::ReadSource;
use crate::stepwise::Stepwise;
use daachorse_core::Match;
use daachorse_core::ascii_fold::AsciiFold;
use std::io;
use std::marker::Model;

/// The matches in what a reader gives, in order, and then the error at which it ended, if it did.
///
/// A call of `next` takes bytes up to the end of its match and none after it.
#[derive(Drop)]
pub struct MatchesFromReader<V: Copy, W: Stepwise<V>, S: ReadSource<W::Unit>>
where
    W::Unit: AsciiFold,
{
    // `None` after the end.
    matches: Option<MatchesFrom<V, W, S>>,
}

impl<V: Copy, W: Stepwise<V>, S: ReadSource<W::Unit>> Model for MatchesFromReader<V, W, S>
where
    W::Unit: AsciiFold,
{
    ghost use Rattle.std.specs.Prelude.{Option, IfSome};
    ghost use Rattle.daachorse_haystack.specs.Readings.{MayReadAsRead};
    ghost use Rattle.daachorse_search.specs.Searches.{SourceProgress};

    ghost Value = { Option (SourceProgress V W.Automaton S) };

    ghost view = { λ s. s.matches };

    ghost invariant = { λ s. IfSome s.matches (λ m. MayReadAsRead S.Source.may_read m.folds m.source m.read) };
}

impl<V: Copy, W: Stepwise<V>, S: ReadSource<W::Unit>> MatchesFromReader<V, W, S>
where
    W::Unit: AsciiFold,
{
    /// A search that has read nothing. It folds each unit if `folds` is set.
    #[inline(always)]
    #[tactic(auto, using(crate::proofs::ReaderLaws::may_read_first))]
    pub fn new(walk: W, source: S, folds: bool) -> Self
        requires read { W.sees.read walk ≡ [] }
        requires turns { W.sees.turns walk ≡ 0 }
        requires may { S.Source.may_read source [] }
        ensures { IsSomeAnd result (BeginsFrom (W.sees.automaton walk) source (W.sees.found (W.sees.automaton walk) []) folds) }
    {
        Self {
            matches: Some(MatchesFrom::new(walk, source, folds)),
        }
    }

    /// Does nothing. Its contract bounds the turns.
    #[inline(always)]
    pub fn turns_are_bounded(&self)
        ensures { IfSome self.now (λ s. W.sees.bounds s.automaton s.read s.turns) }
    {
        if let Some(matches) = &self.matches {
            matches.turns_are_bounded();
        }
    }
}

impl<V: Copy, W: Stepwise<V>, S: ReadSource<W::Unit>> Iterator for MatchesFromReader<V, W, S>
where
    W::Unit: AsciiFold,
{
    ghost use Rattle.daachorse_search.specs.Readers.{GivesRead, items_to_read};

    type Item = io::Result<Match<V>>;

    ghost next_gives = { GivesRead W.sees.found S.next_gives S.remaining W.Unit.unit W.Unit.width S.failure W.sees.bounds };

    ghost remaining = { items_to_read S.remaining };

    #[inline(always)]
    fn next(&mut self) -> Option<io::Result<Match<V>>> {
        let matches = self.matches.as_mut()?;
        if let Some(found) = matches.next() {
            return Some(Ok(found));
        }
        let ended = self.matches.take()?;
        // The turns of the last call are bounded, too.
        ended.turns_are_bounded();
        Some(Err(ended.into_source().into_failure()?))
    }
}
