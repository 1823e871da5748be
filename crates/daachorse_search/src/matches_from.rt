//! Standard searches in a source. What the source needs is their only condition.

ghost use Rattle.std.specs.Prelude.{◌≡◌, ◌+◌, ◌*◌, [], length};
ghost use Rattle.std.specs.Iterator.{MakesProgress, count_map};
ghost use Rattle.daachorse_haystack.specs.Readings.{MayReadAsRead};
ghost use Rattle.daachorse_search.specs.Searches.{GivesFrom, SourceProgress};

use crate::scan::scan;
use crate::stepwise::Stepwise;
use daachorse_core::Match;
use daachorse_core::ascii_fold::AsciiFold;
use daachorse_core::turns::Seen;
use daachorse_haystack::source::Source;
use std::marker::{Model, PhantomData};
use std::num::NonZeroU32;

/// The matches in a source of a search that goes one unit at a time, in order.
///
/// A call of `next` takes units up to the end of its match and none after it.
#[derive(Drop)]
pub struct MatchesFrom<V: Copy, W: Stepwise<V>, S: Source<W::Unit>>
where
    W::Unit: AsciiFold,
{
    walk: W,
    source: S,
    // Whether each unit is folded.
    folds: bool,
    // The number of bytes read.
    place: usize,
    output: Option<NonZeroU32>,
    // A copy of the walk's automaton, so that a field's type names what is borrowed.
    automaton: W::Automaton,
    // Counts the matches given.
    seen: Seen,
    of: PhantomData<V>,
}

impl<V: Copy, W: Stepwise<V>, S: Source<W::Unit>> Model for MatchesFrom<V, W, S>
where
    W::Unit: AsciiFold,
{
    ghost use Rattle.daachorse_core.specs.Outputs.{number};
    ghost use Rattle.daachorse_search.specs.Searches.{SourceProgress};
    ghost use Rattle.daachorse_search.specs.Stepwise.{StandsAt};

    ghost Value = { SourceProgress V W.Automaton S };

    ghost view = { λ s. record {
      automaton = W.sees.automaton s.walk;
      source = s.source;
      folds = s.folds;
      read = W.sees.read s.walk;
      pending = W.sees.given_from s.walk (number s.output);
      turns = W.sees.turns s.walk;
      given = s.seen.given;
      most = W.sees.most_found (W.sees.automaton s.walk);
    } };

    ghost invariant = { λ s. W.sees.has_output s.walk (number s.output) × StandsAt W.Unit.width (W.sees.read s.walk) s.place };
}

impl<V: Copy, W: Stepwise<V>, S: Source<W::Unit>> MatchesFrom<V, W, S>
where
    W::Unit: AsciiFold,
{
    /// A search that has read nothing. It folds each unit if `folds` is set.
    #[inline(always)]
    pub fn new(walk: W, source: S, folds: bool) -> Self
        requires { W.sees.read walk ≡ [] }
        ensures automaton { result.automaton ≡ W.sees.automaton walk }
        ensures source { result.source ≡ source }
        ensures folds { result.folds ≡ folds }
        ensures read { result.read ≡ [] }
        ensures pending { result.pending ≡ W.sees.found (W.sees.automaton walk) [] }
        ensures turns { result.turns ≡ W.sees.turns walk }
        ensures given { result.given ≡ 0 }
        ensures most { result.most ≡ W.sees.most_found (W.sees.automaton walk) }
    {
        let output = walk.begin();
        let automaton = walk.walked();
        Self {
            walk,
            source,
            folds,
            place: 0,
            output,
            automaton,
            seen: Seen::new(),
            of: PhantomData,
        }
    }

    /// The source, from where the search stands.
    #[inline(always)]
    pub fn into_source(self) -> S
        ensures { result ≡ self.source }
    {
        self.source
    }

    /// Does nothing. Its contract bounds the turns.
    #[inline(always)]
    pub fn turns_are_bounded(&self)
        ensures { W.sees.bounds self.now.automaton self.now.read self.now.turns }
    {
        self.walk.turns_are_bounded();
    }

    /// Does the work of `next`. `FOLDED` only makes a second copy of the loop.
    #[inline(always)]
    fn next_match<const FOLDED: bool>(&mut self) -> Option<Match<V>>
        requires { MayReadAsRead S.may_read self.old.folds self.old.source self.old.read }
        ensures steps { GivesFrom W.sees.found S.next_gives S.remaining W.Unit.unit W.Unit.width self.old result self.new }
        ensures goes { MakesProgress (λ (s : SourceProgress V W.Automaton S). MayReadAsRead S.may_read s.folds s.source s.read)
            (λ s. count_map (λ n. length s.pending + s.most * n) (S.remaining s.source)) self.old result self.new }
    {
        let position = match self.output {
            Some(position) => position,
            None => scan::<V, W, S, FOLDED>(
                &mut self.walk,
                &mut self.source,
                &mut self.place,
                self.folds,
            )?,
        };
        let (found, next) = self.walk.give(position, self.place);
        self.output = next;
        self.seen.give();
        Some(found)
    }
}

impl<V: Copy, W: Stepwise<V>, S: Source<W::Unit>> Iterator for MatchesFrom<V, W, S>
where
    W::Unit: AsciiFold,
{
    type Item = Match<V>;

    ghost can_next = { λ s. MayReadAsRead S.may_read s.folds s.source s.read };

    ghost next_gives = { GivesFrom W.sees.found S.next_gives S.remaining W.Unit.unit W.Unit.width };

    ghost remaining = { λ s. count_map (λ n. length s.pending + s.most * n) (S.remaining s.source) };

    #[inline(always)]
    fn next(&mut self) -> Option<Match<V>> {
        // Asked before the loop. The const parameter keeps the two copies of it from being merged.
        if self.folds {
            return self.next_match::<true>();
        }
        self.next_match::<false>()
    }
}
