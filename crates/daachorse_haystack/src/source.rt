//! Sources of units, which are known only as they are read. The search says whether to fold each.

ghost use Rattle.std.specs.Prelude.{◌≡◌, ◌+◌, ◌≤◌, ℕ, List, ◌++◌, Option, MatchOption, length, map};
ghost use Rattle.std.specs.Iterator.{MakesProgress, Yields, items_left};
ghost use Rattle.daachorse_model.specs.Units.{size};
ghost use Rattle.daachorse_haystack.specs.Readings.{GivesAsRead};
ghost use Rattle.daachorse_haystack.specs.Sources.{IsReady};

use daachorse_core::ascii_fold::AsciiFold;
use std::marker::Model;

/// A source of units that a search may read to its end.
pub trait Source<U: AsciiFold>: Iterator<Item = U> {
    /// A search that has read these units may go on with the source.
    ghost may_read: { Self → List ℕ → Type 0 };

    /// Takes the next unit, folded if `folds` is set, and moves `place` to its end.
    #[inline(always)]
    fn next_at(&mut self, place: &mut usize, folds: bool) -> Option<U>
        requires ready { IsReady Self.can_next Self.next_gives Self.remaining U.EdgeLabel.unit U.EdgeLabel.width self.old place.old }
        ensures steps { GivesAsRead U.fold Self.next_gives folds self.old result self.new }
        ensures goes { MakesProgress Self.can_next Self.remaining self.old result self.new }
        ensures place { MatchOption result (place.new ≡ place.old) (λ unit. place.new ≡ place.old + U.EdgeLabel.width (U.EdgeLabel.unit unit)) }
    {
        let unit = self.next()?;
        *place += unit.num_bytes();
        if folds {
            return Some(unit.folded());
        }
        Some(unit)
    }

    ghost ready: { (s : Self) (read : List ℕ) → may_read s read
        → IsReady Self.can_next Self.next_gives Self.remaining U.EdgeLabel.unit U.EdgeLabel.width s (size U.EdgeLabel.width read) };

    // It may still be read after it gave more units.
    ghost kept: { (s : Self) (read : List ℕ) (xs : List U) (t : Self) → may_read s read → Yields Self.next_gives s xs t
        → length xs + items_left Self.remaining t ≤ items_left Self.remaining s
        → IsReady Self.can_next Self.next_gives Self.remaining U.EdgeLabel.unit U.EdgeLabel.width t (size U.EdgeLabel.width (read ++ map U.EdgeLabel.unit xs))
        → may_read t (read ++ map U.EdgeLabel.unit xs) };
}

/// The bytes that an iterator gives.
#[derive(Drop)]
pub struct Bytes<P: Iterator<Item = u8>> {
    bytes: P,
}

impl<P: Iterator<Item = u8>> Model for Bytes<P> {
    ghost Value = { P };

    ghost view = { λ s. s.bytes };
}

impl<P: Iterator<Item = u8>> Bytes<P> {
    /// What the iterator gives from here on.
    #[inline(always)]
    pub fn new(bytes: P) -> Self
        ensures { result ≡ bytes }
    {
        Self { bytes }
    }
}

impl<P: Iterator<Item = u8>> Iterator for Bytes<P> {
    type Item = u8;

    ghost can_next = { P.can_next };

    ghost next_gives = { P.next_gives };

    ghost remaining = { P.remaining };

    #[inline(always)]
    fn next(&mut self) -> Option<u8> {
        self.bytes.next()
    }
}

impl<P: Iterator<Item = u8>> Source<u8> for Bytes<P> {
    ghost use Rattle.daachorse_haystack.specs.Sources.{MayRead};
    ghost use Rattle.daachorse_haystack.specs.ByteSources.{MayRead-ready, MayRead-kept};

    ghost may_read = { MayRead P.can_next P.next_gives P.remaining };

    ghost ready = { MayRead-ready P.can_next P.next_gives P.remaining };

    ghost kept = { λ s read xs t may took fewer ready. MayRead-kept P.can_next P.next_gives P.remaining s read xs t _ may took fewer ready };
}
