//! The loop of the searches in a source.

ghost use Rattle.std.specs.Prelude.{◌≡◌, IfSome, MatchOption};
ghost use Rattle.std.specs.Iterator.{IsFinite};
ghost use Rattle.daachorse_model.specs.Units.{size};
ghost use Rattle.daachorse_haystack.specs.Readings.{unit_as_read};
ghost use Rattle.daachorse_haystack.specs.Sources.{IsReady};
ghost use Rattle.daachorse_search.specs.Scans.{ScanGives};
ghost use Rattle.daachorse_search.specs.Stepwise.{Stops};

use crate::stepwise::Stepwise;
use daachorse_core::ascii_fold::AsciiFold;
use daachorse_haystack::source::Source;
use std::num::NonZeroU32;

/// Reads on to the next output, and returns its position, or `None` at the end of the source.
/// `place` is the offset in bytes after the units read. Each unit is folded if `folds` is set.
/// `FOLDED` only makes a second copy of the loop.
#[inline(always)]
pub fn scan<V: Copy, W: Stepwise<V>, S: Source<W::Unit>, const FOLDED: bool>(
    walk: &mut W,
    source: &mut S,
    place: &mut usize,
    folds: bool,
) -> Option<NonZeroU32>
where
    W::Unit: AsciiFold,
    requires ready { IsReady S.can_next S.next_gives S.remaining (unit_as_read folds W.Unit.unit) W.Unit.width source.old (size W.Unit.width (W.sees.read walk.old)) }
    requires here { place.old ≡ size W.Unit.width (W.sees.read walk.old) }
    ensures took { ScanGives W.sees S.next_gives S.remaining (unit_as_read folds W.Unit.unit) walk.old source.old result walk.new source.new }
    ensures here { place.new ≡ size W.Unit.width (W.sees.read walk.new) }
    ensures ready { MatchOption result (IsFinite (S.remaining source.new))
        (λ _. IsReady S.can_next S.next_gives S.remaining (unit_as_read folds W.Unit.unit) W.Unit.width source.new (size W.Unit.width (W.sees.read walk.new))) }
    ensures stops { IfSome result (λ _. Stops W.sees walk.new result) }
{
    'units: loop {
        let Some(unit) = source.next_at(place, folds) else {
            return None;
        };
        if let Some(position) = walk.advance(unit) {
            return Some(position);
        }
    }
}
