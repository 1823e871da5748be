//! Filters, which move a haystack past places where no pattern can begin.

ghost use Rattle.std.specs.Prelude.{◌≡◌, ℕ, Bool, List, IsTrue};
ghost use Rattle.daachorse_haystack.specs.Filters.{IsNextPassing};

use crate::haystack::Haystack;
use daachorse_core::edge_label::EdgeLabel;

/// A filter of the places of a haystack. It passes at the same places however often it is asked.
pub trait Filter<U: EdgeLabel, H: Haystack<U>>: Drop {
    /// Whether it passes at a place after which these units are left.
    ghost passes: { Self → List ℕ → Bool };

    /// `is_open` will return true.
    ghost opened: { Self → Type 0 };

    /// `skip` may be called.
    ghost may_ask: { Self → Type 0 };

    /// Whether it still pays to ask.
    fn is_open(&self) -> bool
        ensures open { opened self.now → IsTrue result }
        ensures asked { IsTrue result → may_ask self.now };

    /// Advances the haystack to the first place that passes, or to its end.
    fn skip(&mut self, rest: &mut H)
        requires { may_ask self.old }
        ensures passes { (w : List ℕ) → passes self.new w ≡ passes self.old w }
        ensures goes { IsNextPassing (passes self.old) (H.rest rest.old) (H.rest rest.new) };
}
