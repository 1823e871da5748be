//! Searches that read one unit at a time.

ghost use Rattle.std.specs.Prelude.{◌≡◌, ◌≢◌, ◌↔◌, ◌+◌, ◌*◌, ◌≤◌, ◌<◌, ℕ, [], ◌∷◌, ◌++◌, IfSome, IsSome, IsTrue, count_by, length, map};
ghost use Rattle.std.specs.Bool.{OnTrue};
ghost use Rattle.daachorse_model.specs.Units.{size};
ghost use Rattle.daachorse_model.specs.Matches.{shifted};
ghost use Rattle.daachorse_core.specs.Outputs.{number};
ghost use Rattle.daachorse_search.specs.Afresh.{GoesOnAfresh};
ghost use Rattle.daachorse_search.specs.Stepwise.{StepView, Stops};

use daachorse_core::Match;
use daachorse_core::edge_label::EdgeLabel;
use daachorse_core::turns::Turns;
use std::num::NonZeroU32;

/// A search that reads one unit at a time, and returns what it finds at the end of each.
pub trait Stepwise<V: Copy>: Clone + Drop {
    /// The units of patterns and haystacks: bytes or characters.
    type Unit: EdgeLabel;

    /// The automaton that is walked through.
    type Automaton: Drop;

    /// What contracts see of it.
    ghost sees: { StepView V Self.Automaton Self };

    /// The position of the first output at offset 0.
    fn begin(&self) -> Option<NonZeroU32>
        requires { sees.read self.now ≡ [] }
        ensures { Stops sees self.now result };

    /// Reads one unit, and returns the position of the first output after it.
    fn advance(&mut self, unit: Self::Unit) -> Option<NonZeroU32>
        ensures automaton { sees.automaton self.new ≡ sees.automaton self.old }
        ensures read { sees.read self.new ≡ sees.read self.old ++ Self.Unit.unit unit ∷ [] }
        ensures stops { Stops sees self.new result };

    /// Whether something is found at every boundary with no look, as by the standard search for an
    /// empty pattern. Callers may ask once, before a loop.
    fn finds_everywhere(&self) -> bool
        ensures { IsTrue result ↔ sees.everywhere self.now };

    /// Reads one unit with no look if something is found at every boundary, and returns the
    /// position of the first output after it. Otherwise does nothing, and returns `None`.
    fn pass(&mut self, unit: Self::Unit) -> Option<NonZeroU32>
        ensures automaton { sees.automaton self.new ≡ sees.automaton self.old }
        ensures read { IfSome result (λ _. sees.read self.new ≡ sees.read self.old ++ Self.Unit.unit unit ∷ []) }
        ensures stops { IfSome result (λ _. Stops sees self.new result) }
        ensures some { sees.everywhere self.old → IsSome result };

    /// Whether matches may overlap. A hint for the compiler, which decides no result.
    #[inline(always)]
    fn overlaps(&self) -> bool {
        true
    }

    /// Whether the search is at the root, so that no pattern has begun.
    fn is_at_root(&self) -> bool
        ensures afresh { OnTrue result (GoesOnAfresh Self.Unit.width (sees.content (sees.automaton self.now)) (sees.found (sees.automaton self.now)) (sees.read self.now)) }
        ensures begins { sees.read self.now ≡ [] → IsTrue result };

    /// Begins again with nothing read, and adds its turns to `taken`.
    fn begin_again(&mut self, taken: &mut Turns)
        ensures automaton { sees.automaton self.new ≡ sees.automaton self.old }
        ensures read { sees.read self.new ≡ [] }
        ensures counted { taken.new ≡ taken.old + sees.turns self.old }
        ensures turns { sees.turns self.new ≡ 0 };

    /// The match of the output at a position, and the position of the next output to report.
    /// `place` is the end of the match in bytes, and may count from before the first unit.
    fn give(&self, position: NonZeroU32, place: usize) -> (Match<V>, Option<NonZeroU32>)
        requires here { size Self.Unit.width (sees.read self.now) ≤ place }
        requires output { sees.has_output self.now position.value }
        ensures place { sees.has_output self.now (number result.1) }
        ensures given { (before : ℕ) → place ≡ before + size Self.Unit.width (sees.read self.now)
            → map (shifted before) (sees.given_from self.now position.value) ≡ result.0 ∷ map (shifted before) (sees.given_from self.now (number result.1)) }
        ensures ends { result.0.end ≡ place };

    /// The same automaton for another walk.
    fn walked(&self) -> Self::Automaton
        ensures { result ≡ sees.automaton self.now };

    /// Does nothing. Its contract bounds the turns.
    fn turns_are_bounded(&self)
        ensures bounds { sees.bounds (sees.automaton self.now) (sees.read self.now) (sees.turns self.now) }
        ensures most { sees.turns self.now ≤ 2 * length (sees.read self.now) }
        ensures single { sees.ends_at_once (sees.automaton self.now) → sees.turns self.now ≤ length (sees.read self.now) }
        ensures least { count_by (sees.looks_at (sees.automaton self.now)) (sees.read self.now) ≤ sees.turns self.now };

    // Something is found everywhere only if a pattern is empty.
    ghost everywhere_keyed: { (s : Self) → sees.everywhere s → sees.content (sees.automaton s) [] ≢ [] };

    // Nothing is reported from position 0 on.
    ghost no_output: { (s : Self) → sees.has_output s 0 × (sees.given_from s 0 ≡ []) };

    // A clone is the same walk, and is never refused.
    ghost cloned: { (s t : Self) → Self.is_clone s t → t ≡ s };

    ghost clones: { (s : Self) → Self.is_infallible s };
}
