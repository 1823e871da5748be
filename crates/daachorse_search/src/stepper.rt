//! Searches that their callers give one unit at a time.

ghost use Rattle.std.specs.Prelude.{◌≡◌, ◌<◌, ◌^◌, ◌+◌, ℕ, List, [], ◌∷◌, ◌++◌, length};
ghost use Rattle.daachorse_model.specs.Folding.{as_read};
ghost use Rattle.daachorse_model.specs.Matches.{at_each_end};
ghost use Rattle.daachorse_model.specs.Units.{size};
ghost use Rattle.daachorse_search.specs.Stepwise.{StandsAt, Stops};

use crate::step_unit::StepUnit;
use crate::stepwise::Stepwise;
use daachorse_core::ascii_fold::AsciiFold;
use daachorse_core::edge_label::EdgeLabel;
use std::alloc::AllocError;
use std::marker::{Model, PhantomData};
use std::num::NonZeroU32;

/// A search whose stepper can be kept without the automaton, and resumed over it.
pub trait Resumable<V: Copy>: Stepwise<V> {
    /// Where a stepper stands. It borrows nothing.
    type Standing: Drop;

    /// A stepper over the automaton stands so.
    ghost stands: { Self.Automaton → Self.Standing → Type 0 };

    /// The units consumed, as they were read.
    ghost consumed: { Self.Standing → List ℕ };

    /// The number of looks at a state.
    ghost taken: { Self.Standing → ℕ };

    /// The number of matches given.
    ghost given: { Self.Automaton → Self.Standing → ℕ };

    /// Where a stepper stands whose walk is this, behind that many bytes, with that position of the
    /// first output.
    fn stand(self, place: usize, found: Option<NonZeroU32>) -> Self::Standing
        requires place { StandsAt Self.Unit.width (Self.sees.read self) place }
        requires found { Stops Self.sees self found }
        ensures stands { stands (Self.sees.automaton self) result }
        ensures read { consumed result ≡ Self.sees.read self }
        ensures turns { taken result ≡ Self.sees.turns self }
        ensures given { given (Self.sees.automaton self) result ≡ length (at_each_end (Self.sees.found (Self.sees.automaton self)) [] (Self.sees.read self)) };
}

/// A search that its caller gives one unit at a time, with or without regard to the case of ASCII
/// letters.
///
/// The caller reads the units from anywhere, and may stop and resume after any of them.
#[derive(Drop)]
pub struct Stepper<'a, V: Copy, W: Stepwise<V>> {
    pub(crate) walk: W,
    // A copy of the walk's automaton, so that a field's type names what is borrowed.
    pub(crate) automaton: W::Automaton,
    // The number of bytes consumed.
    pub(crate) place: usize,
    // The depth of each state in units, or empty if none are kept.
    pub(crate) depths: &'a [u32],
    // Whether each unit is folded.
    pub(crate) folds: bool,
    // The first output of the matches that end here.
    pub(crate) found: Option<NonZeroU32>,
    pub(crate) of: PhantomData<V>,
}

impl<'a, V: Copy, W: Stepwise<V>> Model for Stepper<'a, V, W> {
    ghost use Rattle.std.specs.Prelude.{[], length};
    ghost use Rattle.daachorse_model.specs.Matches.{at_each_end};
    ghost use Rattle.daachorse_search.specs.Stepwise.{Stepped, StandsAt, Stops};

    ghost Value = { Stepped W.Automaton };

    ghost view = { λ s. record {
      automaton = W.sees.automaton s.walk;
      depths = s.depths.now;
      folds = s.folds;
      read = W.sees.read s.walk;
      turns = W.sees.turns s.walk;
      given = length (at_each_end (W.sees.found (W.sees.automaton s.walk)) [] (W.sees.read s.walk));
    } };

    ghost invariant = { λ s. StandsAt W.Unit.width (W.sees.read s.walk) s.place
        × Stops W.sees s.walk s.found
        × W.sees.has_depths (W.sees.automaton s.walk) s.depths.now };
}

impl<'a, V: Copy, W: Stepwise<V>> Stepper<'a, V, W>
where
    W::Unit: StepUnit,
{
    /// A stepper that has consumed nothing. `depths` has the depth of each state, or is empty if
    /// none are kept.
    #[inline(always)]
    pub fn new(walk: W, depths: &'a [u32], folds: bool) -> Self
        requires begins { W.sees.read walk ≡ [] }
        requires depths { W.sees.has_depths (W.sees.automaton walk) depths.now }
        ensures automaton { result.automaton ≡ W.sees.automaton walk }
        ensures depths { result.depths ≡ depths.entry.now }
        ensures folds { result.folds ≡ folds }
        ensures read { result.read ≡ [] }
        ensures turns { result.turns ≡ W.sees.turns walk }
        ensures given { result.given ≡ length (W.sees.found (W.sees.automaton walk) []) }
    {
        let found = walk.begin();
        let automaton = walk.walked();
        Stepper {
            walk,
            automaton,
            place: 0,
            depths,
            folds,
            found,
            of: PhantomData,
        }
    }

    /// The number of bytes consumed.
    #[inline(always)]
    pub fn place(&self) -> usize
        ensures { result ≡ size W.Unit.width self.now.read }
    {
        self.place
    }

    /// Consumes one unit, with at most two looks at states, amortized over all units.
    #[inline(always)]
    pub fn consume(&mut self, unit: W::Unit)
        requires { size W.Unit.width self.old.read + W.Unit.width (W.Unit.unit unit) < 2 ^ 64 }
        ensures automaton { self.new.automaton ≡ self.old.automaton }
        ensures depths { self.new.depths ≡ self.old.depths }
        ensures folds { self.new.folds ≡ self.old.folds }
        ensures read { self.new.read ≡ self.old.read ++ as_read self.old.folds (W.Unit.unit unit ∷ []) }
        ensures given { self.new.given ≡ self.old.given + length (W.sees.found self.new.automaton self.new.read) }
    {
        if unit.folds_apart(self.walk.overlaps()) && self.folds {
            let folded = unit.folded();
            let bytes = folded.num_bytes();
            self.advance(folded, bytes);
            return;
        }
        // Folding keeps the number of bytes.
        let bytes = unit.num_bytes();
        let read = if self.folds { unit.folded() } else { unit };
        self.advance(read, bytes);
    }

    /// Consumes one unit of `bytes` bytes as it is.
    #[inline(always)]
    fn advance(&mut self, unit: W::Unit, bytes: usize)
        requires fits { size W.Unit.width self.old.read + W.Unit.width (W.Unit.unit unit) < 2 ^ 64 }
        requires bytes { bytes ≡ W.Unit.width (W.Unit.unit unit) }
        ensures automaton { self.new.automaton ≡ self.old.automaton }
        ensures depths { self.new.depths ≡ self.old.depths }
        ensures folds { self.new.folds ≡ self.old.folds }
        ensures read { self.new.read ≡ self.old.read ++ W.Unit.unit unit ∷ [] }
        ensures given { self.new.given ≡ self.old.given + length (W.sees.found self.new.automaton self.new.read) }
    {
        self.place += bytes;
        self.found = self.walk.advance(unit);
    }

    /// Does nothing. Its contract bounds the turns.
    #[inline(always)]
    pub fn turns_are_bounded(&self)
        ensures { W.sees.bounds self.now.automaton self.now.read self.now.turns }
    {
        self.walk.turns_are_bounded();
    }
}

impl<'a, V: Copy, W: Resumable<V>> Stepper<'a, V, W> {
    /// Where the stepper stands, for `resume`, or over bytes for the automaton's calls of that
    /// name.
    #[inline(always)]
    pub fn into_standing(self) -> W::Standing
        ensures stands { W.stands self.entry.automaton result }
        ensures read { W.consumed result ≡ self.entry.read }
        ensures turns { W.taken result ≡ self.entry.turns }
        ensures given { W.given self.entry.automaton result ≡ self.entry.given }
    {
        let Stepper {
            walk,
            automaton: _automaton,
            place,
            depths: _depths,
            folds: _folds,
            found,
            of: _of,
        } = self;
        walk.stand(place, found)
    }
}

impl<'a, V: Copy, W: Stepwise<V>> Clone for Stepper<'a, V, W> {
    ghost is_clone = { λ s t. t ≡ s };

    ghost is_infallible = { λ _. Unit {0} };

    #[inline(always)]
    fn clone(&self) -> Result<Self, AllocError> {
        let walk = self.walk.clone()?;
        let automaton = walk.walked();
        Ok(Stepper {
            walk,
            automaton,
            place: self.place,
            depths: self.depths,
            folds: self.folds,
            found: self.found,
            of: PhantomData,
        })
    }
}
