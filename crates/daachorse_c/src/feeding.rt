//! Bytes fed to a stepper while there is room for what it reports.

ghost use Rattle.std.specs.Prelude.{◌≡◌, ◌<◌, ◌^◌, ◌+◌, ℕ, Bool, List, false, length};
ghost use Rattle.daachorse_model.specs.declared.Match.{Match};
ghost use Rattle.daachorse_model.specs.Units.{size};
ghost use Rattle.daachorse_c.specs.Feeding.{Feeds};
ghost use Rattle.daachorse_c.specs.Streams.{HasReported, IsOver, KnowsEnd, folds_in, kind_in, read_in};
ghost use Rattle.daachorse_c.specs.Units.{IsOpenIn};

use crate::found::CMatch;
use crate::partial::Partial;
use crate::stepper::Stepper;
use crate::stream_unit::{Pushed, StreamUnit};
use daachorse_search::automaton::Automaton;

/// What a call did.
#[derive(Clone, Copy)]
pub struct Done {
    /// The number of bytes consumed.
    pub taken: usize,
    /// The number of matches written.
    pub written: usize,
}

impl<'a, S: Automaton<u32>, L: Automaton<u32, Unit = S::Unit>> Stepper<'a, S, L>
where
    S::Unit: StreamUnit,
{
    /// Consumes bytes that begin units while there is room for matches, and writes these. `partial`
    /// has the bytes of a partial unit.
    pub(crate) fn feed(&mut self, partial: &mut Partial, bytes: &[u8], out: &mut [CMatch]) -> Done
        requires partial { IsOpenIn S.Unit.which partial.old }
        requires unended { 0 < length bytes.now → KnowsEnd false self.old }
        requires fits { size S.Unit.width (read_in self.old) + length partial.old + length bytes.now < 2 ^ 64 }
        ensures over { (a : S) (b : L) → IsOver a b self.old → IsOver a b self.new }
        ensures folds { folds_in self.new ≡ folds_in self.old }
        ensures search { kind_in self.new ≡ kind_in self.old }
        ensures end { (ended : Bool) → KnowsEnd ended self.old → (0 < length bytes.now → ended ≡ false) → KnowsEnd ended self.new }
        ensures partial { IsOpenIn S.Unit.which partial.new }
        ensures feeds { (reported : List (Match ℕ)) → HasReported S.Unit.width S.sees L.sees self.old reported → Feeds S.Unit.which S.Unit.width S.sees L.sees bytes.now reported self.old self.new partial.old partial.new out.old out.new result }
    {
        let mut taken = 0;
        let mut written = self.report(out);
        while written < out.len() && taken < bytes.len() {
            match S::Unit::push(partial, bytes[taken]) {
                Pushed::Wrong => break,
                Pushed::Open(more) => *partial = more,
                Pushed::Whole(unit) => {
                    *partial = Partial::none();
                    self.consume(unit);
                    written += self.report(&mut out[written..]);
                }
            }
            taken += 1;
        }
        Done { taken, written }
    }
}
