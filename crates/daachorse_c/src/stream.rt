//! A stream: a haystack that comes in pieces.

ghost use Rattle.std.specs.Prelude.{◌≡◌, ◌≢◌, ◌+◌, ◌<◌, ◌^◌, [], true, false, IfErr, OnOk, length};
ghost use Rattle.daachorse_model.specs.Units.{size};
ghost use Rattle.daachorse_c.specs.declared.refusal.Refusal.TheVariants.{InvalidUtf8};
ghost use Rattle.daachorse_c.specs.Admitting.{IsNotAdmitted};
ghost use Rattle.daachorse_c.specs.Streams.{IsPlaced, read_by};
ghost use Rattle.daachorse_c.specs.Units.{IsOpenIn};

use crate::partial::Partial;
use crate::refusal::Refusal;
use crate::stepper::Standing;
use crate::stream_unit::{Pushed, StreamUnit};
use daachorse::StreamMarks;
use daachorse_core::edge_label::EdgeLabel;
use std::alloc::Global;

/// A search in a stream of units `U`, saved between calls without its automaton.
#[derive(Drop)]
pub struct Stream<U: EdgeLabel> {
    /// The saved stepper.
    pub standing: Standing<U>,
    /// The bytes of a partial unit.
    pub partial: Partial,
    /// What a leftmost search knows of the automaton. Empty for other searches.
    pub marks: StreamMarks<Global>,
    /// How many matches were reported in all.
    pub reported: usize,
    /// Whether no more bytes come.
    pub ended: bool,
}

impl<U: StreamUnit> Stream<U> {
    /// Fails if bytes would come after the end, if no unit begins with the first of them, or if the
    /// offset or match count would not fit a `usize` after so many more bytes and matches.
    pub(crate) fn admit(&self, bytes: &[u8], room: usize) -> Result<(), Refusal>
        requires place { IsPlaced U.EdgeLabel.width self.now.standing }
        requires partial { IsOpenIn U.which self.now.partial }
        ensures unended { OnOk result (self.now.ended ≡ true → length bytes.now ≡ 0) }
        ensures bytes { OnOk result (size U.EdgeLabel.width (read_by self.now.standing) + length self.now.partial + length bytes.now < 2 ^ 64) }
        ensures room { OnOk result (self.now.reported + room < 2 ^ 64) }
        ensures err { IfErr result (IsNotAdmitted U.which U.EdgeLabel.width self.now bytes.now room) }
    {
        let left = usize::MAX - self.standing.place();
        let partial = self.partial.as_slice().len();
        if partial > left || bytes.len() > left - partial || room > usize::MAX - self.reported {
            return Err(Refusal::StreamTooLong);
        }
        if bytes.is_empty() {
            return Ok(());
        }
        if self.ended {
            return Err(Refusal::StreamEnded);
        }
        match U::push(&self.partial, bytes[0]) {
            Pushed::Wrong => Err(Refusal::InvalidUtf8),
            Pushed::Whole(_) | Pushed::Open(_) => Ok(()),
        }
    }

    /// Fails if there is a partial character, so that the stream may not end there.
    pub(crate) fn may_end(&self) -> Result<(), Refusal>
        ensures ok { OnOk result (self.now.partial ≡ []) }
        ensures err { IfErr result (λ r. (r ≡ InvalidUtf8) × (self.now.partial ≢ [])) }
    {
        if self.partial.is_empty() {
            Ok(())
        } else {
            Err(Refusal::InvalidUtf8)
        }
    }

    /// The stream, of which no more bytes come.
    pub(crate) fn ended(self) -> Stream<U>
        ensures { result ≡ record self { ended = true } }
    {
        Stream {
            standing: self.standing,
            partial: self.partial,
            marks: self.marks,
            reported: self.reported,
            ended: true,
        }
    }
}
