//! Streams through an automaton over bytes.

ghost use Rattle.std.specs.Prelude.{◌≡◌, ◌+◌, ◌<◌, ◌^◌, Bool, List, ℕ, false, true, IfErr, IfOk, length};
ghost use Rattle.daachorse_model.specs.declared.Match.{Match as ModelMatch};
ghost use Rattle.daachorse_model.specs.Units.{byte_width, size};
ghost use Rattle.daachorse.specs.bytewise.Automata.{kind_of, states_of};
ghost use Rattle.daachorse_bytewise_states.specs.Valid.{sees};
ghost use Rattle.daachorse_c.specs.declared.refusal.Refusal.TheVariants.{OutOfMemory};
ghost use Rattle.daachorse_c.specs.declared.search.StreamKind.TheVariants.{Leftmost as Leftmosts};
ghost use Rattle.daachorse_c.specs.Automata.{Bytes};
ghost use Rattle.daachorse_c.specs.Searches.{ServesKind, search_of};
ghost use Rattle.daachorse_c.specs.Streams.{AreMarksFor, BeginsStepping, GoesOnIn, HasReported, HasReportedBy, IsAtBeginning, IsOver, IsUnended, KnowsEnd, StandsIn, Reports, folds_in, kind_by, kind_in, read_by, read_in};

use crate::feeding::Done;
use crate::found::CMatch;
use crate::overlapping_stream::OverlappingStream;
use crate::partial::Partial;
use crate::refusal::Refusal;
use crate::search::StreamKind;
use crate::stepper::{Finder, Standing, Stepper};
use crate::stream::Stream;
use daachorse::bytewise::states::{Leftmost, Standard};
use daachorse::{DoubleArrayAhoCorasick, StreamMarks};
use std::alloc::Global;

/// A stepper through the states of an automaton over bytes.
type ByteStepper<'a> = Stepper<'a, Standard<'a, u32>, Leftmost<'a, u32>>;

/// A fresh stream of this search. Fails only if an allocation fails, which a leftmost search
/// makes.
pub(crate) fn begin_bytes(
    alloc: Global,
    automaton: &DoubleArrayAhoCorasick<u32, Global>,
    kind: StreamKind,
) -> Result<Stream<u8>, Refusal>
    requires { ServesKind (search_of kind) (kind_of automaton.now) }
    ensures goes_on { IfOk result (GoesOnIn (Bytes automaton.now)) }
    ensures begins { IfOk result (IsAtBeginning kind) }
    ensures err { IfErr result (λ r. (r ≡ OutOfMemory) × (kind ≡ Leftmosts)) }
{
    let marks = marks_for(alloc, automaton, kind)?;
    let stepper = stepper(alloc, automaton, &marks, kind)?;
    Ok(Stream {
        standing: stepper.into_standing(),
        partial: Partial::none(),
        marks,
        reported: 0,
        ended: false,
    })
}

/// Consumes bytes while there is room for matches, and writes these.
pub(crate) fn consume_bytes(
    stream: Stream<u8>,
    automaton: &DoubleArrayAhoCorasick<u32, Global>,
    bytes: &[u8],
    out: &mut [CMatch],
) -> (Stream<u8>, Done)
    requires goes_on { GoesOnIn (Bytes automaton.now) stream }
    requires unended { stream.ended ≡ true → length bytes.now ≡ 0 }
    requires bytes { size byte_width (read_by stream.standing) + length stream.partial + length bytes.now < 2 ^ 64 }
    requires room { stream.reported + length out.old < 2 ^ 64 }
    ensures goes_on { GoesOnIn (Bytes automaton.now) result.0 }
    ensures reports { Reports (Bytes automaton.now) bytes.now stream result.0 out.old out.new result.1 }
{
    let Stream {
        standing,
        mut partial,
        marks,
        reported,
        ended,
    } = stream;
    let mut stepper = resume(automaton, &marks, standing, ended);
    let done = stepper.feed(&mut partial, bytes, out);
    let stream = Stream {
        standing: stepper.into_standing(),
        partial,
        marks,
        reported: reported + done.written,
        ended,
    };
    (stream, done)
}

/// What a stream of this search has to know of the automaton. Fails only if an allocation fails,
/// which a leftmost search makes.
fn marks_for(
    alloc: Global,
    automaton: &DoubleArrayAhoCorasick<u32, Global>,
    kind: StreamKind,
) -> Result<StreamMarks<Global>, Refusal>
    ensures ok { IfOk result (AreMarksFor byte_width kind (sees (states_of automaton.now))) }
    ensures err { IfErr result (λ r. (r ≡ OutOfMemory) × (kind ≡ Leftmosts)) }
{
    match kind {
        StreamKind::Find | StreamKind::Overlapping | StreamKind::NoSuffix => Ok(StreamMarks {
            children: Vec::new(alloc),
            longest: 0,
        }),
        StreamKind::Leftmost => Ok(automaton.stream_marks(alloc)?),
    }
}

/// A fresh stepper of this search. Fails only if an allocation fails, which a leftmost search
/// makes.
#[tactic(auto, using(daachorse_bytewise_states::proofs::DeadLaws::alive))]
fn stepper<'a>(
    alloc: Global,
    automaton: &'a DoubleArrayAhoCorasick<u32, Global>,
    marks: &'a StreamMarks<Global>,
    kind: StreamKind,
) -> Result<ByteStepper<'a>, Refusal>
    requires serves { ServesKind (search_of kind) (kind_of automaton.now) }
    requires marks { AreMarksFor byte_width kind (sees (states_of automaton.now)) marks.now }
    ensures ok { IfOk result (BeginsStepping byte_width sees sees (states_of automaton.entry.now) (states_of automaton.entry.now) automaton.entry.now.folds kind) }
    ensures err { IfErr result (λ r. (r ≡ OutOfMemory) × (kind ≡ Leftmosts)) }
{
    let folds = automaton.is_ascii_case_insensitive();
    match kind {
        StreamKind::Find => Ok(Stepper::Find(Finder::new(automaton.standard(), folds))),
        StreamKind::Overlapping => Ok(Stepper::Overlapping(OverlappingStream::new(
            automaton.standard(),
            folds,
            false,
        ))),
        StreamKind::NoSuffix => Ok(Stepper::Overlapping(OverlappingStream::new(
            automaton.standard(),
            folds,
            true,
        ))),
        StreamKind::Leftmost => Ok(Stepper::Leftmost(automaton.leftmost_stream(alloc, marks)?)),
    }
}

/// Resumes a stepper that was saved over the same automaton. `ended` says that no more bytes come.
fn resume<'a>(
    automaton: &'a DoubleArrayAhoCorasick<u32, Global>,
    marks: &'a StreamMarks<Global>,
    standing: Standing<u8>,
    ended: bool,
) -> ByteStepper<'a>
    requires serves { ServesKind (search_of (kind_by standing)) (kind_of automaton.now) }
    requires marks { AreMarksFor byte_width (kind_by standing) (sees (states_of automaton.now)) marks.now }
    requires stands { StandsIn byte_width sees sees (λ unit. unit) (states_of automaton.now) (states_of automaton.now) standing }
    requires unended { ended ≡ false → IsUnended standing }
    ensures over { IsOver (states_of automaton.entry.now) (states_of automaton.entry.now) result }
    ensures folds { folds_in result ≡ automaton.entry.now.folds }
    ensures search { kind_in result ≡ kind_by standing }
    ensures read { read_in result ≡ read_by standing }
    ensures end { KnowsEnd ended result }
    ensures reported { (reported : List (ModelMatch ℕ)) → HasReportedBy byte_width sees sees (states_of automaton.entry.now) (states_of automaton.entry.now) automaton.entry.now.folds standing reported → HasReported byte_width sees sees result reported }
{
    let folds = automaton.is_ascii_case_insensitive();
    match standing {
        Standing::Find(standing, reported) => {
            Stepper::Find(Finder::resume(automaton.standard(), standing, reported, folds))
        }
        Standing::Overlapping(standing) => {
            Stepper::Overlapping(OverlappingStream::resume(automaton.standard(), standing, folds))
        }
        Standing::Leftmost(standing) => {
            let mut stream = automaton.resume_leftmost_stream(marks, standing);
            if ended {
                stream.end();
            }
            Stepper::Leftmost(stream)
        }
    }
}
