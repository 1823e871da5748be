//! Streams through automata of either unit.

ghost use Rattle.std.specs.Prelude.{◌≡◌, ◌≢◌, ◌+◌, ◌<◌, ◌^◌, [], true, IfErr, IfOk, OnOk, length};
ghost use Rattle.daachorse_model.specs.Units.{size};
ghost use Rattle.daachorse_c.specs.declared.refusal.Refusal.TheVariants.{InvalidUtf8, OutOfMemory};
ghost use Rattle.daachorse_c.specs.declared.search.StreamKind.TheVariants.{Leftmost};
ghost use Rattle.daachorse_c.specs.Admitting.{IsNotAdmitted};
ghost use Rattle.daachorse_c.specs.Automata.{Automaton, kind_of, unit_of, width_of};
ghost use Rattle.daachorse_c.specs.Held.{automaton_of, stream_of};
ghost use Rattle.daachorse_c.specs.Searches.{ServesKind, search_of};
ghost use Rattle.daachorse_c.specs.Streams.{IsAtBeginning, Reports, read_by};
ghost use Rattle.daachorse_c.specs.Through.{GoesThrough};

use crate::byte_streams::{begin_bytes, consume_bytes};
use crate::character_streams::{begin_characters, consume_characters};
use crate::feeding::Done;
use crate::found::CMatch;
use crate::refusal::Refusal;
use crate::search::StreamKind;
use crate::searches::Searches;
use crate::stream::Stream;
use std::alloc::Global;

/// A stream through an automaton.
#[derive(Drop)]
pub enum Streams {
    /// Through one over bytes.
    Bytes(Stream<u8>),
    /// Through one over characters.
    Characters(Stream<char>),
}

impl Streams {
    /// A fresh stream of this search. Fails only if an allocation fails, which a leftmost search
    /// makes.
    pub(crate) fn begin(
        alloc: Global,
        searches: &Searches,
        kind: StreamKind,
    ) -> Result<Streams, Refusal>
        requires { ServesKind (search_of kind) (kind_of (automaton_of searches.now)) }
        ensures goes_on { IfOk result (GoesThrough (automaton_of searches.now)) }
        ensures begins { IfOk result (λ s. IsAtBeginning kind (stream_of s)) }
        ensures err { IfErr result (λ r. (r ≡ OutOfMemory) × (kind ≡ Leftmost)) }
    {
        match searches {
            Searches::Bytes(bytewise) => {
                Ok(Streams::Bytes(begin_bytes(alloc, bytewise.automaton(), kind)?))
            }
            Searches::Characters(charwise) => Ok(Streams::Characters(begin_characters(
                alloc,
                charwise.automaton(),
                kind,
            )?)),
        }
    }

    /// Fails if the stream takes none of the bytes, or has no room for so many matches more.
    pub(crate) fn admit(
        &self,
        searches: &Searches,
        bytes: &[u8],
        room: usize,
    ) -> Result<(), Refusal>
        requires { GoesThrough (automaton_of searches.now) self.now }
        ensures unended { OnOk result ((stream_of self.now).ended ≡ true → length bytes.now ≡ 0) }
        ensures bytes { OnOk result (size (width_of (automaton_of searches.now)) (read_by (stream_of self.now).standing) + length (stream_of self.now).partial + length bytes.now < 2 ^ 64) }
        ensures room { OnOk result ((stream_of self.now).reported + room < 2 ^ 64) }
        ensures err { IfErr result (IsNotAdmitted (unit_of (automaton_of searches.now)) (width_of (automaton_of searches.now)) (stream_of self.now) bytes.now room) }
    {
        let _ = searches;
        match self {
            Streams::Bytes(stream) => stream.admit(bytes, room),
            Streams::Characters(stream) => stream.admit(bytes, room),
        }
    }

    /// Consumes bytes while there is room for matches, and writes these.
    pub(crate) fn consume(
        self,
        searches: &Searches,
        bytes: &[u8],
        out: &mut [CMatch],
    ) -> (Streams, Done)
        requires goes_on { GoesThrough (automaton_of searches.now) self }
        requires unended { (stream_of self).ended ≡ true → length bytes.now ≡ 0 }
        requires bytes { size (width_of (automaton_of searches.now)) (read_by (stream_of self).standing) + length (stream_of self).partial + length bytes.now < 2 ^ 64 }
        requires room { (stream_of self).reported + length out.old < 2 ^ 64 }
        ensures goes_on { GoesThrough (automaton_of searches.now) result.0 }
        ensures reports { Reports (automaton_of searches.now) bytes.now (stream_of self) (stream_of result.0) out.old out.new result.1 }
    {
        match self {
            Streams::Bytes(stream) => match searches {
                Searches::Bytes(bytewise) => {
                    let (stream, done) = consume_bytes(stream, bytewise.automaton(), bytes, out);
                    (Streams::Bytes(stream), done)
                }
                Searches::Characters(_) => unreachable!(),
            },
            Streams::Characters(stream) => match searches {
                Searches::Bytes(_) => unreachable!(),
                Searches::Characters(charwise) => {
                    let (stream, done) = consume_characters(
                        stream,
                        charwise.automaton(),
                        bytes,
                        out,
                    );
                    (Streams::Characters(stream), done)
                }
            },
        }
    }

    /// Fails if there is a partial character, so that the stream may not end there.
    pub(crate) fn may_end(&self) -> Result<(), Refusal>
        ensures ok { OnOk result ((stream_of self.now).partial ≡ []) }
        ensures err { IfErr result (λ r. (r ≡ InvalidUtf8) × ((stream_of self.now).partial ≢ [])) }
    {
        match self {
            Streams::Bytes(stream) => stream.may_end(),
            Streams::Characters(stream) => stream.may_end(),
        }
    }

    /// The stream, of which no more bytes come.
    pub(crate) fn ended(self) -> Streams
        ensures ended { stream_of result ≡ record (stream_of self) { ended = true } }
        ensures goes_on { (a : Automaton) → GoesThrough a self → (stream_of self).partial ≡ [] → GoesThrough a result }
    {
        match self {
            Streams::Bytes(stream) => Streams::Bytes(stream.ended()),
            Streams::Characters(stream) => Streams::Characters(stream.ended()),
        }
    }
}
