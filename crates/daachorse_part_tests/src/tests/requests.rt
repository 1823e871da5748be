//! Runs out of memory at each allocation of a call in turn: the call returns that error, and a
//! writer keeps what it had.

use super::expect;
use daachorse_charwise_states::mapper::CodeMapper;
use daachorse_core::MatchKind;
use daachorse_core::errors::{DaachorseError, Result};
use daachorse_patterns::trie::build_trie;
use daachorse_prefilter::prefilter::{Prefilter, PrefilterBuilder};
use daachorse_serializer::serializer::SerializableVec;
use refusing::{Answer, Call, Refusing, each_request};
use std::alloc::Global;

/// A call that allocates.
#[derive(Clone, Copy)]
enum Request {
    CloneCodes,
    CloneFilter,
    CloneStates,
    WriteCodes,
    WriteFilter,
    WriteList,
}

/// The calls, each with its name.
const REQUESTS: [(Request, &str); 6] = [
    (Request::CloneCodes, "a clone of codes"),
    (Request::CloneFilter, "a clone of a filter"),
    (Request::CloneStates, "a clone of each state of a trie"),
    (Request::WriteCodes, "writing codes"),
    (Request::WriteFilter, "writing a filter"),
    (Request::WriteList, "writing a list"),
];

/// The prefilter of two words.
fn filter_of_words<'a>(
    heap: &'a Refusing<Global>,
) -> Result<Option<Prefilter<&'a Refusing<Global>>>> {
    let mut builder = PrefilterBuilder::new(heap)?;
    builder.add(b"aria");
    builder.add(b"iris");
    Ok(builder.build())
}

/// Whether a value is written after two bytes, which stay even if that fails. What is written
/// begins with `beginning`.
fn is_written<'a, S: SerializableVec>(
    heap: &'a Refusing<Global>,
    value: &S,
    beginning: &[u8],
) -> Result<bool>
    requires { S.can_write (S.shape value.now) }
{
    value.in_range();
    let mut bytes = Vec::from_slice(heap, &[7u8, 42])?;
    let outcome = value.serialize_to_vec(&mut bytes);
    let is_kept = bytes.starts_with(&[7, 42]);
    let written = bytes.get(2..).unwrap_or(b"");
    match outcome {
        Ok(()) => Ok(is_kept && written.starts_with(beginning)),
        Err(error) if is_kept => Err(error),
        Err(_) => Ok(false),
    }
}

/// Whether a prefilter is cloned, or written with the length of its window first.
fn gives_of_filter(heap: &Refusing<Global>, request: Request) -> Result<bool> {
    match filter_of_words(heap)? {
        None => Ok(false),
        Some(filter) => match request {
            Request::CloneFilter => Ok(filter.clone()? == filter),
            _ => is_written(heap, &filter, &[4]),
        },
    }
}

/// A written code mapper: the number of entries, the entries, and the size of the alphabet.
const WRITTEN_CODES: [u8; 36] = [
    7, 0, 0, 0, 1, 0, 0, 0, 0, 0, 0, 0, 255, 255, 255, 255, 4, 0, 0, 0, 2, 0, 0, 0, 255, 255, 255,
    255, 3, 0, 0, 0, 5, 0, 0, 0,
];

/// Whether a code mapper is cloned, or written.
fn gives_of_codes(heap: &Refusing<Global>, request: Request) -> Result<bool> {
    let codes = CodeMapper::new(heap, &[3, 6, 0, 2, 3, 0, 3])?;
    match request {
        Request::CloneCodes => Ok(codes.clone()? == codes),
        _ => is_written(heap, &codes, &WRITTEN_CODES),
    }
}

const PATVALS: [(&[u8], u32); 3] = [(b"bcd", 0), (b"abc", 1), (b"ab", 2)];

/// Whether each state of a trie is cloned.
fn are_cloned(heap: &Refusing<Global>) -> Result<bool> {
    let trie = build_trie(heap, MatchKind::Standard, None, &PATVALS)?;
    let mut holds = true;
    for state in trie.states() {
        let cloned = state.clone()?;
        holds = holds && cloned.edges().len() == state.edges().len();
    }
    Ok(holds)
}

/// Whether a call returns what it should.
fn gives(heap: &Refusing<Global>, request: Request) -> Result<bool> {
    match request {
        Request::CloneCodes | Request::WriteCodes => gives_of_codes(heap, request),
        Request::CloneStates => are_cloned(heap),
        Request::WriteList => {
            let list = vec![in heap; 1u32, 2, 3]?;
            is_written(
                heap,
                &list,
                &[3, 0, 0, 0, 1, 0, 0, 0, 2, 0, 0, 0, 3, 0, 0, 0],
            )
        }
        _ => gives_of_filter(heap, request),
    }
}

impl Call for Request {
    fn answer(&self, heap: &Refusing<Global>) -> Answer {
        match gives(heap, *self) {
            Ok(true) => Answer::Right,
            Err(DaachorseError::OutOfMemory(_)) => Answer::Refused,
            _ => Answer::Wrong,
        }
    }
}

#[test]
fn each_request_may_be_refused(rt: HostRuntime) {
    for (request, name) in &REQUESTS {
        expect(&rt, each_request(rt.alloc(), request), name);
    }
}
