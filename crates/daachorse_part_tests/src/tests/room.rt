//! Reads of bytes whose counts promise more than they hold: nothing is allocated before the bytes
//! for it are there.

use super::expect;
use daachorse_charwise_states::mapper::CodeMapper;
use daachorse_core::Output;
use daachorse_core::errors::DaachorseError;
use daachorse_prefilter::prefilter::Prefilter;
use daachorse_serializer::serializer::{SerializableVec, Table};
use refusing::Refusing;
use std::alloc::Global;

/// Whether these bytes are refused as no such value.
fn is_refused<S: SerializableVec + Drop>(alloc: S::Alloc, bytes: &[u8]) -> bool {
    match S::deserialize_from_slice(alloc, bytes) {
        Ok(_) => false,
        Err(error) => error == DaachorseError::invalid_automaton(),
    }
}

/// The greatest count.
const NUMBER: [u8; 4] = [255, 255, 255, 255];

/// The greatest count, and as many bytes as an item or two take.
const COUNTED: [u8; 20] = [
    255, 255, 255, 255, 0, 0, 0, 0, 0, 0, 0, 0, 0, 0, 0, 0, 0, 0, 0, 0,
];

/// What is read.
#[derive(Clone, Copy)]
enum Counted {
    Bytes,
    Numbers,
    Outputs,
    Codes,
    Table,
    Filter,
}

/// What is read, its name, and the bytes.
const ROWS: [(Counted, &str, &[u8]); 10] = [
    (Counted::Bytes, "a count of bytes", &NUMBER),
    (Counted::Bytes, "a list of bytes", &COUNTED),
    (Counted::Numbers, "a count of numbers", &NUMBER),
    (Counted::Numbers, "a list of numbers", &COUNTED),
    (Counted::Outputs, "a count of outputs", &NUMBER),
    (Counted::Outputs, "a list of outputs", &COUNTED),
    (Counted::Codes, "a count of codes", &NUMBER),
    (Counted::Codes, "a table of codes", &COUNTED),
    (Counted::Table, "a table", &COUNTED),
    (Counted::Filter, "a filter", &[1, 4, 255, 255]),
];

/// Whether the bytes of a row are refused.
fn holds(heap: &Refusing<Global>, of: Counted, bytes: &[u8]) -> bool {
    match of {
        Counted::Bytes => is_refused::<Vec<u8, &Refusing<Global>>>(heap, bytes),
        Counted::Numbers => is_refused::<Vec<u32, &Refusing<Global>>>(heap, bytes),
        Counted::Outputs => is_refused::<Vec<Output<u128>, &Refusing<Global>>>(heap, bytes),
        Counted::Codes => is_refused::<CodeMapper<&Refusing<Global>>>(heap, bytes),
        Counted::Table => is_refused::<Table<u32, 0xffff_ffff, &Refusing<Global>>>(heap, bytes),
        Counted::Filter => is_refused::<Option<Prefilter<&Refusing<Global>>>>(heap, bytes),
    }
}

#[test]
fn a_count_asks_for_no_room(rt: HostRuntime) {
    let heap = Refusing::above(rt.alloc(), 1024);
    for (of, name, bytes) in ROWS {
        expect(&rt, holds(&heap, of, bytes), name);
    }
}
