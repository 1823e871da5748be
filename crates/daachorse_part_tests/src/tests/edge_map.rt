//! Edge maps: one edge takes no memory, and each growth is refused in turn.

use super::expect;
use daachorse_build::edge_map::EdgeMap;
use refusing::{Answer, Call, Refusing, each_request};
use std::alloc::Global;
use std::test::Fail;

/// An edge map whose allocations may be refused.
type Edges<'a> = EdgeMap<u8, &'a Refusing<Global>>;

#[test]
fn one_edge_takes_no_memory_and_stays(rt: HostRuntime) -> Result<(), Fail> {
    let heap = Refusing::new(rt.alloc(), 0);
    let mut map = Edges::default();
    map.insert(&heap, b'b', 1)?;
    map.insert(&heap, b'b', 2)?;
    expect(&rt, map.clone()?.get(&b'b') == Some(&2), "the edge");
    expect(&rt, !heap.has_refused(), "no request");
    expect(&rt, map.insert(&heap, b'a', 3).is_err(), "the second edge");
    expect(&rt, heap.has_refused(), "a request");
    expect(&rt, map.get(&b'a').is_none(), "the second");
    Ok(())
}

/// Labels, out of order. The edge of each has the label's number as its id.
const LABELS: &[u8] = b"tresnflougmj";

/// Whether the map has the edges of all labels but the refused one.
fn lists(map: &Edges<'_>, refused: Option<u8>) -> bool {
    for label in LABELS {
        let id = u32::from(*label);
        let is_edge = map.get(label) == Some(&id);
        if is_edge == (refused == Some(*label)) {
            return false;
        }
    }
    true
}

/// Inserts the labels in turn, and returns the last one that was refused.
fn insert_all<'a>(map: &mut Edges<'a>, heap: &'a Refusing<Global>) -> Option<u8> {
    let mut refused = None;
    for label in LABELS {
        if map.insert(heap, *label, u32::from(*label)).is_err() {
            refused = Some(*label);
        }
    }
    refused
}

/// Inserts the labels in turn, and clones the map.
struct Inserts;

impl Call for Inserts {
    fn answer(&self, heap: &Refusing<Global>) -> Answer {
        let mut map = Edges::default();
        let refused = insert_all(&mut map, heap);
        let is_listed = lists(&map, refused);
        match map.clone() {
            Ok(copy) if !is_listed || !lists(&copy, refused) => Answer::Wrong,
            Ok(_) if refused.is_none() => Answer::Right,
            _ => Answer::Refused,
        }
    }
}

#[test]
fn each_growth_is_refused_in_turn(rt: HostRuntime) {
    expect(&rt, each_request(rt.alloc(), &Inserts), "the inserts");
}

#[test]
fn the_chosen_request_alone_is_refused(rt: HostRuntime) {
    for chosen in 0..4u64 {
        let heap = Refusing::new(rt.alloc(), chosen);
        for request in 0..3u64 {
            let mut list: Vec<u8, &Refusing<Global>> = Vec::new(&heap);
            let is_refused = list.push(1).is_err();
            expect(&rt, is_refused == (request == chosen), "a request");
        }
        expect(&rt, heap.has_refused() == (chosen < 3), "a refusal");
    }
}
