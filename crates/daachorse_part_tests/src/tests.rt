//! The tests, a module for each subject.

mod bytewise_states;
mod edge_map;
mod elements;
mod errors;
mod forms;
mod mapper;
mod parts;
mod patterns;
mod placement;
mod prefilter;
mod profile;
mod requests;
mod room;
mod serializer;
mod texts;
mod trie;

use std::process::Abort;

/// Aborts with `what` unless `holds`. A call is proved faster than an assertion.
fn expect(rt: &impl Abort, holds: bool, what: &str) {
    assert!(rt; holds, "{what}");
}
