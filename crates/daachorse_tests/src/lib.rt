//! Tests of the automata that are no rows of a table: calls that are refused memory, readers and
//! writers that fail, what is asked behind its end, and automata that are told apart.
//!
//! Functions are short and each search is begun in one place, which keeps the proofs short.
#![tactic(auto)]

#[cfg(test)]
mod automata;
#[cfg(test)]
mod blocks;
#[cfg(test)]
mod bytewise;
#[cfg(test)]
mod charwise;
#[cfg(test)]
mod copies;
#[cfg(test)]
mod ends;
#[cfg(test)]
mod finding;
#[cfg(test)]
mod readers;
#[cfg(test)]
mod requests;
#[cfg(test)]
mod room;
#[cfg(test)]
mod rows;
#[cfg(test)]
mod steppers;
#[cfg(test)]
mod values;
#[cfg(test)]
mod writers;

#[cfg(test)]
use std::process::Abort;

/// Aborts with `what` unless `holds`. A call is proved faster than an assertion.
#[cfg(test)]
fn expect(rt: &impl Abort, holds: bool, what: &str) {
    assert!(rt; holds, "{what}");
}

/// Aborts with `what` and the kind of units unless `holds`.
#[cfg(test)]
fn expect_over(rt: &impl Abort, holds: bool, what: &str, units: &str) {
    assert!(rt; holds, "{what}, over {units}");
}
