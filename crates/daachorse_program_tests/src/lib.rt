//! Tests of the programs and of what builds on the facade `daachorse`: its public paths, custom
//! values, and the callers in `daachorse_uses`.
#![tactic(auto)]

#[cfg(test)]
mod command;
#[cfg(test)]
mod grep;
#[cfg(test)]
mod halting;
#[cfg(test)]
mod index;
#[cfg(test)]
mod own_values;
#[cfg(test)]
mod paths;
#[cfg(test)]
mod tokens;
#[cfg(test)]
mod uses;
#[cfg(test)]
mod values;

#[cfg(test)]
use std::process::Abort;

/// Aborts with `what` unless `holds`. A call is proved faster than an assertion.
#[cfg(test)]
fn expect(rt: &impl Abort, holds: bool, what: &str) {
    assert!(rt; holds, "{what}");
}
