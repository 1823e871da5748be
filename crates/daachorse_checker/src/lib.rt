//! The check of an untrusted array: whether it is a right pattern matching machine.
//!
//! Time and memory are linear in its elements, its outputs and its units.
#![tactic(auto)]

pub mod chains;
pub mod checker;
pub mod filters;
pub mod folded;
pub mod links;
pub mod ranges;
pub mod ranks;
pub mod runs;
