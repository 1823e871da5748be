//! What holds of every array of elements with children, failure links and outputs.
//!
//! `specs/Machines.antt` defines the pattern matching machine of Aho and Corasick (1975) over such
//! an array. Lookups walk down from the root along child edges alone: they follow no failure link
//! and take no memory.
#![tactic(auto)]

pub mod array;
mod children;
pub mod climbs;
pub mod depths;
pub mod lengths;
pub mod longest;
pub mod lookup;
pub mod marks;
pub mod patterns;
pub mod prefixes;
pub mod siblings;
pub mod texts;
pub mod trie;
pub mod values;
