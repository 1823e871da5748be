//! From patterns to a trie, once for automata over bytes and over characters.
//!
//! The first refusal ends a build. All indexes are converted first, then the patterns are added in
//! order, and the limit on their number is tested last.
#![tactic(auto)]

pub mod corpus;
pub mod filter;
pub mod folding;
pub mod gathering;
pub mod pattern;
pub mod settings;
pub mod trie;
