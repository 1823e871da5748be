//! The trie of patterns from which automata over bytes and over characters are made.
#![tactic(auto)]

pub mod edge_map;
mod few;
pub mod nfa_builder;
