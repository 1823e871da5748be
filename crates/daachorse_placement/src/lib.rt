//! The placement of a trie's edges in a double array, for bytes and for characters.
#![tactic(auto)]

pub mod build_helper;
