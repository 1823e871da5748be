//! Tests of single crates below the automata: worked rows, printed texts and written forms.
//!
//! They have a crate of their own, since a crate with tests is proved twice.
#![tactic(auto)]

#[cfg(test)]
mod tests;
