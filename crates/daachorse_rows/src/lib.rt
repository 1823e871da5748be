//! A faster look at the states near the root: each has a row with the end of every step.
//!
//! [`rows::Rows`] keeps the rows of an automaton's states, and [`view::RowView`] is an automaton of
//! the same dictionary over them.
#![tactic(auto)]

pub mod label;
mod making;
pub mod refused;
pub mod rows;
pub mod view;
