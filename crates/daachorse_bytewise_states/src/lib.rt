//! The states of the automaton over bytes, in a double array.
//!
//! [`states::States`] holds a dictionary, and [`view::View`] is what a search sees of it.
#![tactic(auto)]

pub mod edges;
pub mod for_kinds;
mod packing;
pub mod patterns;
pub mod state;
mod state_rows;
pub mod states;
mod unchecked;
pub mod view;
