//! The states of the automaton over characters, in a double array.
//!
//! [`states::States`] holds a dictionary, and [`view::View`] is what a search sees of it, or with
//! rows [`for_rows::ForRows`].
#![tactic(auto)]

pub mod edges;
pub mod for_rows;
pub mod mapper;
mod packing;
pub mod state;
mod state_rows;
pub mod states;
pub mod strings;
mod unchecked;
pub mod view;
