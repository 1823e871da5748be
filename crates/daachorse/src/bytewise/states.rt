//! The states of the automaton over bytes, which have a crate of their own.

pub use daachorse_bytewise_states::state::State;
pub use daachorse_bytewise_states::states::States;
pub use daachorse_bytewise_states::view::{Leftmost, Standard};
pub use daachorse_core::turns::{Look, Seen, Turns};
pub use daachorse_search::automaton::Automaton;
