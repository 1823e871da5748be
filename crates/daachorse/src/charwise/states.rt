//! The states of the automaton over characters, which have a crate of their own.

pub use daachorse_charwise_states::for_rows::{LeftmostForRows, StandardForRows};
pub use daachorse_charwise_states::state::State;
pub use daachorse_charwise_states::states::States;
pub use daachorse_charwise_states::view::{Leftmost, Standard};
pub use daachorse_core::turns::{Look, Seen, Turns};
pub use daachorse_search::automaton::Automaton;
