//! What all layers share: errors, outputs, labels of edges, and a search's record for contracts.
#![tactic(auto)]

pub mod ascii_fold;
pub mod counter;
pub mod edge_label;
pub mod errors;
pub mod outputs;
pub mod turns;
pub mod utils;

pub use daachorse_model::{Match, MatchKind};
pub use outputs::{Empty, Output};

/// The index of the root state: that of the empty text, where every search begins.
pub const ROOT_STATE_IDX: u32 = 0;

/// The index of the dead state, where a leftmost search stops. No text leads there.
pub const DEAD_STATE_IDX: u32 = 1;
