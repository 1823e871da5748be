//! Leftmost matches in what is given unit by unit, each as soon as it is certain; and a haystack, or
//! what a source gives, with its matches replaced.
#![tactic(auto)]

pub mod appending;
pub mod block_source;
pub mod by_kind;
pub mod keep;
pub mod leftmost_from_reader;
pub mod leftmost_standing;
pub mod leftmost_stream;
pub mod piece;
pub mod replacing;
pub mod replacing_leftmost;
pub mod replacing_standard;
mod scan;
mod search;
pub mod searched;
pub mod sources;
pub mod stream_marks;
