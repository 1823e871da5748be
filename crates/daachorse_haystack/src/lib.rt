//! What is searched: haystacks, sources of units, and the trait of their filters.
//!
//! Bytes and characters are each read as they are or folded. The searches read what is searched by
//! [`haystack::Haystack`] and [`source::Source`] alone.
#![tactic(auto)]

pub mod decoding;
pub mod filter;
pub mod haystack;
pub mod source;
pub mod text;
