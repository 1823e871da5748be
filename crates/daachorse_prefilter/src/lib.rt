//! The prefilter: which places of a haystack may begin a pattern.
//!
//! [`prefilter`] finds the first candidate: a place that it lets pass, as it does each place where
//! one of its patterns occurs. [`buckets`] passes over places with less work, where a pattern is
//! long enough, and [`places`] asks both.
//! [`skipping::Skipping`] is what a search asks until its gate closes, over the bytes of a slice
//! and over the UTF-8 form of a text.
#![tactic(auto)]

pub mod buckets;
pub mod places;
pub mod prefilter;
pub mod skipping;
