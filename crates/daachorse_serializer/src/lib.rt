//! Written forms of values, and the packing of two small numbers into one word.
#![tactic(auto)]

pub mod ending;
pub mod intpack;
pub mod lists;
pub mod mode;
pub mod numbers;
pub mod serializer;
pub mod values;
pub mod words;
