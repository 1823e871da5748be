//! Small proved callers of the automata: examples of what is known after a call.
#![tactic(auto)]

pub mod highlight;
pub mod lookup;
pub mod rating;
pub mod redact;
pub mod rules;
pub mod stream;
pub mod words;
