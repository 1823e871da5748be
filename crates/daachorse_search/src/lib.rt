//! The searches, once for bytes and characters, for haystacks and sources.
//!
//! Each search holds an [`automaton::Automaton`] by value, and none allocates. A standard search
//! reads one unit at a time with a [`walk::Walk`]. Two loops read on to its next match: that of
//! [`matches`] in a haystack, which may ask a filter, and [`scan::scan`] in a source. A leftmost
//! search repeats [`best::scan_best`].
#![tactic(auto)]

pub mod automaton;
pub mod best;
pub mod ending_here;
pub mod find;
pub mod find_stepper;
pub mod leftmost;
pub mod matches;
pub mod matches_from;
pub mod matches_from_reader;
pub mod overlapping;
pub mod overlapping_stepper;
pub mod pieces;
pub mod read_chars;
pub mod reader;
pub mod reader_end;
pub mod scan;
pub mod step_unit;
pub mod stepper;
pub mod stepwise;
pub mod view;
pub mod walk;
