//! The commands of the programs `daacfind`, which finds the lines of one file in another and writes
//! each match on a line, and `daacindex`, which does so by an automaton that it wrote before.
#![tactic(auto)]

pub mod command;
pub mod index;
pub mod inputs;
pub mod mode;
pub mod program;
pub mod run;
pub mod sink;
pub mod status;
