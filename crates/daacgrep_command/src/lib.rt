//! The command of the program `daacgrep`: prints the lines of files in which a pattern occurs.
#![tactic(auto)]

pub mod ahead;
pub mod automaton;
pub mod clash;
pub mod command;
pub mod error;
pub mod file_system;
pub mod files;
pub mod flag;
pub mod line;
pub mod lines;
pub mod messages;
pub mod options;
pub mod output;
pub mod patterns;
pub mod printing;
pub mod program;
pub mod reading;
pub mod rule;
pub mod search;
pub mod searcher;
pub mod selected_lines;
pub mod window;
