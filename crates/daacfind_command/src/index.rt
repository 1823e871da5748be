//! The program `daacindex`: writes the automaton of the lines of a file, and searches with one that
//! was written. Its modes are those of `daacfind`.

pub mod command;
pub mod written;
