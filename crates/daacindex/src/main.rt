//! Writes an automaton of many patterns, and finds these with it in a file: each match is a line
//! with its start, its end and the number of its pattern.
#![tactic(auto)]

use daacfind_command::index::command::command;
use daacfind_command::program::run_program;
use std::process::ExitCode;

fn main(rt: HostRuntime) -> ExitCode {
    run_program(&rt, command)
}
