//! Finds many patterns in a file at once, and writes each match on a line: its start, its end and
//! the number of its pattern.
#![tactic(auto)]

use daacfind_command::command::command;
use daacfind_command::program::run_program;
use std::process::ExitCode;

fn main(rt: HostRuntime) -> ExitCode {
    run_program(&rt, command)
}
