//! Prints the lines of files in which one of many patterns occurs.
#![tactic(auto)]

use daacgrep_command::program::run_program;
use std::process::ExitCode;

fn main(rt: HostRuntime) -> ExitCode {
    run_program(&rt)
}
