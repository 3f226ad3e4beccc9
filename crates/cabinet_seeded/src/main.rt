//! The program: one call of `run_program`, on the command line, standard input and standard output.
#![tactic(auto)]

use gd_top::run_program;
use std::process::ExitCode;

fn main(rt: HostRuntime) -> ExitCode {
    run_program(&rt)
}
