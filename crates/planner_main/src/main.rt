//! The program: it does what the words of its command line ask for, from standard input to standard output, as
//! `exit_code` of `planner` says.
#![tactic(auto)]

use planner::{StdSink, StdSource, exit_code};
use std::env;
use std::process::ExitCode;

fn main(rt: HostRuntime) -> ExitCode {
    exit_code(
        &rt,
        rt.alloc(),
        env::args(&rt),
        &mut StdSource::new(rt.stdin()),
        &mut StdSink::new(rt.stdout()),
    )
}
