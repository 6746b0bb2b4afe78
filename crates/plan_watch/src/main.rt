//! The program: it watches a session of the scene on standard input, by the words of its command line, and writes each better path to
//! standard output as it comes, as `exit_code` of `path_watch` says. Beside that it has a status line on a terminal.
#![tactic(auto)]

mod status_line;

use path_watch::exit_code;
use planner::{StdSink, StdSource};
use status_line::StatusLine;
use std::env;
use std::process::ExitCode;

fn main(rt: HostRuntime) -> ExitCode {
    exit_code(
        &rt,
        rt.alloc(),
        env::args(&rt),
        &mut StdSource::new(rt.stdin()),
        &mut StdSink::new(rt.stdout()),
        &StatusLine::new(rt),
    )
}
