//! The lines of refusals, and what is displayed of them.

use crate::support::{expect_text, sure};
use plan_model::{Kind, Memory};
use planner::Refusal;
use std::alloc::Global;
use std::process::Abort;

// What is displayed of a refusal, and a line feed.
fn displayed(alloc: Global, refusal: &Refusal) -> Result<String, Memory> {
    let mut text = String::new(alloc);
    write!(text, "{refusal}\n")?;
    Ok(text)
}

// Compares the line of a refusal, and what is displayed, which is the line without its line feed.
fn expect_line<R: Abort>(rt: &R, alloc: Global, refusal: &Refusal, line: &str) {
    expect_text(rt, &[], refusal.line().as_str(), line, "a line");
    let shown = sure(rt, displayed(alloc, refusal));
    expect_text(rt, &[], &shown, line, "what is displayed");
    drop(shown);
}

static LINES: [(Refusal, &str); 8] = [
    (Refusal::Words, "words refused\n"),
    (Refusal::TooLong, "text too long\n"),
    (
        Refusal::Text(4_294_967_295, Kind::Version),
        "line 4294967295 kind 1 Version\n",
    ),
    (Refusal::Text(7, Kind::Unbuilt), "line 7 kind 10 Unbuilt\n"),
    (Refusal::StartBlocked, "start blocked\n"),
    (Refusal::GoalBlocked, "goal blocked\n"),
    (Refusal::ReadFault, "read fault\n"),
    (Refusal::Memory, "no memory\n"),
];

#[test]
fn displays_its_line(rt: HostRuntime) {
    for (refusal, line) in &LINES {
        expect_line(&rt, rt.alloc(), refusal, line);
    }
}
