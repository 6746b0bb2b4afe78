//! The texts that are written while a session is watched.

ghost use Rattle.std.specs.Prelude.{◌≡◌, ◌++◌, IfOk, OnOk, string_bytes};
ghost use Rattle.any_time.specs.BetterPaths.{better_line};
ghost use Rattle.any_time.specs.Sessions.{best_of};
ghost use Rattle.path_watch.specs.Watching as spec;

use any_time::Better;
use settle_report::{push_counts_line, push_path_line, push_point_lines};
use std::alloc::{AllocError, Global};
use step_core::Grown;

/// The block of a better path: `better C marks M` with its cost C in 256ths of a lattice step and the marks M after which it came, the
/// line and the points of the path as in a report, and an empty line. O(n) for n points.
///
/// # Errors
///
/// `AllocError` if out of memory for the text.
pub fn block(alloc: Global, item: &Better) -> Result<Vec<u8>, AllocError>
    ensures { IfOk result (λ text. text.items ≡ spec.block item.now) }
{
    let mut text = String::new(alloc);
    push_better_line(&mut text, item)?;
    push_path_line(&mut text, item.path.as_slice(), item.cost)?;
    push_point_lines(&mut text, item.path.as_slice())?;
    text.push_str("\n")?;
    Ok(text.into_bytes())
}

/// The line of a better path.
fn push_better_line(text: &mut String, item: &Better) -> Result<(), AllocError>
    ensures { OnOk result (string_bytes text.new ≡ string_bytes text.old ++ better_line item.now) }
{
    write!(text, "better {} marks {}\n", item.cost, item.marks)
}

/// What is written at the end: `no path` if no node of the run lies in a goal, and the line of counts as in a report. `best` is what
/// [`best()`](settle_report::best) returns. O(n) for n marks.
///
/// # Errors
///
/// `AllocError` if out of memory for the text.
pub fn end_text(alloc: Global, run: &Grown, best: Option<u32>) -> Result<Vec<u8>, AllocError>
    requires { best ≡ best_of run.now }
    ensures { IfOk result (λ text. text.items ≡ spec.end_text run.now) }
{
    let mut text = String::new(alloc);
    push_line_unless(&mut text, best.is_some())?;
    push_counts_line(&mut text, run)?;
    Ok(text.into_bytes())
}

/// That there is no path, unless there is one.
fn push_line_unless(text: &mut String, has_path: bool) -> Result<(), AllocError>
    ensures { OnOk result (string_bytes text.new ≡ string_bytes text.old ++ spec.line_unless has_path) }
{
    if has_path {
        return Ok(());
    }
    text.push_str("no path\n")
}
