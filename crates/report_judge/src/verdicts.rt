//! The verdict on a report.

ghost use Rattle.std.specs.Prelude.{◌≡◌, ◌<◌, ◌≤◌, ◌^◌, IfNone, IfOk, IfSome, length};
ghost use Rattle.plan_model.specs.Spaces.Clearance.{ClearAt};
ghost use Rattle.plan_model.specs.declared.limits.TheConstants.{MOST_NODES};
ghost use Rattle.plan_model.specs.Spaces.ConfigurationSpace.{space_of};
ghost use Rattle.report_judge.specs.Laws.Verdicts.{IsVerdict, bytes_of};
ghost use Rattle.report_judge.specs.Texts.ReportLines.{extent_of};
ghost use Rattle.report_judge.specs.Texts.ReportSheets.{HasForm, number_of_mark_line, number_of_node_line};
ghost use Rattle.report_judge.specs.Laws.SheetLaws.{KeepsLaw};
ghost use Rattle.report_judge.specs.Texts.ReportCuts.{sheet_read};
ghost use Rattle.report_judge.specs.declared.verdicts.Verdict.TheVariants.{Broken};

use crate::heads::first_wrong_head_line;
use crate::marks::lawful_records::{first_unlawful, present_count};
use crate::marks::presence::first_unlike;
use crate::marks::turns::first_wrong_turn;
use crate::reading::sheets::{SheetRead, path_line_count, read_sheet};
use crate::tallies::counted;
use crate::trees::best_paths::best_path;
use crate::trees::nodes::first_unsound;
use obstacle_boxes::Boxes;
use plan_model::{Memory, Task};
use std::alloc::Global;
use swept_check::{Clearing, Hall};

/// The number of the law of the form.
const FORM: u8 = 1;

/// The number of the law of nodes.
const NODES: u8 = 2;

/// The number of the law of turns.
const TURNS: u8 = 3;

/// The number of the law of presence of nodes.
const PRESENCE: u8 = 4;

/// The number of the law of records.
const RECORDS: u8 = 5;

/// The number of the law of the head.
const HEAD: u8 = 6;

/// What is said of the bytes of a full report.
#[derive(Clone, Copy, Debug, PartialEq, Eq)]
pub enum Verdict {
    /// They are the full report of a settled run that keeps the closed law.
    Lawful,
    /// A law is broken: the least one that is, and the first line that breaks it.
    Broken {
        /// The line, counted from 1.
        line: u32,
        /// The law, from 1, form, to 6, head.
        law: u8,
    },
}

/// The verdict on the bytes of a full report of a task: lawful exactly if they are the full report of a settled run of the task that keeps
/// the closed law over all of its marks; or else the least law that is broken and the first line that breaks it, counted from 1. The laws
/// are 1, form, 2, nodes, 3, turns, 4, presence of nodes, 5, records, and 6, head. The start is clear, and the report has fewer bytes than
/// the greatest `u32`.
///
/// O(n * w + n log n) for n bytes and marks of w workers, besides a segment for each node, and what a search for near nodes takes for each
/// mark.
///
/// # Errors
///
/// `Memory` if out of memory for the lists that are read, or for the collision checker.
pub fn check(alloc: Global, task: &Task, report: &[u8]) -> Result<Verdict, Memory>
    requires start { ClearAt (space_of task.now.scene) task.now.scene.start }
    requires short { length report.now < u32.MAX }
    ensures { IfOk result (IsVerdict task.now report.now) }
{
    let hall = Hall::new(alloc, &task.scene)?;
    let boxes = Boxes::new(alloc, hall)?;
    check_with(alloc, task, &boxes, report)
}

/// [`check`] over a collision checker that the caller has, which stands for the scene of the task.
///
/// # Errors
///
/// `Memory` if out of memory for the lists that are read.
pub fn check_with<C: Clearing>(
    alloc: Global,
    task: &Task,
    hall: &C,
    report: &[u8],
) -> Result<Verdict, Memory>
    requires hall { C.space hall.now ≡ space_of task.now.scene }
    requires start { ClearAt (space_of task.now.scene) task.now.scene.start }
    requires short { length report.now < u32.MAX }
    ensures { IfOk result (IsVerdict task.now report.now) }
{
    let marks = task.marks.len() as u32;
    match read_sheet(alloc, report, marks, task.scene.informed)? {
        Ok(sheet) => judge_sheet(alloc, task, hall, &sheet),
        Err(line) => Ok(broken(line, FORM)),
    }
}

/// The verdict on a report in form, by what its lines say: law after law.
fn judge_sheet<C: Clearing>(
    alloc: Global,
    task: &Task,
    hall: &C,
    sheet: &SheetRead,
) -> Result<Verdict, Memory>
    requires hall { C.space hall.now ≡ space_of task.now.scene }
    requires start { ClearAt (space_of task.now.scene) task.now.scene.start }
    requires form { HasForm (extent_of task.now) (sheet_read sheet.now) }
    requires short { length (bytes_of (sheet_read sheet.now)) < u32.MAX }
    ensures { IfOk result (IsVerdict task.now (bytes_of (sheet_read sheet.now))) }
{
    if let Some(verdict) = node_verdict(alloc, task, hall, sheet)? {
        return Ok(verdict);
    }
    if let Some(verdict) = turn_verdict(alloc, task, sheet)? {
        return Ok(verdict);
    }
    if let Some(verdict) = presence_verdict(task, sheet) {
        return Ok(verdict);
    }
    if let Some(verdict) = record_verdict(alloc, task, hall, sheet)? {
        return Ok(verdict);
    }
    head_verdict(alloc, task, sheet)
}

/// The verdict that the law of nodes is broken; `None` exactly if it is kept.
fn node_verdict<C: Clearing>(
    alloc: Global,
    task: &Task,
    hall: &C,
    sheet: &SheetRead,
) -> Result<Option<Verdict>, Memory>
    requires hall { C.space hall.now ≡ space_of task.now.scene }
    requires form { HasForm (extent_of task.now) (sheet_read sheet.now) }
    requires short { length (bytes_of (sheet_read sheet.now)) < u32.MAX }
    ensures broken { IfOk result (λ found. IfSome found (IsVerdict task.now (bytes_of (sheet_read sheet.now)))) }
    ensures kept { IfOk result (λ found. IfNone found (KeepsLaw task.now (sheet_read sheet.now) 2)) }
{
    let first = first_unsound(alloc, &task.scene, hall, &sheet.knots)?;
    match first {
        Some(node) => Ok(Some(broken(node_line(sheet, node), NODES))),
        None => Ok(None),
    }
}

/// The verdict that the law of turns is broken; `None` exactly if it is kept.
fn turn_verdict(alloc: Global, task: &Task, sheet: &SheetRead) -> Result<Option<Verdict>, Memory>
    requires form { HasForm (extent_of task.now) (sheet_read sheet.now) }
    requires short { length (bytes_of (sheet_read sheet.now)) < u32.MAX }
    requires nodes { KeepsLaw task.now (sheet_read sheet.now) 2 }
    ensures broken { IfOk result (λ found. IfSome found (IsVerdict task.now (bytes_of (sheet_read sheet.now)))) }
    ensures kept { IfOk result (λ found. IfNone found (KeepsLaw task.now (sheet_read sheet.now) 3)) }
{
    let first = first_wrong_turn(alloc, &sheet.records)?;
    match first {
        Some(k) => Ok(Some(broken_mark(sheet, k, TURNS))),
        None => Ok(None),
    }
}

/// The verdict that the law of presence is broken; `None` exactly if it is kept.
fn presence_verdict(task: &Task, sheet: &SheetRead) -> Option<Verdict>
    requires form { HasForm (extent_of task.now) (sheet_read sheet.now) }
    requires short { length (bytes_of (sheet_read sheet.now)) < u32.MAX }
    requires nodes { KeepsLaw task.now (sheet_read sheet.now) 2 }
    requires turns { KeepsLaw task.now (sheet_read sheet.now) 3 }
    ensures broken { IfSome result (IsVerdict task.now (bytes_of (sheet_read sheet.now))) }
    ensures kept { IfNone result (KeepsLaw task.now (sheet_read sheet.now) 4) }
{
    match first_unlike(&sheet.knots, &sheet.records) {
        Some(k) => Some(broken_mark(sheet, k, PRESENCE)),
        None => None,
    }
}

/// The verdict that the law of records is broken; `None` exactly if it is kept.
fn record_verdict<C: Clearing>(
    alloc: Global,
    task: &Task,
    hall: &C,
    sheet: &SheetRead,
) -> Result<Option<Verdict>, Memory>
    requires hall { C.space hall.now ≡ space_of task.now.scene }
    requires form { HasForm (extent_of task.now) (sheet_read sheet.now) }
    requires short { length (bytes_of (sheet_read sheet.now)) < u32.MAX }
    requires nodes { KeepsLaw task.now (sheet_read sheet.now) 2 }
    requires turns { KeepsLaw task.now (sheet_read sheet.now) 3 }
    requires presence { KeepsLaw task.now (sheet_read sheet.now) 4 }
    ensures broken { IfOk result (λ found. IfSome found (IsVerdict task.now (bytes_of (sheet_read sheet.now)))) }
    ensures kept { IfOk result (λ found. IfNone found (KeepsLaw task.now (sheet_read sheet.now) 5)) }
{
    let first = first_unlawful(alloc, task, hall, &sheet.knots, &sheet.records)?;
    match first {
        Some(k) => Ok(Some(broken_mark(sheet, k, RECORDS))),
        None => Ok(None),
    }
}

/// The verdict on a report that keeps the other laws, by its head.
fn head_verdict(alloc: Global, task: &Task, sheet: &SheetRead) -> Result<Verdict, Memory>
    requires start { ClearAt (space_of task.now.scene) task.now.scene.start }
    requires form { HasForm (extent_of task.now) (sheet_read sheet.now) }
    requires short { length (bytes_of (sheet_read sheet.now)) < u32.MAX }
    requires nodes { KeepsLaw task.now (sheet_read sheet.now) 2 }
    requires turns { KeepsLaw task.now (sheet_read sheet.now) 3 }
    requires presence { KeepsLaw task.now (sheet_read sheet.now) 4 }
    requires lawful { KeepsLaw task.now (sheet_read sheet.now) 5 }
    ensures { IfOk result (IsVerdict task.now (bytes_of (sheet_read sheet.now))) }
{
    let path = best_path(alloc, task.scene.goals.as_slice(), &sheet.knots)?;
    let nodes = present_count(&sheet.knots);
    let tally = counted(task.scene.informed, nodes, &sheet.records);
    match first_wrong_head_line(&sheet.path, sheet.tally, &path, tally) {
        Some(line) => Ok(broken(line + 1, HEAD)),
        None => Ok(Verdict::Lawful),
    }
}

/// The line of a node, counted from 1.
fn node_line(sheet: &SheetRead, node: usize) -> usize
    requires within { node ≤ length sheet.now.knots.items }
    requires few { length sheet.now.knots.items ≤ MOST_NODES }
    requires low { number_of_node_line (sheet_read sheet.now) node < 4294967296 }
    ensures { result ≡ number_of_node_line (sheet_read sheet.now) node }
{
    path_line_count(&sheet.path) + 2 + present_count(&sheet.knots[..node]) as usize
}

/// The line of a mark, counted from 1.
fn mark_line(sheet: &SheetRead, k: usize) -> usize
    requires few { length sheet.now.knots.items ≤ MOST_NODES }
    requires low { number_of_mark_line (sheet_read sheet.now) k < 4294967296 }
    ensures { result ≡ number_of_mark_line (sheet_read sheet.now) k }
{
    path_line_count(&sheet.path) + 1 + present_count(&sheet.knots) as usize + k + 1
}

/// The verdict that a law is broken at the line of a mark.
fn broken_mark(sheet: &SheetRead, k: usize, law: u8) -> Verdict
    requires few { length sheet.now.knots.items ≤ MOST_NODES }
    requires low { number_of_mark_line (sheet_read sheet.now) k < 4294967296 }
    ensures { result ≡ Broken (number_of_mark_line (sheet_read sheet.now) k) law }
{
    broken(mark_line(sheet, k), law)
}

/// The verdict that a law is broken at a line.
fn broken(line: usize, law: u8) -> Verdict
    requires { line < 2 ^ 32 }
    ensures { result ≡ Broken line law }
{
    Verdict::Broken {
        line: line as u32,
        law,
    }
}
