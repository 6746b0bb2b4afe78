//! The first line before those of the nodes that is not the one that a report should have there.

ghost use Rattle.std.specs.Prelude.{◌≡◌, ◌<◌, ◌^◌, IfNone, IfSome, Some, length};
ghost use Rattle.report_judge.specs.Laws.FirstBreaks.{IsFirstBreak, KeepsHead, KeepsPoint};
ghost use Rattle.report_judge.specs.Texts.ReportSheets.{head_lines};
ghost use Rattle.report_judge.specs.Texts.ReportCuts.{priced_path};

use crate::costed_paths::CostedPath;
use crate::tallies::Tally;
use plan_model::Point;

/// The first line of the path and the counts that is not that of the own path and the own counts at its place, from 0; `None` exactly if
/// there is none. O(n) for n points.
pub(crate) fn first_wrong_head_line(
    path: &Option<CostedPath>,
    tally: Tally,
    own_path: &Option<CostedPath>,
    own_tally: Tally,
) -> Option<usize>
    requires few { length (head_lines (priced_path path.now) tally) < 2 ^ 32 }
    ensures { IsFirstBreak (KeepsHead (priced_path path.now) tally (priced_path own_path.now) own_tally)
        (length (head_lines (priced_path path.now) tally)) result }
{
    match (path, own_path) {
        (Some(path), Some(own)) => first_wrong_line(path, tally, own, own_tally),
        (None, None) => first_wrong_tally(tally, own_tally, 1),
        _ => Some(0),
    }
}

/// The same of two paths.
fn first_wrong_line(
    path: &CostedPath,
    tally: Tally,
    own: &CostedPath,
    own_tally: Tally,
) -> Option<usize>
    requires few { length path.now.points.items < 2 ^ 32 }
    ensures { IsFirstBreak (KeepsHead (priced_path (Some path.now)) tally (priced_path (Some own.now)) own_tally)
        (length (head_lines (priced_path (Some path.now)) tally)) result }
{
    if path.points.len() != own.points.len() || path.cost != own.cost {
        return Some(0);
    }
    match first_other_point(&path.points, &own.points) {
        Some(place) => Some(place + 1),
        None => first_wrong_tally(tally, own_tally, path.points.len() + 1),
    }
}

/// The line of the counts, if they are not the own ones.
fn first_wrong_tally(tally: Tally, own_tally: Tally, line: usize) -> Option<usize>
    ensures same { IfNone result (tally ≡ own_tally) }
    ensures other { IfSome result (λ found. (found ≡ line) × ¬ (tally ≡ own_tally)) }
{
    if tally == own_tally { None } else { Some(line) }
}

/// The place of the first point that is not the own one there; `None` exactly if there is none. O(n).
fn first_other_point(points: &[Point], own: &[Point]) -> Option<usize>
    requires { length own.now ≡ length points.now }
    ensures { IsFirstBreak (KeepsPoint points.now own.now) (length points.now) result }
{
    for (place, point) in points.iter().enumerate() {
        if *point != own[place] {
            return Some(place);
        }
    }
    None
}
