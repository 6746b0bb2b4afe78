//! Causes of refusals and verdicts, as numbers.

ghost use Rattle.std.specs.Prelude.{◌≡◌};
ghost use Rattle.plan_c.specs.Calls.{TellsRefusal, TellsVerdict};

use planner::Refusal;
use report_judge::Verdict;

/// The status of a lawful report.
const LAWFUL: u32 = 0;

/// The status of a report that breaks a law.
const BROKEN: u32 = 1;

/// Tells the line and the kind of the fault of a text, or 0, and the status of a refusal.
pub(crate) fn tell_refusal(refusal: Refusal, line: &mut u32, kind: &mut u32) -> u32
    ensures { TellsRefusal refusal line.new kind.new result }
{
    (*line, *kind) = match refusal {
        Refusal::Text(number, fault) => (number, fault.number()),
        _ => (0, 0),
    };
    u32::from(refusal.status())
}

/// Tells the line and the law that a report breaks, or the line and the kind of the fault of its scene, or 0, and the status.
pub(crate) fn tell_verdict(
    verdict: Result<Verdict, Refusal>,
    line: &mut u32,
    kind: &mut u32,
    law: &mut u32,
) -> u32
    ensures { TellsVerdict verdict line.new kind.new law.new result }
{
    match verdict {
        Ok(Verdict::Lawful) => {
            (*line, *kind, *law) = (0, 0, 0);
            LAWFUL
        }
        Ok(Verdict::Broken { line: at, law: n }) => {
            (*line, *kind, *law) = (at, 0, u32::from(n));
            BROKEN
        }
        Err(refusal) => {
            *law = 0;
            tell_refusal(refusal, line, kind)
        }
    }
}
