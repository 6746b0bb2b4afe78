//! The numbers of marks and of the strips that they belong to.

ghost use Rattle.std.specs.Prelude.{◌≡◌, ◌<◌, ◌≤◌};
ghost use Rattle.plan_model.specs.Scenes.MarkPoints.{mark_of, strip_of_mark};
ghost use Rattle.plan_model.specs.declared.limits.TheConstants.{MOST_STRIPS};

/// The strip that mark `k` belongs to, of one strip or more. The strips take turns: after the last one comes strip 0 again.
/// O(1).
pub fn strip_of_mark(strips: u32, k: u32) -> u32
    requires { 0 < strips }
    ensures value { result ≡ strip_of_mark strips k }
    ensures within { result < strips }
{
    k % strips
}

/// The number of a strip's mark, of which `round` others of the strip come before. It may be above the numbers of all marks that
/// there are. O(1).
pub fn mark_of(strips: u32, strip: u32, round: u32) -> u64
    requires strips { strips ≤ MOST_STRIPS }
    requires strip { strip < strips }
    ensures { result ≡ mark_of strips strip round }
{
    u64::from(round) * u64::from(strips) + u64::from(strip)
}
