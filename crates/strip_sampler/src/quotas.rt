//! How many marks a strip has.

ghost use Rattle.std.specs.Prelude.{◌≡◌, ◌<◌};
ghost use Rattle.plan_model.specs.Scenes.MarkPoints.{quota_of};

/// How many of the marks below `limit` belong to a strip, which is below `strips`; none if the limit is 0. The strips take
/// turns: strip 0 has the first mark of each round, so its quota is never below that of another strip. O(1); no memory.
///
/// ```text
///     mark     0  1  2  3  4  5  6
///     strip    0  1  2  0  1  2  0      3 strips, limit 7: the quotas are 3, 2 and 2
/// ```
pub fn quota(strips: u32, strip: u32, limit: u32) -> u32
    requires { strip < strips }
    ensures { result ≡ quota_of strips strip limit }
{
    limit / strips + u32::from(strip < limit % strips)
}

#[cfg(test)]
mod tests {
    use super::*;

    #[test]
    fn counts_the_marks_of_a_strip(rt: HostRuntime) {
        for (strips, strip, limit, want) in [
            (3, 0, 7, 3),
            (3, 1, 7, 2),
            (3, 2, 7, 2),
            (1, 0, 7, 7),
            (3, 2, 2, 0),
            (3, 2, 3, 1),
            (64, 63, 262_143, 4_095),
            (64, 62, 262_143, 4_096),
        ] {
            assert!(rt; quota(strips, strip, limit) == want, "strip {strip}");
        }
    }
}
