//! The strips that the columns of a room of configurations are cut into.

ghost use Rattle.std.specs.Prelude.{◌≡◌, ◌+◌, ◌<◌, ◌≤◌};
ghost use Rattle.plan_model.specs.Scenes.MarkPoints as marks;
ghost use Rattle.plan_model.specs.declared.limits.TheConstants.{MOST_COORDINATE, MOST_STRIPS};

use plan_model::Span;

/// The columns of a strip. The strips lie side by side and are equally wide, up to one column; if there are fewer columns than
/// strips, each strip has all of them. O(1).
///
/// ```text
///     columns      0 .. 32   33 .. 65   66 .. 99      100 columns, 3 strips
///     strip           0         1          2
/// ```
pub(crate) fn columns_of_strip(columns: Span, strips: u32, strip: u32) -> Span
    requires strip { strip < strips }
    requires few { strips ≤ MOST_STRIPS }
    requires end { columns.first + columns.count ≤ MOST_COORDINATE + 1 }
    ensures value { result ≡ marks.strip columns strips strip }
    ensures end { result.first + result.count ≤ MOST_COORDINATE + 1 }
{
    if columns.count < strips {
        return columns;
    }
    let from = strip * columns.count / strips;
    let to = (strip + 1) * columns.count / strips;
    Span {
        first: columns.first + from,
        count: to - from,
    }
}

#[cfg(test)]
mod tests {
    use super::*;

    #[test]
    fn cuts_columns_into_strips(rt: HostRuntime) {
        for (first, count, strips, strip, (from, wide)) in [
            (0, 100, 3, 0, (0, 33)),
            (0, 100, 3, 1, (33, 33)),
            (0, 100, 3, 2, (66, 34)),
            (0, 101, 3, 2, (67, 34)),
            (7, 3, 3, 2, (9, 1)),
            (7, 2, 3, 2, (7, 2)),
            (0, 65_536, 64, 63, (64_512, 1_024)),
        ] {
            let got = columns_of_strip(Span { first, count }, strips, strip);
            assert!(rt; got.first == from, "strip {strip}");
            assert!(rt; got.count == wide, "strip {strip}");
        }
    }
}
