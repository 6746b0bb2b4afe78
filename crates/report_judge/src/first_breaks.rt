//! The first number that breaks one of two laws.

ghost use Rattle.std.specs.Prelude.{◌≡◌};
ghost use Rattle.report_judge.specs.Laws.FirstBreaks.{earlier_of};

/// The lesser of two numbers, if there is any: the first that breaks one of two laws, of the first that breaks each.
pub(crate) fn earlier(one: Option<usize>, other: Option<usize>) -> Option<usize>
    ensures { result ≡ earlier_of one other }
{
    match (one, other) {
        (Some(one), Some(other)) => Some(one.min(other)),
        (Some(one), None) => Some(one),
        (None, other) => other,
    }
}
