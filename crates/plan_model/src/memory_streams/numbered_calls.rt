//! Calls that are chosen by their numbers.

ghost use Rattle.std.specs.Prelude.{◌≡◌, ◌==◌, ◌<◌, ◌^◌, IsTrue};
ghost use Rattle.std.specs.List.{list_any};

/// Whether the call with this number is to fail: its number is one of the numbers.
pub(super) fn is_failing_call(fails: &[u32], call: u64) -> bool
    ensures listed { result ≡ list_any (λ number. number == call) fails.now }
    ensures small { IsTrue result → call < 2 ^ 32 }
{
    fails.iter().any(|number| u64::from(*number) == call)
}
