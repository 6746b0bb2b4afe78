//! Squares of distances.

ghost use Rattle.std.specs.Prelude.{◌≡◌, ◌*◌};

/// The square of a number of lattice steps.
pub(crate) fn square(a: u32) -> u64
    ensures { result ≡ a * a }
{
    u64::from(a) * u64::from(a)
}
