//! Fractions between 0 and 1: parameters of a segment.

ghost use Rattle.std.specs.Prelude.{◌≡◌, ℕ, ◌≤◌, ◌<◌, ◌*◌, ◌+◌, ◌^◌, ◌↔◌, IsTrue};

/// The parameter of a point of a segment: `numerator / denominator` of the way from its first end to its last.
#[derive(Clone, Copy, Debug)]
pub(crate) struct Fraction {
    /// How many parts of the way lie before the point.
    pub(crate) numerator: u64,
    /// Into how many equal parts the way is divided.
    pub(crate) denominator: u64,
    ghost positive: { 0 < denominator },
    ghost at_most_one: { numerator ≤ denominator },
}

impl Fraction {
    /// The first end of a segment.
    pub(crate) fn zero() -> Fraction
        ensures numerator { result.numerator ≡ 0 }
        ensures denominator { result.denominator ≡ 1 }
    {
        Fraction {
            numerator: 0,
            denominator: 1,
        }
    }

    /// The last end of a segment.
    pub(crate) fn one() -> Fraction
        ensures numerator { result.numerator ≡ 1 }
        ensures denominator { result.denominator ≡ 1 }
    {
        Fraction {
            numerator: 1,
            denominator: 1,
        }
    }

    /// The fraction `part / (part + rest)`.
    pub(crate) fn of_parts(part: u64, rest: u64) -> Fraction
        requires some { 0 < part + rest }
        requires few { part + rest < 2 ^ 64 }
        ensures numerator { result.numerator ≡ part }
        ensures denominator { result.denominator ≡ part + rest }
    {
        Fraction {
            numerator: part,
            denominator: part + rest,
        }
    }

    /// Whether this parameter is at most another one.
    pub(crate) fn is_at_most(self, other: Fraction) -> bool
        ensures { IsTrue result ↔ (self.numerator * other.denominator ≤ other.numerator * self.denominator) }
    {
        u128::from(self.numerator) * u128::from(other.denominator)
            <= u128::from(other.numerator) * u128::from(self.denominator)
    }

    /// The greater of two parameters.
    pub(crate) fn max(self, other: Fraction) -> Fraction
        ensures { (s d : ℕ) → (result.numerator * d ≤ s * result.denominator)
            ↔ ((self.numerator * d ≤ s * self.denominator) × (other.numerator * d ≤ s * other.denominator)) }
    {
        if self.is_at_most(other) { other } else { self }
    }

    /// The lesser of two parameters.
    pub(crate) fn min(self, other: Fraction) -> Fraction
        ensures { (s d : ℕ) → (s * result.denominator ≤ result.numerator * d)
            ↔ ((s * self.denominator ≤ self.numerator * d) × (s * other.denominator ≤ other.numerator * d)) }
    {
        if self.is_at_most(other) { self } else { other }
    }
}
