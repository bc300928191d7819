// The coefficients of 256 variables, or a point's values.
ghost use Rattle.std.specs.Prelude.{◌≡◌, ℕ, ◌<◌};
ghost use Rattle.arithmetic.specs.Fraction.{IsFraction};
ghost use Rattle.arithmetic.specs.Laws.{zero_f};
ghost use Rattle.tables.specs.Limits.{most_variables};
ghost use Rattle.rules.specs.Combinations.{with_coefficient};
ghost use Rattle.linear.specs.Coefficients.{stored, coefficients_of, marked};

use arithmetic::Fraction;
use tables::limits;

// What is stored, as a fraction: a denominator 0 stands for 1.
fn stored(f: Fraction) -> Fraction
    ensures { result ≡ stored f }
{
    if f.den == 0 {
        Fraction { num: f.num, den: 1 }
    } else {
        f
    }
}

// The coefficient of each variable. A denominator 0 says that nothing is stored yet, and stands for 1.
// Kept: 0 / 0 at the start, since cells that are all 0 are filled faster (docs/PERFORMANCE.md).
#[derive(Clone, Copy)]
pub struct Coefficients {
    pub of: [Fraction; 256],
}

impl Coefficients {
    // All are 0.
    pub fn zero() -> Self
        ensures { (v : ℕ) → coefficients_of result v ≡ zero_f }
    {
        Coefficients {
            of: [Fraction { num: 0, den: 0 }; 256],
        }
    }

    // That of variable v.
    pub fn at(&self, v: usize) -> Fraction
        ensures { result ≡ coefficients_of self.now v }
    {
        stored(
            self.of
                .get(v)
                .copied()
                .unwrap_or(Fraction { num: 0, den: 1 }),
        )
    }

    // Another one for variable v, if it has its place here.
    pub(crate) fn set(&mut self, v: usize, f: Fraction)
        ensures { IsFraction f → v < most_variables → coefficients_of self.new ≡ with_coefficient v f (coefficients_of self.old) }
    {
        if v < limits::VARIABLES {
            self.of[v] = f;
        }
    }
}

// Whether an array marks variable v.
pub(crate) fn is_marked(integers: &[bool; 256], v: usize) -> bool
    ensures { result ≡ marked integers.now v }
{
    v < limits::VARIABLES && integers[v]
}
