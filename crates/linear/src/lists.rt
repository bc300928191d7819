// Lists of variable and coefficient.
ghost use Rattle.std.specs.Prelude.{◌≡◌, ◌<◌, get_or};
ghost use Rattle.tables.specs.Limits.{most_variables};
ghost use Rattle.tables.specs.Cells.{fraction_at};
ghost use Rattle.tables.specs.Pairs.{pairs_in};
ghost use Rattle.rules.specs.Rows.{value_in};
ghost use Rattle.linear.specs.Lists.{terms_of, TermsBelow};
ghost use Rattle.linear.specs.Coefficients.{coefficients_of};

use crate::coefficients::Coefficients;
use arithmetic::Fraction;

// Listed terms: their variables, and their coefficients, numerator and denominator by turns.
#[derive(Clone, Copy)]
pub struct Terms<'a> {
    pub variables: &'a [u16],
    pub parts: &'a [i32],
}

impl<'a> Terms<'a> {
    // How many there are.
    pub(crate) fn count(self) -> usize
        ensures { result ≡ pairs_in self.entry.variables.now self.entry.parts.now }
    {
        tables::pairs_in(self.variables, self.parts)
    }

    // Term k: its variable and its coefficient.
    pub(crate) fn term(self, k: usize) -> (usize, Fraction)
        requires { k < pairs_in self.variables.now self.parts.now }
        ensures variable { result.0 ≡ get_or self.entry.variables.now k 0 }
        ensures coefficient { result.1 ≡ fraction_at self.entry.parts.now k }
    {
        // Kept: by index, since a test at each read slows left sides by half (docs/PERFORMANCE.md).
        (
            usize::from(self.variables[k]),
            Fraction {
                num: self.parts[2 * k],
                den: self.parts[2 * k + 1],
            },
        )
    }

    // The coefficient that they give each variable: from the last to the first, so that the first of a variable counts.
    pub fn coefficients(self) -> Coefficients
        ensures { TermsBelow most_variables (terms_of self.entry) → coefficients_of result ≡ value_in (terms_of self.entry) }
    {
        let mut coefficients = Coefficients::zero();
        for k in (0..self.count()).rev() {
            let (v, f) = self.term(k);
            coefficients.set(v, f);
        }
        coefficients
    }
}
