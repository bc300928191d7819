// Left sides at a point.
ghost use Rattle.std.specs.Prelude.{◌≡◌, List, ℕ};
ghost use Rattle.arithmetic.specs.Fraction.{arithmetic_says};
ghost use Rattle.tables.specs.Limits.{most_variables};
ghost use Rattle.grammar.specs.Tree.{Term};
ghost use Rattle.rules.specs.Values.{within12};
ghost use Rattle.rules.specs.Rows.{value_in};
ghost use Rattle.rules.specs.Solutions.{left_side};
ghost use Rattle.linear.specs.Lists.{terms_of, TermsBelow};
ghost use Rattle.linear.specs.Coefficients.{coefficients_of, AreFractions};

use crate::coefficients::Coefficients;
use crate::lists::Terms;
use arithmetic::{ArithmeticError, Fraction};
use senses::values;

impl<'a> Terms<'a> {
    // Their left side at a point, which has a value for each variable.
    pub fn left_at(self, point: &Coefficients) -> Result<Fraction, ArithmeticError>
        ensures { let value = coefficients_of point.now in TermsBelow most_variables (terms_of self.entry) → AreFractions value → (place : ℕ) (point : List Term) → value ≡ value_in point → within12 place (arithmetic_says result) ≡ left_side place point (terms_of self.entry) }
    {
        let mut sum = Fraction { num: 0, den: 1 };
        for k in 0..self.count() {
            let (v, f) = self.term(k);
            sum = values::plus_product(sum, f, point.at(v))?;
        }
        Ok(sum)
    }
}
