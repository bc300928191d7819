// Running combinations of rows.
ghost use Rattle.std.specs.Prelude.{◌≡◌, ℕ};
ghost use Rattle.rules.specs.Result.{done, bind};
ghost use Rattle.rules.specs.Combinations.{empty_combination, next_combination};
ghost use Rattle.linear.specs.Lists.{terms_of};
ghost use Rattle.linear.specs.Combinations.{combination_says, HasFractions, Takes};

use crate::coefficients::Coefficients;
use crate::lists::Terms;
use arithmetic::Fraction;
use senses::values;

// A running combination: the coefficient of each variable, and the right side. There is none where a product or a sum was too wide;
// then the coefficients say nothing.
// Kept: `next` hands back a combination and no `Result` of one, which takes a copy of 2 KB more for each row (docs/PERFORMANCE.md).
#[derive(Clone, Copy)]
pub struct Combination {
    pub coefficients: Coefficients,
    pub right: Option<Fraction>,
}

impl Combination {
    // No row yet.
    pub fn empty() -> Self
        ensures empty { (place : ℕ) → combination_says place result ≡ done empty_combination }
        ensures fractions { HasFractions result }
    {
        Combination {
            coefficients: Coefficients::zero(),
            right: Some(Fraction { num: 0, den: 1 }),
        }
    }

    // The next combination: this one with a row times its multiplier, its terms in order and then its right side. Nothing is
    // worked out after the first product or sum that is too wide.
    #[inline(always)]
    pub fn next(mut self, terms: Terms, right: Fraction, factor: Fraction) -> Self
        ensures says { Takes self (terms_of terms.entry) right factor → (place : ℕ) → combination_says place result ≡ bind (combination_says place self) (next_combination place factor (terms_of terms.entry) right) }
        ensures fractions { Takes self (terms_of terms.entry) right factor → HasFractions result }
    {
        let Some(so_far) = self.right else {
            return self;
        };
        for k in 0..terms.count() {
            let (v, f) = terms.term(k);
            let Ok(sum) = values::plus_product(self.coefficients.at(v), factor, f) else {
                self.right = None;
                return self;
            };
            self.coefficients.set(v, sum);
        }
        let Ok(sum) = values::plus_product(so_far, factor, right) else {
            self.right = None;
            return self;
        };
        self.right = Some(sum);
        self
    }
}
