// Rounding: which coefficients are integral.
ghost use Rattle.std.specs.Prelude.{◌≡◌, ℕ};
ghost use Rattle.grammar.specs.Tree.{Tree};
ghost use Rattle.rules.specs.Rows.{value_in, Constraint};
ghost use Rattle.rules.specs.Rounding.{is_integral};
ghost use Rattle.rules.specs.Sentence.Formed.{Formed};
ghost use Rattle.linear.specs.Lists.{terms_of};
ghost use Rattle.linear.specs.Coefficients.{coefficients_of, VariablesAre};

use crate::coefficients::{Coefficients, is_marked};
use crate::lists::Terms;
use senses::values;
use tables::limits;

impl Coefficients {
    // Whether each is whole, and those that are not zero stand at integer variables: of every tree that has n variables and these
    // integer ones.
    pub fn is_integral(&self, integers: &[bool; 256], n: usize) -> bool
        ensures { (tree : Tree) → VariablesAre tree n integers.now → (c : Constraint) → c.coefficient ≡ coefficients_of self.now → result ≡ is_integral tree c }
    {
        for v in 0..n.min(limits::VARIABLES) {
            if !values::may_stand(self.at(v), is_marked(integers, v)) {
                return false;
            }
        }
        true
    }
}

impl<'a> Terms<'a> {
    // The same of listed terms.
    pub fn are_integral(self, integers: &[bool; 256]) -> bool
        ensures { (tree : Tree) (n : ℕ) → VariablesAre tree n integers.now → Formed n (terms_of self.entry) → (c : Constraint) → c.coefficient ≡ value_in (terms_of self.entry) → result ≡ is_integral tree c }
    {
        for k in 0..self.count() {
            let (v, f) = self.term(k);
            if !values::may_stand(f, is_marked(integers, v)) {
                return false;
            }
        }
        true
    }
}
