// Splits: two rows, one of which holds wherever the integer variables are whole.
ghost use Rattle.std.specs.Prelude.{◌≡◌, ◌||◌, ◌≤◌};
ghost use Rattle.tables.specs.Limits.{most_variables};
ghost use Rattle.grammar.specs.Tree.{Tree};
ghost use Rattle.rules.specs.Rows.{value_in};
ghost use Rattle.rules.specs.Splits.{are_adjacent, is_split};
ghost use Rattle.rules.specs.Sentence.Formed.{Formed};
ghost use Rattle.senses.specs.Senses.{constraint_by};
ghost use Rattle.linear.specs.Lists.{terms_of};
ghost use Rattle.linear.specs.Coefficients.{VariablesAre};

use crate::rows::Row;

impl<'a> Row<'a> {
    // Whether the bounds are those of a split, whichever of the two is the lower one.
    fn is_adjacent(self, other: Row) -> bool
        ensures { let lower = constraint_by (value_in (terms_of self.entry.terms)) self.entry.bound in let upper = constraint_by (value_in (terms_of other.entry.terms)) other.entry.bound in result ≡ are_adjacent lower upper || are_adjacent upper lower }
    {
        self.bound.is_below(other.bound) || other.bound.is_below(self.bound)
    }

    // Whether this row and the other are a split: of every tree that has n variables and these integer ones.
    pub fn is_split(self, other: Row, integers: &[bool; 256], n: usize) -> bool
        ensures { (tree : Tree) → VariablesAre tree n integers.now → n ≤ most_variables → Formed n (terms_of self.entry.terms) → Formed n (terms_of other.entry.terms) → result ≡ is_split tree (constraint_by (value_in (terms_of self.entry.terms)) self.entry.bound) (constraint_by (value_in (terms_of other.entry.terms)) other.entry.bound) }
    {
        self.is_adjacent(other)
            && self.terms.are_integral(integers)
            && self.terms.coefficients().compare(other.terms, n).same
    }
}
