// Constraints by the coefficient of each variable, and the domination of derived rows by them.
ghost use Rattle.std.specs.Prelude.{◌≡◌};
ghost use Rattle.arithmetic.specs.Fraction.{IsFraction};
ghost use Rattle.grammar.specs.Tree.{Row as TreeRow, Tree};
ghost use Rattle.rules.specs.Rows.{value_in};
ghost use Rattle.rules.specs.Derivations.{check_dominates};
ghost use Rattle.rules.specs.Sentence.Formed.{Formed};
ghost use Rattle.senses.specs.Senses.{constraint_by};
ghost use Rattle.linear.specs.Lists.{terms_of};
ghost use Rattle.verdicts.specs.Verdicts.{verdict_says};
ghost use Rattle.derivations.specs.Checks.{Lists};
ghost use Rattle.derivations.specs.Constraints.{constraint_is, HaveFractions, Stands};

use encoding::Certificate;
use encoding::rows::ListedRow;
use grammar::Refusal;
use linear::coefficients::Coefficients;
use linear::rows::Row;
use senses::Bound;
use verdicts::Verdict;

// A row with its terms.
pub(crate) fn row_of<'a>(certificate: Certificate<'a>, row: ListedRow) -> Row<'a>
    ensures { (tree : Tree) (r : TreeRow) → Lists tree certificate.entry r row → Stands tree certificate.entry r result }
{
    Row {
        terms: certificate.terms(row.terms),
        bound: row.bound,
    }
}

// A constraint: the coefficient of each variable, and the bound of the left side.
// Kept: the coefficients are lent, since a copy of their 2 KB takes time for each row (docs/PERFORMANCE.md).
#[derive(Clone, Copy)]
pub(crate) struct Constraint<'a> {
    pub coefficients: &'a Coefficients,
    pub bound: Bound,
}

impl<'a> Constraint<'a> {
    // It dominates the row, else 15.
    pub fn check_dominates(self, certificate: Certificate, row: ListedRow) -> Verdict
        ensures { (tree : Tree) (r : TreeRow) → Lists tree certificate.entry r row → HaveFractions self.entry → verdict_says result ≡ check_dominates tree (constraint_is self.entry) r }
    {
        let listed = row_of(certificate, row);
        let n = certificate.header.variables;
        let compared = self.coefficients.compare(listed.terms, n);
        let dominates = compared.dominates(self.bound, listed.bound);
        crate::require(dominates, Refusal::NoDomination, row.place)
    }
}

// The constraint of these terms, with their bound, dominates the row, else 15.
pub(crate) fn check_by_terms(certificate: Certificate, by: Row, row: ListedRow) -> Verdict
    ensures { (tree : Tree) (r : TreeRow) → Lists tree certificate.entry r row → Formed certificate.entry.header.variables (terms_of by.entry.terms) → IsFraction by.entry.bound.right → verdict_says result ≡ check_dominates tree (constraint_by (value_in (terms_of by.entry.terms)) by.entry.bound) r }
{
    let coefficients = by.terms.coefficients();
    Constraint {
        coefficients: &coefficients,
        bound: by.bound,
    }
    .check_dominates(certificate, row)
}
