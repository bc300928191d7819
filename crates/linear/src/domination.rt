// Domination: the coefficients of one constraint in an array, those of the other as listed terms.
ghost use Rattle.std.specs.Prelude.{◌≡◌, ℕ, count_by, take};
ghost use Rattle.std.specs.List.{range_with_len, list_all};
ghost use Rattle.tables.specs.Cells.{fraction_at};
ghost use Rattle.tables.specs.Pairs.{pairs_in};
ghost use Rattle.arithmetic.specs.Fraction.{IsFraction, exact};
ghost use Rattle.arithmetic.specs.declared.Fraction.{Fraction as Value};
ghost use Rattle.rules.specs.Tests.{every_below};
ghost use Rattle.rules.specs.Values.{is_zero, is_same};
ghost use Rattle.rules.specs.Rows.{value_in};
ghost use Rattle.rules.specs.Domination.{is_absurd, dominates as dominates_of};
ghost use Rattle.rules.specs.Sentence.Formed.{Formed};
ghost use Rattle.senses.specs.Senses.{constraint_by};
ghost use Rattle.linear.specs.Lists.{terms_of};
ghost use Rattle.linear.specs.Coefficients.{coefficients_of, AreFractions};
ghost use Rattle.linear.specs.Comparing.{is_nonzero, nonzeros_below, Compares};

use crate::coefficients::Coefficients;
use crate::lists::Terms;
use crate::rows::Row;
use senses::{Bound, values};
use tables::limits;

// What is told of coefficients that are held against the listed terms of a row: whether they are equal to the row's, and whether
// all are zero.
#[derive(Clone, Copy, Debug, PartialEq, Eq)]
pub struct Compared {
    pub same: bool,
    pub zero: bool,
}

impl Coefficients {
    // How many of n are not zero.
    pub(crate) fn nonzeros(&self, n: usize) -> usize
        ensures { result ≡ count_by (λ f. is_nonzero f) (take n self.now.of) }
    {
        // Kept: a loop that counts, since a chain of `filter` and `count` tests one after the other (docs/PERFORMANCE.md).
        let mut count = 0;
        for f in &self.of[..n.min(limits::VARIABLES)] {
            if !values::is_zero(*f) {
                count += 1;
            }
        }
        count
    }

    // Whether listed terms give each variable the coefficient that it has here, where so many are not zero: each listed one is
    // here, and as many of them are not zero.
    pub(crate) fn are_those_of(&self, terms: Terms, nonzero: usize) -> bool
        ensures { let coefficient = coefficients_of self.now in (n : ℕ) → Formed n (terms_of terms.entry) → AreFractions coefficient → nonzero ≡ nonzeros_below n coefficient → result ≡ every_below n (λ v. is_same (coefficient v) (value_in (terms_of terms.entry) v)) }
    {
        let mut found = 0;
        for k in 0..terms.count() {
            let (v, f) = terms.term(k);
            if !values::is_same(self.at(v), f) {
                return false;
            }
            if !values::is_zero(f) {
                found += 1;
            }
        }
        found == nonzero
    }

    // Those of n variables, held against listed terms.
    pub fn compare(&self, terms: Terms, n: usize) -> Compared
        ensures { let coefficient = coefficients_of self.now in Formed n (terms_of terms.entry) → AreFractions coefficient → Compares n coefficient (value_in (terms_of terms.entry)) result }
    {
        let nonzero = self.nonzeros(n);
        Compared {
            same: self.are_those_of(terms, nonzero),
            zero: nonzero == 0,
        }
    }
}

impl Compared {
    // Whether the constraint of these coefficients, with this bound, dominates the row, with the other.
    pub fn dominates(self, bound: Bound, other: Bound) -> bool
        ensures { (n : ℕ) (coefficient row : ℕ → Value) → Compares n coefficient row self → IsFraction bound.right → IsFraction other.right → result ≡ dominates_of n (constraint_by coefficient bound) (constraint_by row other) }
    {
        self.zero && bound.fails_at_zero() || self.same && bound.is_tighter(other)
    }
}

impl<'a> Terms<'a> {
    // Whether all coefficients are zero.
    fn are_zero(self) -> bool
        ensures { result ≡ list_all (λ k. is_zero (exact (fraction_at self.entry.parts.now k))) (range_with_len 0 (pairs_in self.entry.variables.now self.entry.parts.now)) }
    {
        (0..self.count()).all(|k| values::is_zero(tables::value_at(self.parts, k)))
    }
}

impl<'a> Row<'a> {
    // "0 ≥ β with β > 0, 0 ≤ β with β < 0, or 0 = β with β ≠ 0".
    pub fn is_absurd(self) -> bool
        ensures { (n : ℕ) → Formed n (terms_of self.entry.terms) → result ≡ is_absurd n (constraint_by (value_in (terms_of self.entry.terms)) self.entry.bound) }
    {
        self.bound.fails_at_zero() && self.terms.are_zero()
    }
}
