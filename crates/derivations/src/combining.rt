// The multipliers of a reason: their signs, and the combination of the rows that they name.
ghost use Rattle.std.specs.Prelude.{◌≡◌, ℕ};
ghost use Rattle.tables.specs.Pairs.{pairs_in};
ghost use Rattle.grammar.specs.Tree.{Tree};
ghost use Rattle.rules.specs.Combinations.{combine as combine_of};
ghost use Rattle.senses.specs.Signs.{SignsAre};
ghost use Rattle.linear.specs.Combinations.{combination_says, HasFractions};
ghost use Rattle.encoding.specs.Places.{indices_at, values_at, multipliers_of};
ghost use Rattle.encoding.specs.Encodes.{Holds};
ghost use Rattle.derivations.specs.Combining.{multipliers_are, MultipliersBelow};

use crate::constraints;
use encoding::Certificate;
use linear::combinations::Combination;
use senses::signs::Signs;

// The multipliers of a reason, each a row and a factor; a factor is a numerator and a denominator, by turns.
#[derive(Clone, Copy)]
pub(crate) struct Multipliers<'a> {
    pub rows: &'a [u16],
    pub factors: &'a [i32],
}

impl<'a> Multipliers<'a> {
    // Those of row `own`.
    pub fn of(certificate: Certificate<'a>, own: usize) -> Multipliers<'a>
        ensures rows { result.rows.now ≡ indices_at certificate.entry.index.now (multipliers_of certificate.entry.index.now certificate.entry.rows.now own) }
        ensures factors { result.factors.now ≡ values_at certificate.entry.values.now (multipliers_of certificate.entry.index.now certificate.entry.rows.now own) }
    {
        let pairs = certificate.multipliers(own);
        Multipliers {
            rows: tables::indices_of(certificate.index, pairs),
            factors: tables::values_of(certificate.values, pairs),
        }
    }

    // How many there are.
    fn count(self) -> usize
        ensures { result ≡ pairs_in self.entry.rows.now self.entry.factors.now }
    {
        tables::pairs_in(self.rows, self.factors)
    }

    // Their signs.
    pub fn signs(self, certificate: Certificate) -> Signs
        ensures { (tree : Tree) → Holds tree certificate.entry → MultipliersBelow certificate.entry.header.rows (multipliers_are self.entry) → SignsAre tree (multipliers_are self.entry) result }
    {
        let mut signs = Signs::none();
        for k in 0..self.count() {
            let sense = certificate.sense(self.rows[k] as usize);
            signs = signs.next(sense, tables::value_at(self.factors, k));
        }
        signs
    }

    // The combination of the rows, in order. Nothing is combined after the first result that is too wide.
    #[inline(always)]
    pub fn combine(self, certificate: Certificate) -> Combination
        ensures says { (tree : Tree) → Holds tree certificate.entry → MultipliersBelow certificate.entry.header.rows (multipliers_are self.entry) → (place : ℕ) → combination_says place result ≡ combine_of tree place (multipliers_are self.entry) }
        ensures fractions { (tree : Tree) → Holds tree certificate.entry → MultipliersBelow certificate.entry.header.rows (multipliers_are self.entry) → HasFractions result }
    {
        let mut made = Combination::empty();
        for k in 0..self.count() {
            let row = constraints::row_of(certificate, certificate.row(self.rows[k] as usize));
            let factor = tables::value_at(self.factors, k);
            made = made.next(row.terms, row.bound.right, factor);
            if made.right.is_none() {
                return made;
            }
        }
        made
    }
}
