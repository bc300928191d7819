// The reasons: what is asked of a derived row by each, 15 last.
ghost use Rattle.std.specs.Prelude.{◌≡◌, List, ◌<◌, IfSome};
ghost use Rattle.arithmetic.specs.Fraction.{IsFraction};
ghost use Rattle.grammar.specs.Tree.{Row as TreeRow, Multiplier, uns, Tree};
ghost use Rattle.rules.specs.Tests.{All};
ghost use Rattle.rules.specs.Rows.{constraint_of, row_at};
ghost use Rattle.rules.specs.Result.{done, ◌and_then◌, require};
ghost use Rattle.rules.specs.Combinations.{is_suitable, sense_of};
ghost use Rattle.rules.specs.Splits.{is_proper_split};
ghost use Rattle.rules.specs.Derivations.{named, check_dominates, check_lin, check_rnd, check_uns, check_sol};
ghost use Rattle.encoding.specs.Encodes.{Holds};
ghost use Rattle.verdicts.specs.Verdicts.{verdict_says};
ghost use Rattle.verdicts.specs.Best.{best_says};
ghost use Rattle.derivations.specs.Checks.{Checks, Lists, HasMultipliers, unsplit_of};
ghost use Rattle.derivations.specs.Combining.{multipliers_are, MultipliersBelow};
ghost use Rattle.derivations.specs.Constraints.{sense_says, bound_says, bound_with};

use crate::combining::Multipliers;
use crate::constraints::Constraint;
use crate::{Checker, constraints, require};
use arithmetic::Fraction;
use encoding::Certificate;
use encoding::rows::ListedRow;
use grammar::{Refusal, Stop};
use linear::rows::Row;
use senses::{Bound, Sense};
use verdicts::Verdict;

// ---- **lin** and **rnd**

// The sign rule, else 13: the sense of the multipliers' combination, refused at this place.
fn suitable_sense(
    certificate: Certificate,
    multipliers: Multipliers,
    place: usize,
) -> Result<Sense, Stop>
    ensures { (tree : Tree) → Holds tree certificate.entry → MultipliersBelow certificate.entry.header.rows (multipliers_are multipliers.entry) → sense_says result ≡ (require (is_suitable tree (multipliers_are multipliers.entry)) 13 place) and_then done (sense_of tree (multipliers_are multipliers.entry)) }
{
    let signs = multipliers.signs(certificate);
    let suitable = signs.are_suitable();
    require(suitable, Refusal::MultipliersNotSuitable, place)?;
    Ok(signs.sense())
}

// The bound of a combination with this sense, by its right side; 12 at the row's name where there is none.
fn bound_of(row: ListedRow, sense: Sense, right: Option<Fraction>) -> Result<Bound, Stop>
    ensures { bound_says result ≡ bound_with row.place sense right }
{
    let place = row.place;
    let Some(right) = right else {
        return Err(Stop {
            reason: Refusal::ResultTooWide,
            place,
        });
    };
    Ok(Bound { sense, right })
}

// ---- **uns**

// Row i dominates, else 15.
fn check_by_row(certificate: Certificate, row: ListedRow, i: usize) -> Verdict
    ensures { (tree : Tree) (r : TreeRow) → Holds tree certificate.entry → Lists tree certificate.entry r row → i < certificate.entry.header.rows → verdict_says result ≡ check_dominates tree (constraint_of tree (row_at tree i)) r }
{
    let by = constraints::row_of(certificate, certificate.row(i));
    constraints::check_by_terms(certificate, by, row)
}

impl<'a> Checker<'a> {
    // "13, 12", then 15.
    pub(crate) fn check_lin(&self, own: usize, row: ListedRow) -> Verdict
        ensures { (tree : Tree) (r : TreeRow) (ms : List Multiplier) → Holds tree self.now.certificate → Lists tree self.now.certificate r row → HasMultipliers self.now.certificate own ms → verdict_says result ≡ check_lin tree r ms }
    {
        let multipliers = Multipliers::of(self.certificate, own);
        let sense = suitable_sense(self.certificate, multipliers, row.place)?;
        let made = multipliers.combine(self.certificate);
        let bound = bound_of(row, sense, made.right)?;
        Constraint {
            coefficients: &made.coefficients,
            bound,
        }
        .check_dominates(self.certificate, row)
    }

    // "13, 12, then 14 ..; round; 15".
    pub(crate) fn check_rnd(&self, own: usize, row: ListedRow) -> Verdict
        ensures { (tree : Tree) (r : TreeRow) (ms : List Multiplier) → Checks tree self.now → Lists tree self.now.certificate r row → HasMultipliers self.now.certificate own ms → verdict_says result ≡ check_rnd tree r ms }
    {
        let multipliers = Multipliers::of(self.certificate, own);
        let sense = suitable_sense(self.certificate, multipliers, row.place)?;
        let made = multipliers.combine(self.certificate);
        let bound = bound_of(row, sense, made.right)?;
        let n = self.certificate.header.variables;
        let integral = made.coefficients.is_integral(&self.integers, n);
        let rounds = bound.can_be_rounded(integral);
        require(rounds, Refusal::CannotBeRounded, row.place)?;
        Constraint {
            coefficients: &made.coefficients,
            bound: bound.rounded(),
        }
        .check_dominates(self.certificate, row)
    }

    // Whether rows l1 and l2 are a proper split.
    fn is_proper_split(&self, l1: usize, l2: usize) -> bool
        ensures { (tree : Tree) → Checks tree self.now → l1 < self.now.certificate.header.rows → l2 < self.now.certificate.header.rows → result ≡ is_proper_split tree l1 l2 }
    {
        let certificate = self.certificate;
        let first = constraints::row_of(certificate, certificate.row(l1));
        let second = constraints::row_of(certificate, certificate.row(l2));
        first.is_split(second, &self.integers, certificate.header.variables)
    }

    // "else 16. Then each i row dominates, else 15": of the four rows that the reason names, i1 l1 i2 l2.
    pub(crate) fn check_uns(&self, rows: &[u16], row: ListedRow) -> Verdict
        ensures { (tree : Tree) (r : TreeRow) → Checks tree self.now → Lists tree self.now.certificate r row → All (λ i. i < self.now.certificate.header.rows) (named (uns (unsplit_of rows.now))) → verdict_says result ≡ check_uns tree r (unsplit_of rows.now) }
    {
        let l1 = tables::cell_at(rows, 1);
        let l2 = tables::cell_at(rows, 3);
        let proper = self.is_proper_split(l1, l2);
        require(proper, Refusal::NoProperSplit, row.place)?;
        check_by_row(self.certificate, row, tables::cell_at(rows, 0))?;
        check_by_row(self.certificate, row, tables::cell_at(rows, 2))
    }

    // ---- **sol**

    // "18, then 15", by the best objective, if there is any.
    pub(crate) fn check_sol(&self, row: ListedRow) -> Verdict
        ensures { (tree : Tree) (r : TreeRow) → Holds tree self.now.certificate → Lists tree self.now.certificate r row → IfSome self.now.best IsFraction → verdict_says result ≡ check_sol tree (best_says self.now.best) r }
    {
        let Some(best) = self.best else {
            return Err(Stop {
                reason: Refusal::NoSolutionListed,
                place: row.place,
            });
        };
        let header = self.certificate.header;
        let by = Row {
            terms: self.certificate.terms(header.objective),
            bound: Bound {
                sense: senses::sense_towards(header.maximize),
                right: best,
            },
        };
        constraints::check_by_terms(self.certificate, by, row)
    }
}
