// Derived rows of a certificate in tables, each by its reason, in document 01's order: first 11 over the rows that the reason
// names, and then what the reason asks. No public function asks anything of its caller: what holds of tables that encode a
// certificate is said of these.
#![tactic(auto)]

ghost use Rattle.std.specs.Prelude.{◌≡◌, List, ℕ, ◌+◌, ◌<◌, length, IfSome};
ghost use Rattle.arithmetic.specs.Fraction.{IsFraction};
ghost use Rattle.arithmetic.specs.declared.Fraction.{Fraction as Value};
ghost use Rattle.grammar.specs.Tree.{Row, Derivation, Tree};
ghost use Rattle.grammar.specs.Refusals.{refusal_number};
ghost use Rattle.rules.specs.Result.{require, each_from};
ghost use Rattle.rules.specs.Solutions.{best_of};
ghost use Rattle.rules.specs.Derivations.{check_reason, check_derivation};
ghost use Rattle.encoding.specs.Encodes.{EncodesDerivation, derivation_at, Holds};
ghost use Rattle.verdicts.specs.Verdicts.{verdict_says};
ghost use Rattle.verdicts.specs.Best.{best_says};
ghost use Rattle.derivations.specs.Checks.{BestIs, Checks, Lists};

use arithmetic::Fraction;
use encoding::reasons::Word;
use encoding::rows::ListedRow;
use encoding::{Certificate, integer_variables};
use grammar::{Refusal, Stop};
use verdicts::Verdict;

mod combining;
mod constraints;
mod reasons;
mod spent;

// This refusal at a place, unless the test passes.
fn require(test: bool, reason: Refusal, place: usize) -> Verdict
    ensures { verdict_says result ≡ require test (refusal_number reason) place }
{
    if test {
        Ok(())
    } else {
        Err(Stop { reason, place })
    }
}

// What derived rows are checked by: the certificate, which variables are integer, and the best objective of the listed
// solutions, if there is any.
#[derive(Clone, Copy)]
struct Checker<'a> {
    certificate: Certificate<'a>,
    integers: [bool; 256],
    best: Option<Fraction>,
}

impl<'a> Checker<'a> {
    // The row `own` by its reason.
    fn check_reason(&self, own: usize, row: ListedRow) -> Verdict
        ensures { (tree : Tree) (os : List Value) (r : Row) (d : Derivation) → Checks tree self.now → BestIs tree os self.now.best → Lists tree self.now.certificate r row → own < self.now.certificate.header.rows → EncodesDerivation self.now.certificate.index.now self.now.certificate.values.now self.now.certificate.rows.now own d → verdict_says result ≡ check_reason tree os r d.reason }
    {
        match self.certificate.word(own) {
            Word::Asm => Ok(()),
            Word::Lin => self.check_lin(own, row),
            Word::Rnd => self.check_rnd(own, row),
            Word::Uns => self.check_uns(self.certificate.named(own), row),
            Word::Sol => self.check_sol(row),
        }
    }

    // The row `own`: "first 11, over the rows its reason names in order .. Then".
    fn check_derivation(&self, own: usize) -> Verdict
        ensures { (tree : Tree) (os : List Value) (k : ℕ) → Checks tree self.now → BestIs tree os self.now.best → own ≡ self.now.certificate.header.given + k → own < self.now.certificate.header.rows → verdict_says result ≡ check_derivation tree os own (derivation_at tree k) }
    {
        let row = self.certificate.row(own);
        let unspent = spent::none_spent(self.certificate, own);
        require(unspent, Refusal::RowSpent, row.place)?;
        self.check_reason(own, row)
    }
}

// Each derived row in order. `best` is the best objective of the listed solutions, if there is any.
pub fn check_derivations(certificate: Certificate, best: Option<Fraction>) -> Verdict
    ensures { (tree : Tree) (os : List Value) → Holds tree certificate.entry → best_says best ≡ best_of tree.objective.direction os → IfSome best IsFraction → verdict_says result ≡ each_from (check_derivation tree os) (length tree.constraints.rows) tree.derivations.derivations }
{
    let checker = Checker {
        certificate,
        integers: integer_variables::marks_of(certificate.integers()),
        best,
    };
    for own in certificate.header.given..certificate.header.rows {
        checker.check_derivation(own)?;
    }
    Ok(())
}
