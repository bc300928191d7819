// Feasible solutions: whole where they must be, and each given row holds.
ghost use Rattle.std.specs.Prelude.{◌≡◌, ◌≤◌, ◌<◌};
ghost use Rattle.std.specs.List.{list_all};
ghost use Rattle.grammar.specs.Tree.{Row, Solution, Tree};
ghost use Rattle.rules.specs.Result.{each};
ghost use Rattle.rules.specs.Values.{is_whole};
ghost use Rattle.rules.specs.Rows.{variables};
ghost use Rattle.rules.specs.Solutions.{check_row, check_solution};
ghost use Rattle.linear.specs.Coefficients.{coefficients_of};
ghost use Rattle.encoding.specs.Encodes.{Holds, HoldsRow, solution_at};
ghost use Rattle.verdicts.specs.Verdicts.{verdict_says};
ghost use Rattle.solutions.specs.Points.{IsPoint, whole_at};

use crate::points::Point;
use encoding::Certificate;
use grammar::Refusal;
use senses::values;
use verdicts::Verdict;

impl Point {
    // Row r at the point: 12, else 9.
    fn check_row(&self, certificate: Certificate, r: usize) -> Verdict
        ensures { (tree : Tree) (s : Solution) (row : Row) → variables tree ≤ 256 → IsPoint self.now s → HoldsRow tree certificate.entry r row → verdict_says result ≡ check_row tree s row }
    {
        let row = certificate.row(r);
        let left = self.left_at(certificate, row.terms)?;
        if row.bound.holds_of(left) {
            Ok(())
        } else {
            Err(self.stop(Refusal::SolutionFails))
        }
    }

    // "each given row in order: 12, else 9".
    fn check_rows(&self, certificate: Certificate) -> Verdict
        ensures { (tree : Tree) (s : Solution) → Holds tree certificate.entry → IsPoint self.now s → verdict_says result ≡ each (check_row tree s) tree.constraints.rows }
    {
        for r in 0..certificate.header.given {
            self.check_row(certificate, r)?;
        }
        Ok(())
    }

    // Whether the values of integer variables are whole.
    fn is_whole_at(&self, integers: &[u16]) -> bool
        ensures { result ≡ list_all (λ v. is_whole (coefficients_of self.now.values v)) integers.now }
    {
        integers
            .iter()
            .all(|v| values::is_whole(self.values.at(usize::from(*v))))
    }

    // "values of integer variables are whole, else 9".
    fn check_whole(&self, integers: &[u16]) -> Verdict
        ensures { (s : Solution) → IsPoint self.now s → verdict_says result ≡ each (whole_at s) integers.now }
    {
        if self.is_whole_at(integers) {
            Ok(())
        } else {
            Err(self.stop(Refusal::SolutionFails))
        }
    }
}

// "values of integer variables are whole, else 9; then each given row in order".
fn check_solution(certificate: Certificate, j: usize) -> Verdict
    ensures { (tree : Tree) → Holds tree certificate.entry → j < certificate.entry.header.solutions → verdict_says result ≡ check_solution tree (solution_at tree j) }
{
    let point = Point::of(certificate, j);
    point.check_whole(certificate.integers())?;
    point.check_rows(certificate)
}

// "For each solution in order".
pub fn check_solutions(certificate: Certificate) -> Verdict
    ensures { (tree : Tree) → Holds tree certificate.entry → verdict_says result ≡ each (check_solution tree) tree.solutions.solutions }
{
    for j in 0..certificate.header.solutions {
        check_solution(certificate, j)?;
    }
    Ok(())
}
