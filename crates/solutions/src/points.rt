// The points that solutions are, and left sides at them.
ghost use Rattle.std.specs.Prelude.{◌≡◌, List, ℕ, ◌≤◌, IfErr};
ghost use Rattle.grammar.specs.Tree.{Term, Solution};
ghost use Rattle.rules.specs.Solutions.{left_side};
ghost use Rattle.rules.specs.Sentence.Formed.{Formed};
ghost use Rattle.encoding.specs.Places.{terms_at};
ghost use Rattle.encoding.specs.Encodes.{EncodesSolution};
ghost use Rattle.solutions.specs.Points.{IsPoint, IsTooWide, left_says};

use arithmetic::Fraction;
use encoding::Certificate;
use grammar::{Refusal, Stop};
use linear::coefficients::Coefficients;
use tables::Pairs;

// A solution: the place of its name, and the value that it gives each variable.
#[derive(Clone, Copy)]
pub(crate) struct Point {
    place: usize,
    pub(crate) values: Coefficients,
}

impl Point {
    // Solution j.
    pub(crate) fn of(certificate: Certificate, j: usize) -> Point
        ensures { (n : ℕ) (s : Solution) → n ≤ 256 → EncodesSolution n certificate.entry.index.now certificate.entry.values.now certificate.entry.rows.now j s → IsPoint result s }
    {
        Point {
            place: tables::solution_at(certificate.rows, j).place,
            values: certificate.terms(certificate.solution(j)).coefficients(),
        }
    }

    // A refusal at the name of the solution.
    pub(crate) fn stop(&self, reason: Refusal) -> Stop
        ensures { result ≡ record { reason = reason; place = self.now.place } }
    {
        Stop {
            reason,
            place: self.place,
        }
    }

    // The left side, at this point, of the terms that stand there; else 12.
    pub(crate) fn left_at(&self, certificate: Certificate, terms: Pairs) -> Result<Fraction, Stop>
        ensures says { (n : ℕ) (s : Solution) (ts : List Term) → n ≤ 256 → IsPoint self.now s → terms_at certificate.entry.index.now certificate.entry.values.now terms ≡ ts → Formed n ts → left_says result ≡ left_side s.name.place s.values.terms ts }
        ensures reason { IfErr result IsTooWide }
    {
        certificate
            .terms(terms)
            .left_at(&self.values)
            .map_err(|_| self.stop(Refusal::ResultTooWide))
    }
}
