// The objectives of the solutions: the best of them, and whether one reaches the bound that is asked.
ghost use Rattle.std.specs.Prelude.{◌≡◌, List, [], ◌∷◌, ◌++◌, ◌<◌, IfSome, IfErr};
ghost use Rattle.arithmetic.specs.Fraction.{IsFraction};
ghost use Rattle.arithmetic.specs.declared.Fraction.{Fraction as FractionOf};
ghost use Rattle.grammar.specs.Tree.{Direction, Tree};
ghost use Rattle.rules.specs.Rows.{objective};
ghost use Rattle.rules.specs.Solutions.{towards, left_side, best_of};
ghost use Rattle.senses.specs.Senses.{sense_is};
ghost use Rattle.encoding.specs.Claims.{end_says};
ghost use Rattle.encoding.specs.Encodes.{solution_at, Holds};
ghost use Rattle.verdicts.specs.Best.{best_says};
ghost use Rattle.solutions.specs.Points.{IsTooWide, left_says};
ghost use Rattle.solutions.specs.Objectives.{BestIs, ObjectivesSay};

use crate::points::Point;
use arithmetic::Fraction;
use encoding::Certificate;
use grammar::Stop;
use senses::{Bound, Sense};

// The best objective, if there is any, and whether what is asked is reached: nothing is asked, or one of them reaches the bound.
#[derive(Clone, Copy, Debug, PartialEq, Eq)]
pub struct Best {
    pub value: Option<Fraction>,
    pub reached: bool,
}

// The better one of the best objective so far, if there is any, and one more.
fn better(sense: Sense, best: Option<Fraction>, o: Fraction) -> Fraction
    ensures { (d : Direction) (os : List FractionOf) → sense_is sense ≡ towards d → best_says best ≡ best_of d os → IfSome best IsFraction → IsFraction o → (best_says (Some result) ≡ best_of d (os ++ (o ∷ []))) × IsFraction result }
{
    let as_good = Bound { sense, right: o };
    match best {
        Some(best) if as_good.holds_of(best) => best,
        _ => o,
    }
}

impl Best {
    // One objective more; this sense is that of being as good.
    fn with(self, sense: Sense, to_reach: Option<Fraction>, o: Fraction) -> Best
        ensures { (d : Direction) (os : List FractionOf) → sense_is sense ≡ towards d → IfSome to_reach IsFraction → IsFraction o → BestIs d (end_says to_reach) os self → BestIs d (end_says to_reach) (os ++ (o ∷ [])) result }
    {
        let reaches = to_reach.is_none_or(|right| Bound { sense, right }.holds_of(o));
        Best {
            value: Some(better(sense, self.value, o)),
            reached: self.reached || reaches,
        }
    }
}

// The objective of solution j.
fn objective_at(certificate: Certificate, j: usize) -> Result<Fraction, Stop>
    ensures says { (tree : Tree) → Holds tree certificate.entry → j < certificate.entry.header.solutions → left_says result ≡ left_side (solution_at tree j).name.place (solution_at tree j).values.terms (objective tree) }
    ensures reason { IfErr result IsTooWide }
{
    Point::of(certificate, j).left_at(certificate, certificate.header.objective)
}

// "After all solutions, their objectives, the same way and in order"; a bound that some objective is to reach, if it is asked.
pub fn objectives_of(certificate: Certificate, to_reach: Option<Fraction>) -> Result<Best, Stop>
    ensures { (tree : Tree) → Holds tree certificate.entry → IfSome to_reach IsFraction → ObjectivesSay tree (end_says to_reach) result }
{
    let header = certificate.header;
    let sense = senses::sense_towards(header.maximize);
    let mut best = Best {
        value: None,
        reached: to_reach.is_none(),
    };
    for j in 0..header.solutions {
        let o = objective_at(certificate, j)?;
        best = best.with(sense, to_reach, o);
    }
    Ok(best)
}
