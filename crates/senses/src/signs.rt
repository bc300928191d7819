// The sign rule.
ghost use Rattle.std.specs.Prelude.{◌≡◌, true, List};
ghost use Rattle.grammar.specs.Tree.{Multiplier, Tree};
ghost use Rattle.rules.specs.Combinations.{is_suitable, sense_of};
ghost use Rattle.senses.specs.Senses.{sense_is};
ghost use Rattle.senses.specs.Signs.{signed_by, signed_number, next_signs, SignsAre};

use crate::Sense;
use arithmetic::Fraction;

// Whether no multiplier times its row's sign is negative, and whether none is positive.
#[derive(Clone, Copy, Debug, PartialEq, Eq)]
pub struct Signs {
    pub nonnegative: bool,
    pub nonpositive: bool,
}

// The numerator of a multiplier times the sign of its row's sense: for an L row it is negated.
fn signed_multiplier(sense: Sense, factor: Fraction) -> i64
    ensures { result ≡ signed_number (sense_is sense) factor }
{
    let n = i64::from(factor.num);
    match sense {
        Sense::Equal => 0,
        Sense::AtMost => -n,
        Sense::AtLeast => n,
    }
}

impl Signs {
    // No multiplier yet.
    pub fn none() -> Self
        ensures { (result.nonnegative ≡ true) × (result.nonpositive ≡ true) }
    {
        Signs {
            nonnegative: true,
            nonpositive: true,
        }
    }

    // The next signs: these and those of one more multiplier, of a row with this sense.
    pub fn next(self, sense: Sense, factor: Fraction) -> Self
        ensures { result ≡ next_signs self (signed_by (sense_is sense) factor) }
    {
        let n = signed_multiplier(sense, factor);
        Signs {
            nonnegative: self.nonnegative && n >= 0,
            nonpositive: self.nonpositive && n <= 0,
        }
    }

    // Whether multipliers with these signs are suitable.
    pub fn are_suitable(self) -> bool
        ensures { (tree : Tree) (ms : List Multiplier) → SignsAre tree ms self → result ≡ is_suitable tree ms }
    {
        self.nonnegative || self.nonpositive
    }

    // The sense of a suitable combination whose multipliers have these signs.
    pub fn sense(self) -> Sense
        ensures { (tree : Tree) (ms : List Multiplier) → SignsAre tree ms self → sense_is result ≡ sense_of tree ms }
    {
        match (self.nonnegative, self.nonpositive) {
            (true, true) => Sense::Equal,
            (true, false) => Sense::AtLeast,
            (false, _) => Sense::AtMost,
        }
    }
}
