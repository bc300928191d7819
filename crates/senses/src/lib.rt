// Senses, the bounds that they make with right sides, and the tests of single values and of bounds. Nothing here knows a list or
// an array, and no public function asks anything of its caller: what holds of fractions is said of these.
#![tactic(auto)]

ghost use Rattle.std.specs.Prelude.{◌≡◌};
ghost use Rattle.arithmetic.specs.Fraction.{IsFraction};
ghost use Rattle.grammar.specs.Header.{is_maximize};
ghost use Rattle.grammar.specs.Tree.{Direction};
ghost use Rattle.rules.specs.Solutions.{holds, towards};
ghost use Rattle.rules.specs.Domination.{fails_at_zero, is_tighter};
ghost use Rattle.senses.specs.Senses.{sense_is};

use arithmetic::Fraction;

pub mod right_sides;
pub mod signs;
pub mod values;

// `E`, `L`, `G`.
#[derive(Clone, Copy, Debug, PartialEq, Eq)]
pub enum Sense {
    Equal,
    AtMost,
    AtLeast,
}

// The sense of being as good: at most under min, at least under max.
pub fn sense_towards(maximize: bool) -> Sense
    ensures { (d : Direction) → maximize ≡ is_maximize d → sense_is result ≡ towards d }
{
    if maximize {
        Sense::AtLeast
    } else {
        Sense::AtMost
    }
}

// A sense, and a right side under it: the bound of a left side.
#[derive(Clone, Copy, Debug, PartialEq, Eq)]
pub struct Bound {
    pub sense: Sense,
    pub right: Fraction,
}

impl Bound {
    // Whether it holds of a left side.
    pub fn holds_of(self, left: Fraction) -> bool
        ensures { IsFraction left → IsFraction self.right → result ≡ holds (sense_is self.sense) left self.right }
    {
        match self.sense {
            Sense::Equal => values::is_same(left, self.right),
            Sense::AtMost => values::is_at_most(left, self.right),
            Sense::AtLeast => values::is_at_most(self.right, left),
        }
    }

    // Whether it fails of 0.
    pub fn fails_at_zero(self) -> bool
        ensures { result ≡ fails_at_zero (sense_is self.sense) self.right }
    {
        match self.sense {
            Sense::Equal => self.right.num != 0,
            Sense::AtMost => self.right.num < 0,
            Sense::AtLeast => self.right.num > 0,
        }
    }

    // Whether it is as tight as another, where the coefficients are equal.
    pub fn is_tighter(self, other: Bound) -> bool
        ensures { IsFraction self.right → IsFraction other.right → result ≡ is_tighter (sense_is self.sense) self.right (sense_is other.sense) other.right }
    {
        (self.sense == Sense::Equal || self.sense == other.sense) && other.holds_of(self.right)
    }
}
