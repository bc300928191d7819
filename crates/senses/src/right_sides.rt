// Right sides of bounds: those that are rounded, and those of the two rows of a split.
ghost use Rattle.std.specs.Prelude.{◌≡◌, ◌&&◌, ℕ, pos, ◌+ℤ◌};
ghost use Rattle.arithmetic.specs.Fraction.{IsFraction, rounding_says};
ghost use Rattle.arithmetic.specs.declared.Fraction.{Fraction as Value};
ghost use Rattle.grammar.specs.Tree.{Tree};
ghost use Rattle.rules.specs.Values.{same_z, is_whole};
ghost use Rattle.rules.specs.Rows.{Constraint};
ghost use Rattle.rules.specs.Rounding.{is_integral, can_be_rounded, rounded_right};
ghost use Rattle.rules.specs.Splits.{are_adjacent};
ghost use Rattle.senses.specs.Senses.{sense_is, constraint_by};
ghost use Rattle.senses.specs.Rounding.{with_rounding};

use crate::{Bound, Sense, values};
use arithmetic::{Fraction, NotAFraction};

// A right side that a rounding gives; where there is none, it stays.
fn with_rounding(right: Fraction, rounding: Result<i32, NotAFraction>) -> Fraction
    ensures { result ≡ with_rounding right (rounding_says rounding) }
{
    match rounding {
        Ok(num) => Fraction { num, den: 1 },
        Err(NotAFraction) => right,
    }
}

// Whether a is whole and b is exactly a + 1.
fn are_next(a: Fraction, b: Fraction) -> bool
    ensures { result ≡ is_whole a && (is_whole b && same_z b.num (a.num +ℤ pos 1)) }
{
    values::is_whole(a) && values::is_whole(b) && i64::from(b.num) == i64::from(a.num) + 1
}

impl Bound {
    // "14 if it is an equality, or a coefficient is not whole, or a nonzero one stands at a variable that isn't integer".
    pub fn can_be_rounded(self, integral: bool) -> bool
        ensures { (tree : Tree) (c : Constraint) → c.sense ≡ sense_is self.sense → integral ≡ is_integral tree c → result ≡ can_be_rounded tree c }
    {
        self.sense != Sense::Equal && integral
    }

    // "β' = ⌊β⌋ if sense is ≤, ⌈β⌉ if sense is ≥".
    fn rounded_right(self) -> Fraction
        ensures { IsFraction self.right → (result ≡ rounded_right (sense_is self.sense) self.right) × IsFraction result }
    {
        match self.sense {
            Sense::Equal => self.right,
            Sense::AtMost => with_rounding(self.right, arithmetic::floor(self.right)),
            Sense::AtLeast => with_rounding(self.right, arithmetic::ceiling(self.right)),
        }
    }

    // The same sense, with the rounded right side.
    pub fn rounded(self) -> Bound
        ensures sense { result.sense ≡ self.sense }
        ensures right { IsFraction self.right → (result.right ≡ rounded_right (sense_is self.sense) self.right) × IsFraction result.right }
    {
        Bound {
            right: self.rounded_right(),
            ..self
        }
    }

    // "one is L with whole β, the other G with exactly β + 1 (never 12)": this one is L.
    pub fn is_below(self, other: Bound) -> bool
        ensures { (f g : ℕ → Value) → result ≡ are_adjacent (constraint_by f self) (constraint_by g other) }
    {
        self.sense == Sense::AtMost
            && other.sense == Sense::AtLeast
            && are_next(self.right, other.right)
    }
}
