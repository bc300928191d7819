// Tests of values, and the one step of arithmetic that combinations and left sides are made of.
ghost use Rattle.std.specs.Prelude.{◌≡◌, ◌&&◌, ℕ};
ghost use Rattle.arithmetic.specs.Fraction.{IsFraction, exact, arithmetic_says};
ghost use Rattle.rules.specs.Result.{bind};
ghost use Rattle.rules.specs.Values.{same_z, is_whole, is_zero, is_same, is_at_most, within12, product_at, sum_at};
ghost use Rattle.senses.specs.Rounding.{may_stand};

use arithmetic::{ArithmeticError, Fraction};

pub fn is_whole(f: Fraction) -> bool
    ensures { result ≡ is_whole f }
{
    f.den == 1
}

pub fn is_zero(f: Fraction) -> bool
    ensures { result ≡ is_zero (exact f) }
{
    f.num == 0
}

// Whether a coefficient is whole, and zero unless its variable is integer.
pub fn may_stand(f: Fraction, integer: bool) -> bool
    ensures { result ≡ may_stand f integer }
{
    is_whole(f) && (is_zero(f) || integer)
}

// Fractions in lowest terms are equal where their parts are.
pub fn is_same(a: Fraction, b: Fraction) -> bool
    ensures parts { result ≡ same_z a.num b.num && same_z a.den b.den }
    ensures same { IsFraction a → IsFraction b → result ≡ is_same a b }
{
    a == b
}

pub fn is_at_most(a: Fraction, b: Fraction) -> bool
    ensures { IsFraction a → IsFraction b → result ≡ is_at_most a b }
{
    arithmetic::compare(a, b).is_le()
}

// A sum and a product more: the product, then the sum.
#[inline(always)]
pub fn plus_product(sum: Fraction, a: Fraction, b: Fraction) -> Result<Fraction, ArithmeticError>
    ensures { IsFraction sum → IsFraction a → IsFraction b → (place : ℕ) → within12 place (arithmetic_says result) ≡ bind (product_at place a b) (λ p. sum_at place sum p) }
{
    arithmetic::add_product(sum, a, b)
}
