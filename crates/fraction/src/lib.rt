// Values within the limit: fractions in lowest terms, whose numerator and denominator have magnitudes of at most
// 2,147,483,647, with product, sum, a sum and a product more, comparison, floor and ceiling, and any quotient of whole numbers
// brought to such a fraction. No public function asks anything of its caller: operands that are no fractions are refused.
#![tactic(auto)]

ghost use Rattle.std.specs.Prelude.{◌≡◌, ◌&&◌, ◌<◌, true, nat_abs};
ghost use Rattle.std.specs.Int.{◌∣◌};
ghost use Rattle.integers.specs.Gcd.{gcd as gcd_of};
ghost use Rattle.arithmetic.specs.Quotient.{lowest};
ghost use Rattle.arithmetic.specs.Fraction.{is_fraction, ratio_of, on_fractions, within as within_of, arithmetic_says, comparison_says, rounding_says};
ghost use Rattle.arithmetic.specs.Parts.{is_shaped};
ghost use Rattle.fraction.specs.Promise.{ProductMeant, SumMeant, ReducedMeant, AddProductMeant, ComparisonMeant, FloorMeant, CeilingMeant};
ghost use Rattle.fraction.specs.Results.{in_lowest_terms, result_in_lowest_terms, ResultOf};

use arithmetic::Ratio;
pub use arithmetic::{ArithmeticError, Fraction, NotAFraction};
use divisors::Pair;
use std::cmp::Ordering;

// Above this product of denominators, three greatest common divisors in one loop take less time than one after the other.
const WIDE: u64 = 1048576;

// ---- fractions

// A numerator's magnitude and a denominator's.
fn parts(f: Fraction) -> Pair
    ensures { (result.x ≡ nat_abs f.num) × (result.y ≡ nat_abs f.den) }
{
    Pair {
        x: u64::from(f.num.unsigned_abs()),
        y: u64::from(f.den.unsigned_abs()),
    }
}

// Whether a pair is in lowest terms. A whole number needs no greatest common divisor.
fn is_lowest(f: Fraction) -> bool
    ensures { result ≡ in_lowest_terms f }
{
    let p = parts(f);
    p.y == 1 || divisors::gcd(p.x, p.y) == 1
}

// Whether a pair is a fraction in lowest terms within the limit.
fn is_fraction(f: Fraction) -> bool
    ensures { result ≡ is_fraction f }
{
    arithmetic::is_shaped(f) && is_lowest(f)
}

// Whether two pairs are fractions if they are in lowest terms.
fn both_shaped(a: Fraction, b: Fraction) -> bool
    ensures { result ≡ is_shaped a && is_shaped b }
{
    arithmetic::is_shaped(a) && arithmetic::is_shaped(b)
}

// Whether two pairs are in lowest terms. Where neither is whole, one loop tells it of both.
fn both_lowest(a: Fraction, b: Fraction) -> bool
    ensures { result ≡ in_lowest_terms a && in_lowest_terms b }
{
    let p = parts(a);
    let q = parts(b);
    if p.y == 1 {
        return is_lowest(b);
    }
    if q.y == 1 {
        return is_lowest(a);
    }
    let v = divisors::gcds(p, q, Pair { x: 1, y: 1 });
    v.a == 1 && v.b == 1
}

// Whether both are fractions in lowest terms within the limit.
fn both(a: Fraction, b: Fraction) -> bool
    ensures { result ≡ is_fraction a && is_fraction b }
{
    both_shaped(a, b) && both_lowest(a, b)
}

// Whether three pairs are fractions.
fn all_three(a: Fraction, b: Fraction, c: Fraction) -> bool
    ensures { result ≡ is_fraction a && (is_fraction b && is_fraction c) }
{
    is_fraction(a) && both(b, c)
}

// ---- product and sum

// A result brought to lowest terms by g, the greatest common divisor of its parts.
fn by_divisor(q: Ratio, g: u64) -> Result<Fraction, ArithmeticError>
    requires { (0 < q.bottom) × (g ≡ gcd_of q.top q.bottom) }
    ensures { arithmetic_says result ≡ within_of (lowest (ratio_of q)) }
{
    Ratio {
        top: q.top / g,
        bottom: q.bottom / g,
        ..q
    }
    .within()
}

// Whether a pair is in lowest terms, where the common divisors of its parts divide g.
fn is_lowest_by(g: u64, f: Fraction) -> bool
    requires { (0 < g) × (gcd_of (nat_abs f.num) (nat_abs f.den) ∣ g) }
    ensures { result ≡ in_lowest_terms f }
{
    let p = parts(f);
    let h = divisors::gcd(p.x % g, g);
    h == 1 || divisors::gcd(p.y % h, h) == 1
}

// The greatest common divisor of the parts of a result.
fn divisor_of(q: Ratio) -> u64
    requires { 0 < q.bottom }
    ensures { result ≡ gcd_of q.top q.bottom }
{
    let d = q.bottom;
    if d == 1 {
        return 1;
    }
    divisors::gcd(q.top % d, d)
}

// A product or a sum: its operands and its exact result. The methods that pass it on are inlined, so that it stays in
// registers: passed through memory, a product of whole numbers takes 13.6 ns in place of 7.5, a sum 13.9 in place of 9.7.
#[derive(Clone, Copy)]
struct Operation {
    a: Fraction,
    b: Fraction,
    ratio: Ratio,
}

impl Operation {
    // The result in lowest terms, if a and b are in lowest terms: three greatest common divisors in one loop.
    fn lowest_together(self) -> Result<Fraction, ArithmeticError>
        requires { 0 < self.ratio.bottom }
        ensures { arithmetic_says result ≡ result_in_lowest_terms self }
    {
        let Ratio { top, bottom, .. } = self.ratio;
        let v = divisors::gcds(parts(self.a), parts(self.b), Pair { x: top, y: bottom });
        if v.a == 1 && v.b == 1 {
            by_divisor(self.ratio, v.c)
        } else {
            Err(ArithmeticError::NotAFraction)
        }
    }

    // The same by g, the greatest common divisor of the result's parts.
    #[inline(always)]
    fn lowest_by(self, g: u64) -> Result<Fraction, ArithmeticError>
        requires { ResultOf self.a self.b self.ratio × (g ≡ gcd_of self.ratio.top self.ratio.bottom) }
        ensures { arithmetic_says result ≡ result_in_lowest_terms self }
    {
        if is_lowest_by(g, self.a) && is_lowest_by(g, self.b) {
            by_divisor(self.ratio, g)
        } else {
            Err(ArithmeticError::NotAFraction)
        }
    }

    // The same by the quicker way. What divides both parts of an operand divides both parts of the result: a result in lowest
    // terms shows that the operands are.
    #[inline(always)]
    fn lowest(self) -> Result<Fraction, ArithmeticError>
        requires { ResultOf self.a self.b self.ratio }
        ensures { arithmetic_says result ≡ result_in_lowest_terms self }
    {
        if self.ratio.bottom > WIDE {
            return self.lowest_together();
        }
        let g = divisor_of(self.ratio);
        if g == 1 {
            return self.ratio.within();
        }
        self.lowest_by(g)
    }

    // The result in lowest terms, if a and b are fractions.
    #[inline(always)]
    fn of_fractions(self) -> Result<Fraction, ArithmeticError>
        requires { is_shaped self.a && is_shaped self.b ≡ true → ResultOf self.a self.b self.ratio }
        ensures { arithmetic_says result ≡ on_fractions (is_fraction self.a && is_fraction self.b) (within_of (lowest (ratio_of self.ratio))) }
    {
        if both_shaped(self.a, self.b) {
            self.lowest()
        } else {
            Err(ArithmeticError::NotAFraction)
        }
    }
}

pub fn product(a: Fraction, b: Fraction) -> Result<Fraction, ArithmeticError>
    ensures { ProductMeant a b (arithmetic_says result) }
{
    let ratio = arithmetic::multiplied(a, b);
    Operation { a, b, ratio }.of_fractions()
}

pub fn sum(a: Fraction, b: Fraction) -> Result<Fraction, ArithmeticError>
    ensures { SumMeant a b (arithmetic_says result) }
{
    let ratio = arithmetic::added(a, b);
    Operation { a, b, ratio }.of_fractions()
}

// n / d, negated if asked, brought to lowest terms. No fraction has the denominator 0.
// Kept: the parts of a `Ratio` one by one, as this signature promises them.
pub fn reduced(negative: bool, n: u64, d: u64) -> Result<Fraction, ArithmeticError>
    ensures { ReducedMeant negative n d (arithmetic_says result) }
{
    Ratio {
        negative,
        top: n,
        bottom: d,
    }
    .reduced()
}

// A sum and a product more: a * b, then sum + a * b, each brought to lowest terms within the limit.
pub fn add_product(sum: Fraction, a: Fraction, b: Fraction) -> Result<Fraction, ArithmeticError>
    ensures { AddProductMeant sum a b (arithmetic_says result) }
{
    if all_three(sum, a, b) {
        arithmetic::add_product(sum, a, b)
    } else {
        Err(ArithmeticError::NotAFraction)
    }
}

// ---- comparison and rounding

pub fn compare(a: Fraction, b: Fraction) -> Result<Ordering, NotAFraction>
    ensures { ComparisonMeant a b (comparison_says result) }
{
    if both(a, b) {
        Ok(arithmetic::compare(a, b))
    } else {
        Err(NotAFraction)
    }
}

pub fn floor(a: Fraction) -> Result<i32, NotAFraction>
    ensures { FloorMeant a (rounding_says result) }
{
    if is_fraction(a) {
        arithmetic::floor(a)
    } else {
        Err(NotAFraction)
    }
}

pub fn ceiling(a: Fraction) -> Result<i32, NotAFraction>
    ensures { CeilingMeant a (rounding_says result) }
{
    if is_fraction(a) {
        arithmetic::ceiling(a)
    } else {
        Err(NotAFraction)
    }
}
