// The arithmetic of values that are known to be fractions: product, sum, a sum and a product more, comparison, floor and
// ceiling, without a test of the operands. Each contract speaks of fractions alone; any other pair of numbers gets some answer.
// `fraction` is the face that tests. What every crate means by a fraction stands here, too.
#![tactic(auto)]

ghost use Rattle.std.specs.Prelude.{◌≡◌, ◌*◌, ◌≤◌, ◌<◌, ◌++◌, Some, codes, pos, nat_abs, ◌*ℤ◌, ◌+ℤ◌, ◌<ℤ◌};
ghost use Rattle.std.specs.Fmt.{signed_decimal};
ghost use Rattle.std.specs.Int.Signed.{mag};
ghost use Rattle.integers.specs.Signs.{with_sign};
ghost use Rattle.arithmetic.specs.Quotient.{◌+Q◌, ◌*Q◌, floor_z, ceiling_z};
ghost use Rattle.arithmetic.specs.Fraction.{limit, IsFraction, exact, ratio_of, within as within_of, reduced_of, product_of, sum_of, after, add_product_of, compare_of, floor_of, ceiling_of, number, arithmetic_says, rounding_says};
ghost use Rattle.arithmetic.specs.Outcome.{gives};
ghost use Rattle.arithmetic.specs.Parts.{is_shaped, over};
ghost use Rattle.arithmetic.specs.declared.ArithmeticError.TheVariants as error;

use std::cmp::Ordering;
use std::fmt;

// The largest magnitude of a numerator or a denominator.
const LIMIT: u64 = 2147483647;

// A numerator over a denominator. Any two numbers can stand here; `IsFraction` says which pairs are values.
#[derive(Clone, Copy, Debug, PartialEq, Eq)]
pub struct Fraction {
    pub num: i32,
    pub den: i32,
}

impl fmt::Display for Fraction {
    ghost output = { λ f. Some (signed_decimal f.num ++ (codes "/" ++ signed_decimal f.den)) };

    fn fmt<W: fmt::Write>(&self, f: &mut fmt::Formatter<W>) -> fmt::Result {
        write!(f, "{}/{}", self.num, self.den)
    }
}

// An operand is no fraction.
#[derive(Clone, Copy, Debug, PartialEq, Eq)]
pub struct NotAFraction;

// Why a product or a sum is refused.
#[derive(Clone, Copy, Debug, PartialEq, Eq)]
pub enum ArithmeticError {
    NotAFraction,
    TooWide,
}

impl From<NotAFraction> for ArithmeticError {
    ghost from_gives = { λ _ e. e ≡ error.NotAFraction };

    fn from(_e: NotAFraction) -> ArithmeticError {
        ArithmeticError::NotAFraction
    }
}

// 01's numbers of the refusals.
impl From<ArithmeticError> for u8 {
    ghost from_gives = { λ e n. n ≡ number e };

    fn from(e: ArithmeticError) -> u8 {
        match e {
            ArithmeticError::NotAFraction => 4,
            ArithmeticError::TooWide => 12,
        }
    }
}

// An exact result: a sign, true for negative, and a numerator over a denominator, in lowest terms or not.
#[derive(Clone, Copy, Debug, PartialEq, Eq)]
pub struct Ratio {
    pub negative: bool,
    pub top: u64,
    pub bottom: u64,
}

// ---- lowest terms within the limit

// A sign, true for negative, and a magnitude as one number.
fn signed(negative: bool, m: u64) -> i32
    requires { m ≤ limit }
    ensures { result ≡ with_sign negative m }
{
    let p = m as i32;
    if negative { -p } else { p }
}

// Whether a pair is a fraction if it is in lowest terms.
pub fn is_shaped(f: Fraction) -> bool
    ensures { result ≡ is_shaped f }
{
    f.den > 0 && u64::from(f.num.unsigned_abs()) <= LIMIT
}

impl Ratio {
    // A quotient that is in lowest terms already, if it is within the limit.
    pub fn within(self) -> Result<Fraction, ArithmeticError>
        ensures { arithmetic_says result ≡ within_of (ratio_of self) }
    {
        if self.top > LIMIT || self.bottom > LIMIT {
            return Err(ArithmeticError::TooWide);
        }
        Ok(Fraction {
            num: signed(self.negative, self.top),
            den: self.bottom as i32,
        })
    }

    // The quotient brought to lowest terms. No fraction has the denominator 0; a whole number is in lowest terms.
    pub fn reduced(self) -> Result<Fraction, ArithmeticError>
        ensures { arithmetic_says result ≡ reduced_of self.negative self.top self.bottom }
    {
        if self.bottom == 0 {
            return Err(ArithmeticError::NotAFraction);
        }
        if self.bottom == 1 {
            return self.within();
        }
        let g = divisors::gcd(self.top, self.bottom);
        Ratio {
            top: self.top / g,
            bottom: self.bottom / g,
            ..self
        }
        .within()
    }
}

// ---- product and sum

// The product of the denominators.
fn denominators(a: Fraction, b: Fraction) -> u64
    ensures { result ≡ nat_abs a.den * nat_abs b.den }
{
    u64::from(a.den.unsigned_abs()) * u64::from(b.den.unsigned_abs())
}

fn times(n: i32, m: i64) -> i64
    requires { nat_abs m ≤ 2147483648 }
    ensures { result ≡ n *ℤ m }
{
    i64::from(n) * m
}

// The numerator of a times the denominator of b.
fn cross(a: Fraction, b: Fraction) -> i64
    ensures { (result ≡ a.num *ℤ pos (nat_abs b.den)) × (mag result < 4611686018427387904) }
{
    times(a.num, i64::from(b.den.unsigned_abs()))
}

// The exact product.
pub fn multiplied(a: Fraction, b: Fraction) -> Ratio
    ensures { ratio_of result ≡ exact a *Q exact b }
{
    Ratio {
        negative: (a.num < 0) != (b.num < 0),
        top: u64::from(a.num.unsigned_abs()) * u64::from(b.num.unsigned_abs()),
        bottom: denominators(a, b),
    }
}

// The exact sum.
pub fn added(a: Fraction, b: Fraction) -> Ratio
    ensures { ratio_of result ≡ exact a +Q exact b }
{
    let t = cross(a, b) + cross(b, a);
    Ratio {
        negative: t < 0,
        top: t.unsigned_abs(),
        bottom: denominators(a, b),
    }
}

// Kept: here and below the hypothesis in each clause, since the functions take any pair of numbers, a fraction or not.
pub fn product(a: Fraction, b: Fraction) -> Result<Fraction, ArithmeticError>
    ensures { IsFraction a → IsFraction b → arithmetic_says result ≡ product_of a b }
{
    multiplied(a, b).reduced()
}

// A sum with a whole number is in lowest terms.
pub fn sum(a: Fraction, b: Fraction) -> Result<Fraction, ArithmeticError>
    ensures { IsFraction a → IsFraction b → arithmetic_says result ≡ sum_of a b }
{
    let q = added(a, b);
    if a.den == 1 || b.den == 1 {
        q.within()
    } else {
        q.reduced()
    }
}

// ---- a sum and a product more

// s + n * m, whole numbers.
#[inline(always)]
fn add_product_whole(s: i32, n: i32, m: i32) -> Result<Fraction, ArithmeticError>
    ensures { arithmetic_says result ≡ after (within_of (over (n *ℤ m) 1)) (λ p. within_of (over (s +ℤ p.num) 1)) }
{
    let w = times(n, i64::from(m));
    if w.unsigned_abs() > LIMIT {
        return Err(ArithmeticError::TooWide);
    }
    let t = i64::from(s) + w;
    Ratio {
        negative: t < 0,
        top: t.unsigned_abs(),
        bottom: 1,
    }
    .within()
}

// s + a * b, of any fractions. It is a call of its own, so that the ways before it are inlined in loops (docs/PERFORMANCE.md).
#[inline(never)]
fn add_product_any(s: Fraction, a: Fraction, b: Fraction) -> Result<Fraction, ArithmeticError>
    ensures { IsFraction s → IsFraction a → IsFraction b → arithmetic_says result ≡ add_product_of s a b }
{
    sum(s, product(a, b)?)
}

// A sum and a product more: a * b, then s + a * b, each brought to lowest terms within the limit.
#[inline(always)]
pub fn add_product(s: Fraction, a: Fraction, b: Fraction) -> Result<Fraction, ArithmeticError>
    ensures { IsFraction s → IsFraction a → IsFraction b → arithmetic_says result ≡ add_product_of s a b }
{
    if b.num == 0 {
        return Ok(s);
    }
    if s.den == 1 && a.den == 1 && b.den == 1 {
        return add_product_whole(s.num, a.num, b.num);
    }
    // Kept: taken apart and put together, so that what the other ways answer stays in registers (docs/PERFORMANCE.md).
    Ok(add_product_any(s, a, b)?)
}

// ---- comparison

pub fn compare(a: Fraction, b: Fraction) -> Ordering
    ensures { IsFraction a → IsFraction b → gives result ≡ compare_of a b }
{
    cross(a, b).cmp(&cross(b, a))
}

// ---- rounding

// n / d rounded down. The signed division rounds toward zero, so a negative remainder takes one more off.
fn floor_of(n: i32, d: i32) -> i32
    requires { pos 0 <ℤ d }
    ensures { result ≡ floor_z n (nat_abs d) }
{
    let q = n / d;
    if n % d < 0 { q - 1 } else { q }
}

// n / d rounded up: -n / d rounded down, negated.
fn ceiling_of(n: i32, d: i32) -> i32
    requires { (pos 0 <ℤ d) × (nat_abs n ≤ limit) }
    ensures { result ≡ ceiling_z n (nat_abs d) }
{
    -floor_of(-n, d)
}

pub fn floor(a: Fraction) -> Result<i32, NotAFraction>
    ensures { IsFraction a → rounding_says result ≡ floor_of a }
{
    if is_shaped(a) {
        Ok(floor_of(a.num, a.den))
    } else {
        Err(NotAFraction)
    }
}

pub fn ceiling(a: Fraction) -> Result<i32, NotAFraction>
    ensures { IsFraction a → rounding_says result ≡ ceiling_of a }
{
    if is_shaped(a) {
        Ok(ceiling_of(a.num, a.den))
    } else {
        Err(NotAFraction)
    }
}
