// The exponent of a value: `E` or `e`, an optional sign and digits; and the power of ten that it comes to.
#![tactic(auto)]

ghost use Rattle.std.specs.Prelude.{◌≡◌, ℕ, ◌+◌, ◌*◌, ◌≤◌, pos, neg_ℤ, ◌+ℤ◌, ◌-ℤ◌, drop};
ghost use Rattle.integers.specs.Signs.{with_sign};
ghost use Rattle.exponents.specs.Exponents.{is_letter, Saturated, NumberRead, ExponentRead, power_value, power_says, power_within};

// The greatest power of ten, up or down.
const MOST_POWER: usize = 18;

// Beyond this, a number with one digit more is greater than any slice is long.
const LARGE: usize = 1152921504606846976;

// `E` or `e`.
pub fn is_letter(b: u8) -> bool
    ensures { result ≡ is_letter b }
{
    matches!(b, b'E' | b'e')
}

// An exponent: whether it is negative, and its number, or one that is as good where that is greater than any slice is long.
#[derive(Clone, Copy, Debug, PartialEq, Eq)]
pub struct Exponent {
    pub minus: bool,
    pub number: usize,
}

// A number with one digit more. A large one is not worked out.
fn with_digit(number: usize, digit: usize) -> usize
    requires { digit ≤ 9 }
    ensures { (n : ℕ) → Saturated n number → Saturated (n * 10 + digit) result }
{
    if number < LARGE {
        number * 10 + digit
    } else {
        usize::MAX
    }
}

// The digits as an exponent's number, with the sign before them. None where there is none, or another byte.
fn read_digits(minus: bool, digits: &[u8]) -> Option<Exponent>
    ensures { NumberRead digits.now minus result }
{
    if digits.is_empty() {
        return None;
    }
    let mut number = 0;
    for b in digits {
        if !text::is_digit(*b) {
            return None;
        }
        number = with_digit(number, (*b - b'0') as usize);
    }
    Some(Exponent { minus, number })
}

// What stands after the letter: an optional sign and digits, to the token's end. None where something else does.
#[tactic(auto, using(crate::proofs::ExponentLaws::minus_read, crate::proofs::ExponentLaws::plus_read, crate::proofs::ExponentLaws::unsigned_read))]
pub fn read_exponent(token: &[u8], from: usize) -> Option<Exponent>
    ensures { ExponentRead (drop from token.now) result }
{
    match *token.get(from)? {
        b'-' => read_digits(true, &token[from + 1..]),
        b'+' => read_digits(false, &token[from + 1..]),
        _ => read_digits(false, &token[from..]),
    }
}

// A power of ten, up or down.
#[derive(Clone, Copy, Debug, PartialEq, Eq)]
pub enum Power {
    Up(usize),
    Down(usize),
}

impl Power {
    fn opposite(self) -> Power
        ensures { power_value result ≡ neg_ℤ (power_value self) }
    {
        match self {
            Power::Up(k) => Power::Down(k),
            Power::Down(k) => Power::Up(k),
        }
    }
}

// up - down. None where it is outside -18 to 18.
fn difference(up: usize, down: usize) -> Option<Power>
    ensures { power_says result ≡ power_within (pos up -ℤ pos down) }
{
    if up.abs_diff(down) > MOST_POWER {
        return None;
    }
    Some(if down <= up {
        Power::Up(up - down)
    } else {
        Power::Down(down - up)
    })
}

// An exponent's number, plus `more`, less `less`.
fn balance(number: usize, more: usize, less: usize) -> Option<Power>
    ensures { power_says result ≡ power_within (pos (number + more) -ℤ pos less) }
{
    if more < less {
        difference(number, less - more)
    } else {
        difference(number.checked_add(more - less)?, 0)
    }
}

// The power of ten: the exponent, less the digits after the point, plus the trailing zeros that were dropped. None where it is
// outside -18 to 18.
pub fn power_of(exponent: Exponent, places: usize, zeros: usize) -> Option<Power>
    ensures { power_says result ≡ power_within (with_sign exponent.minus exponent.number -ℤ pos places +ℤ pos zeros) }
{
    let Exponent { minus, number } = exponent;
    if minus {
        Some(balance(number, places, zeros)?.opposite())
    } else {
        balance(number, zeros, places)
    }
}
