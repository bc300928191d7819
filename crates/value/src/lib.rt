// Read one value: a token's bytes to a fraction, or the refusal of that token. No public function asks anything of its
// caller: any bytes are taken, of any length.
#![tactic(auto)]

ghost use Rattle.std.specs.Prelude.{◌≡◌, Bool, false, ◌∷◌, ◌+◌, ◌*◌, ◌^◌, ◌≤◌, ◌<◌, ℤ, length, take_while, get_or, drop};
ghost use Rattle.integers.specs.Signs.{with_sign};
ghost use Rattle.text.specs.Bytes.{is_digit, leading};
ghost use Rattle.arithmetic.specs.Quotient.{lowest};
ghost use Rattle.arithmetic.specs.Parts.{over};
ghost use Rattle.numerals.specs.Spelling.{is_zero, most_digits};
ghost use Rattle.numerals.specs.Reading.{digits_of, tail_of, unsigned_form, narrowed, outcome_of};
ghost use Rattle.numerals.specs.ValueRead.{ValueRead};
ghost use Rattle.value.specs.Promise.{value_says};
ghost use Rattle.exponents.specs.Exponents.{room, power_says, power_within};
ghost use Rattle.value.specs.Runs.{Bounded, Appended, Longer, RunRead, SignificantRead, Continued, WholeRead, Ended, PositiveRatio, ratio_says, whole_outcome, scaled_outcome, WithTail, WithSignificant, Extended, Scaled, AfterPoint};

use arithmetic::Fraction;
use exponents::Power;

// The most digits that may count.
const MOST_DIGITS: usize = 18;

// Why a token is refused: 01's refusals 4 and 7.
#[derive(Clone, Copy, Debug, PartialEq, Eq)]
pub enum ValueError {
    NotAValue,
    TooWide,
}

// Digits, as they are read one by one: the number that they spell, how many of them count, and the zeros after these, which
// count once another digit follows. Where more than 18 count, the number is 0.
#[derive(Clone, Copy, Default)]
struct Digits {
    number: u64,
    count: usize,
    zeros: usize,
}

impl Digits {
    // The digits with so many more that count, which spell `last`.
    fn appended(self, places: usize, last: u64) -> Digits
        requires { (self.count + places ≤ room) × (self.number < 10 ^ self.count) × (last < 10 ^ places) }
        ensures { Appended self places last result }
    {
        let count = self.count + places;
        if count > MOST_DIGITS {
            return Digits {
                number: 0,
                count,
                zeros: 0,
            };
        }
        let number = self.number * powers::power_of_ten(places) + last;
        Digits {
            number,
            count,
            zeros: 0,
        }
    }

    // The digits with one more. A zero is held back; where none is, a digit needs no power of ten.
    fn with(self, digit: u64) -> Digits
        requires { (self.count + self.zeros < room) × (self.number < 10 ^ self.count) × (digit ≤ 9) }
        ensures { Longer self digit result }
    {
        if digit == 0 {
            return Digits {
                zeros: self.zeros + 1,
                ..self
            };
        }
        if self.zeros == 0 && self.count < MOST_DIGITS {
            return Digits {
                number: self.number * 10 + digit,
                count: self.count + 1,
                zeros: 0,
            };
        }
        self.appended(self.zeros + 1, digit)
    }

    // The digits with the zeros held back, which count as well.
    fn counted(self) -> Digits
        requires { (self.count + self.zeros ≤ room) × (self.number < 10 ^ self.count) }
        ensures { Appended self self.zeros 0 result }
    {
        self.appended(self.zeros, 0)
    }
}

// A run of digits that were read, and the place after them.
#[derive(Clone, Copy)]
struct Run {
    digits: Digits,
    next: usize,
}

// The run of digits from a place on, read after those of `start`.
fn read_run(token: &[u8], from: usize, start: Digits) -> Run
    requires { Bounded from start }
    ensures { RunRead (drop from token.now) from start result }
{
    let mut digits = start;
    let mut next = from;
    // Kept: the place where the digits end is an answer; a `for` with a `break` would count it by hand beside its items.
    while next < token.len() && text::is_digit(token[next]) {
        digits = digits.with((token[next] - b'0') as u64);
        next += 1;
    }
    Run { digits, next }
}

// How many zeros lead the part.
fn zeros(part: &[u8]) -> usize
    ensures { result ≡ length (take_while is_zero part.now) }
{
    part.iter().take_while(|b| **b == b'0').count()
}

// The place after the zeros that stand at a place.
fn skip_zeros(token: &[u8], from: usize) -> usize
    ensures { result ≡ from + leading is_zero (drop from token.now) }
{
    from + zeros(text::part(token, from, token.len()))
}

// The run of digits from a place on, without its leading zeros.
fn read_significant(token: &[u8], from: usize) -> Run
    ensures { SignificantRead (drop from token.now) from result }
{
    read_run(token, skip_zeros(token, from), Digits::default())
}

// The run of digits from a place on, as a whole part: leading zeros do not count, those at its end do.
fn read_whole(token: &[u8], from: usize) -> Run
    ensures { WholeRead (drop from token.now) from result }
{
    let run = read_significant(token, from);
    Run {
        digits: run.digits.counted(),
        ..run
    }
}

// The digits before a point and the run of those after it, without their leading zeros.
fn read_on(token: &[u8], from: usize, whole: Digits) -> Digits
    requires { Bounded from whole × (from ≤ length token.now) }
    ensures { Continued (drop from token.now) whole result }
{
    if whole.count == 0 {
        return read_significant(token, from).digits;
    }
    read_run(token, from, whole).digits
}

// The digits of the run from a place on, if it has one and ends where the token does.
fn ended(token: &[u8], from: usize, run: Run) -> Option<Digits>
    requires { run.next ≡ from + leading is_digit (drop from token.now) }
    ensures { Ended (drop from token.now) run.digits result }
{
    if from < run.next && token.len() <= run.next {
        Some(run.digits)
    } else {
        None
    }
}

// A value as a quotient that is not brought to lowest terms, without its sign.
#[derive(Clone, Copy)]
struct Ratio {
    top: u64,
    bottom: u64,
}

// A whole number.
fn whole_ratio(whole: Digits) -> Result<Ratio, ValueError>
    ensures { PositiveRatio result × ((s : Bool) → ratio_says s result ≡ whole_outcome s whole) }
{
    if whole.count > MOST_DIGITS {
        return Err(ValueError::TooWide);
    }
    Ok(Ratio {
        top: whole.number,
        bottom: 1,
    })
}

// A quotient: the numerator `whole`, and the denominator from a place on. Its digits are not all zero.
fn quotient_ratio(whole: Digits, token: &[u8], from: usize) -> Result<Ratio, ValueError>
    ensures { PositiveRatio result × WithTail whole (tail_of (47 ∷ drop from token.now)) result }
{
    let Some(d) = ended(token, from, read_whole(token, from)) else {
        return Err(ValueError::NotAValue);
    };
    if d.count == 0 {
        return Err(ValueError::NotAValue);
    }
    if whole.count > MOST_DIGITS || d.count > MOST_DIGITS {
        return Err(ValueError::TooWide);
    }
    Ok(Ratio {
        top: whole.number,
        bottom: d.number,
    })
}

// At most 18 digits, of which the first is not 0, times a power of ten.
fn times_power(digits: Digits, x: Power) -> Result<Ratio, ValueError>
    requires { (digits.count ≤ most_digits) × (digits.number < 10 ^ digits.count) × ((z : ℤ) × (power_says (Some x) ≡ power_within z)) }
    ensures { PositiveRatio result × (10 ^ digits.count ≤ digits.number * 10 → (z : ℤ) → power_says (Some x) ≡ power_within z → (s : Bool) → ratio_says s result ≡ scaled_outcome s digits.number z) }
{
    match x {
        Power::Up(k) => whole_ratio(digits.appended(k, 0)),
        Power::Down(k) => Ok(Ratio {
            top: digits.number,
            bottom: powers::power_of_ten(k),
        }),
    }
}

// A value with an exponent: its digits without the point and the zeros on both sides, how many stand after the point, and the
// exponent from a place on, after its letter.
fn scaled_ratio(
    digits: Digits,
    places: usize,
    token: &[u8],
    from: usize,
) -> Result<Ratio, ValueError>
    requires { Bounded room digits × (places ≤ room) }
    ensures { PositiveRatio result × Scaled digits places (drop from token.now) result }
{
    let Some(exponent) = exponents::read_exponent(token, from) else {
        return Err(ValueError::NotAValue);
    };
    if digits.count == 0 {
        return whole_ratio(digits);
    }
    if digits.count > MOST_DIGITS {
        return Err(ValueError::TooWide);
    }
    let Some(x) = exponents::power_of(exponent, places, digits.zeros) else {
        return Err(ValueError::TooWide);
    };
    times_power(digits, x)
}

// A value that goes on at `end` after its digits, those after the point from `first` on: with an exponent, or it is no value.
fn extended_ratio(
    whole: Digits,
    token: &[u8],
    first: usize,
    end: usize,
) -> Result<Ratio, ValueError>
    requires { Bounded first whole × (end ≡ first + leading is_digit (drop first token.now)) × (end < length token.now) }
    ensures { PositiveRatio result × Extended whole (digits_of (drop first token.now)) (drop end token.now) result }
{
    if exponents::is_letter(token[end]) {
        scaled_ratio(read_on(token, first, whole), end - first, token, end + 1)
    } else {
        Err(ValueError::NotAValue)
    }
}

// The place after a point that may stand at a place.
fn after_point(token: &[u8], at: usize) -> usize
    requires { at < length token.now }
    ensures { AfterPoint (get_or token.now at 0) at result }
{
    if token[at] == b'.' { at + 1 } else { at }
}

// A decimal, or a whole number with an exponent: `whole` before a place, at which no digit and no slash stands.
fn decimal_ratio(whole: Digits, token: &[u8], at: usize) -> Result<Ratio, ValueError>
    requires { Bounded at whole × (at < length token.now) × (is_digit (get_or token.now at 0) ≡ false) × (get_or token.now at 0 ≡ 47 → ⊥) }
    ensures { PositiveRatio result × WithSignificant whole (tail_of (drop at token.now)) result }
{
    let first = after_point(token, at);
    let run = read_run(token, first, whole.counted());
    let end = run.next;
    if end == at + 1 {
        return Err(ValueError::NotAValue);
    }
    if end < token.len() {
        return extended_ratio(whole, token, first, end);
    }
    let d = run.digits;
    if d.count > MOST_DIGITS {
        return Err(ValueError::TooWide);
    }
    Ok(Ratio {
        top: d.number,
        bottom: powers::power_of_ten(end - first - d.zeros),
    })
}

// What stands after the optional minus.
fn read_ratio(token: &[u8], from: usize) -> Result<Ratio, ValueError>
    ensures { PositiveRatio result × ((s : Bool) → ratio_says s result ≡ outcome_of (unsigned_form s (drop from token.now))) }
{
    let Run { digits, next } = read_significant(token, from);
    if next == from {
        return Err(ValueError::NotAValue);
    }
    if token.len() <= next {
        return whole_ratio(digits.counted());
    }
    if token[next] == b'/' {
        return quotient_ratio(digits.counted(), token, next + 1);
    }
    decimal_ratio(digits, token, next)
}

// A quotient, brought to lowest terms.
fn reduce(negative: bool, ratio: Ratio) -> Result<Fraction, ValueError>
    requires { 0 < ratio.bottom }
    ensures { value_says result ≡ narrowed (lowest (over (with_sign negative ratio.top) ratio.bottom)) }
{
    let Ratio { top, bottom } = ratio;
    let exact = arithmetic::Ratio {
        negative,
        top,
        bottom,
    };
    exact.reduced().or(Err(ValueError::TooWide))
}

// The value that stands after the optional minus.
fn read_unsigned(negative: bool, token: &[u8], from: usize) -> Result<Fraction, ValueError>
    ensures { value_says result ≡ outcome_of (unsigned_form negative (drop from token.now)) }
{
    reduce(negative, read_ratio(token, from)?)
}

// Read one value: the fraction that a token spells, or the refusal of that token.
pub fn read_value(token: &[u8]) -> Result<Fraction, ValueError>
    ensures { ValueRead token.now (value_says result) }
{
    let Some(first) = token.first() else {
        return Err(ValueError::NotAValue);
    };
    if *first == b'-' {
        read_unsigned(true, token, 1)
    } else {
        read_unsigned(false, token, 0)
    }
}
