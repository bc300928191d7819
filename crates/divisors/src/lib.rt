// Greatest common divisors by the binary method: one, or three in one loop. No public function asks anything of its caller.
#![tactic(auto)]

ghost use Rattle.std.specs.Prelude.{◌≡◌, ◌<◌, ◌≤◌, true};
ghost use Rattle.integers.specs.Gcd.{gcd as gcd_of};
ghost use Rattle.integers.specs.Binary.{Odd, odd_of, Narrow, Paired, Stepped, Going};

// Half of what 64 bits can hold: 2^63.
const HALF: u64 = 1 << 63;

// Two numbers whose greatest common divisor is wanted.
#[derive(Clone, Copy, Debug, PartialEq, Eq)]
pub struct Pair {
    pub x: u64,
    pub y: u64,
}

// The greatest common divisors of three pairs.
#[derive(Clone, Copy, Debug, PartialEq, Eq)]
pub struct Divisors {
    pub a: u64,
    pub b: u64,
    pub c: u64,
}

// The greatest common divisor of odd numbers: the lesser is taken off the greater, and what is left is halved until it is odd.
// The wrapped difference has as many zeros at its end as the difference, so they are counted while the numbers are compared.
fn gcd_odd(a: u64, b: u64) -> u64
    requires { Odd a × Odd b }
    ensures { result ≡ gcd_of a b }
{
    let mut x = a;
    let mut y = b;
    while x != y {
        let t = x.wrapping_sub(y).trailing_zeros();
        if x < y {
            y = (y - x) >> t;
        } else {
            let z = x - y;
            x = y;
            y = z >> t;
        }
    }
    x
}

// Both without their factors of two.
fn odd(p: Pair) -> Pair
    requires { (0 < p.x) × (0 < p.y) }
    ensures { (result.x ≡ odd_of p.x) × (result.y ≡ odd_of p.y) }
{
    Pair {
        x: p.x >> p.x.trailing_zeros(),
        y: p.y >> p.y.trailing_zeros(),
    }
}

// The greatest common divisor from that of the odd numbers: of the powers of two that divide x and y, the lesser divides both.
fn with_twos(p: Pair, g: u64) -> u64
    requires { (0 < p.x) × (0 < p.y) × (g ≡ gcd_of (odd_of p.x) (odd_of p.y)) }
    ensures { result ≡ gcd_of p.x p.y }
{
    g << p.x.trailing_zeros().min(p.y.trailing_zeros())
}

// The greatest common divisor of any two numbers.
pub fn gcd(a: u64, b: u64) -> u64
    ensures { result ≡ gcd_of a b }
{
    if a == 0 {
        return b;
    }
    if b == 0 {
        return a;
    }
    let p = Pair { x: a, y: b };
    let o = odd(p);
    with_twos(p, gcd_odd(o.x, o.y))
}

// One step of the loop over three pairs. The sum with 2^63 has as many zeros at its end as the difference of x and y, where
// there is one.
fn step(p: Pair) -> Pair
    requires { Paired 9223372036854775808 p.x p.y }
    ensures { Stepped 9223372036854775808 p.x p.y result.x result.y }
{
    let Pair { x, y } = p;
    let t = (x + HALF - y).trailing_zeros();
    if x < y {
        Pair {
            x: (y - x) >> t,
            y: x,
        }
    } else {
        Pair { x: (x - y) >> t, y }
    }
}

// The greatest common divisor of a, where the steps have led to p.
fn reached(a: Pair, p: Pair) -> u64
    requires { Narrow a.x a.y × Going a.x a.y p.x p.y × (p.y ≤ 1) }
    ensures { result ≡ gcd_of a.x a.y }
{
    if p.y == 1 {
        with_twos(a, 1)
    } else {
        with_twos(a, p.x)
    }
}

// Three greatest common divisors in one loop. Their steps do not wait for each other, and the loop ends only once.
fn gcds_narrow(a: Pair, b: Pair, c: Pair) -> Divisors
    requires { Narrow a.x a.y × Narrow b.x b.y × Narrow c.x c.y }
    ensures { (result.a ≡ gcd_of a.x a.y) × (result.b ≡ gcd_of b.x b.y) × (result.c ≡ gcd_of c.x c.y) }
{
    let mut p = odd(a);
    let mut q = odd(b);
    let mut r = odd(c);
    while (p.y | q.y | r.y) > 1 {
        p = step(p);
        q = step(q);
        r = step(r);
    }
    Divisors {
        a: reached(a, p),
        b: reached(b, q),
        c: reached(c, r),
    }
}

// Whether neither number is 0, and both are below 2^63.
fn is_narrow(p: Pair) -> bool
    ensures { result ≡ true → Narrow p.x p.y }
{
    p.x != 0 && p.y != 0 && p.x < HALF && p.y < HALF
}

// The greatest common divisors of any three pairs: in one loop where all numbers are narrow, else one after the other.
pub fn gcds(a: Pair, b: Pair, c: Pair) -> Divisors
    ensures { (result.a ≡ gcd_of a.x a.y) × (result.b ≡ gcd_of b.x b.y) × (result.c ≡ gcd_of c.x c.y) }
{
    if is_narrow(a) && is_narrow(b) && is_narrow(c) {
        return gcds_narrow(a, b, c);
    }
    Divisors {
        a: gcd(a.x, a.y),
        b: gcd(b.x, b.y),
        c: gcd(c.x, c.y),
    }
}
