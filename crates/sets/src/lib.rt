// Sets of numbers below 64 as masks, a bit for each number. Each contract says which numbers the result has; a mask is its
// bits (specs/SetsLaws.antt), so that it says the whole result.
#![tactic(auto)]

ghost use Rattle.std.specs.Prelude.{◌≡◌, true, ◌&&◌, ◌↔◌, ℕ, ◌-◌, max, eqb, ltb};
ghost use Rattle.sets.specs.Sets.{bit, one};

// The members of either.
pub fn union(a: u64, b: u64) -> u64
    ensures { (k : ℕ) → bit result k ≡ max (bit a k) (bit b k) }
{
    a | b
}

// The members of a that are not in b.
pub fn without(a: u64, b: u64) -> u64
    ensures { (k : ℕ) → bit result k ≡ bit a k - bit b k }
{
    a & !b
}

// The set of k alone; empty where k is 64 or more, which no mask has.
pub fn single(k: usize) -> u64
    ensures { (j : ℕ) → bit result j ≡ one (eqb j k && ltb k 64) }
{
    if k < 64 { 1u64 << k } else { 0 }
}

// The set has no member.
pub fn is_empty(a: u64) -> bool
    ensures { (result ≡ true) ↔ ((k : ℕ) → bit a k ≡ 0) }
{
    a == 0
}
