// Powers of ten, worked out one by one: nothing keeps a list of them.
#![tactic(auto)]

ghost use Rattle.std.specs.Prelude.{◌≡◌};
ghost use Rattle.powers.specs.Powers.{power_of_ten};

// The greatest power of ten.
const MOST: usize = 18;

// Exactly ten to the power k for 0 to 18, and 0 for any k above.
#[tactic(auto, using(crate::proofs::PowersLaws::ten_fits), unfolding(crate::specs::Powers::power_of_ten))]
pub fn power_of_ten(k: usize) -> u64
    ensures { result ≡ power_of_ten k }
{
    if k <= MOST { 10u64.pow(k as u32) } else { 0 }
}
