// Checking a certificate that was read: the first refusal in document 01's order, or none.
ghost use Rattle.std.specs.Prelude.{◌≡◌};
ghost use Rattle.grammar.specs.Tree.{Tree};
ghost use Rattle.rules.specs.Check.{check_of};
ghost use Rattle.encoding.specs.Encodes.{Holds};
ghost use Rattle.verdicts.specs.Verdicts.{verdict_says};

use encoding::Certificate;
use grammar::{Refusal, Stop};
use solutions::{feasibility, objectives};
use verdicts::Verdict;

// "For each solution in order .. After all solutions, their objectives .. else 10 .. Each derived row .. Claim, else 17".
pub(crate) fn check(certificate: Certificate) -> Verdict
    ensures { (tree : Tree) → Holds tree certificate.entry → verdict_says result ≡ check_of tree }
{
    feasibility::check_solutions(certificate)?;
    let to_reach = claims::end_to_reach(certificate);
    let best = objectives::objectives_of(certificate, to_reach)?;
    if !best.reached {
        return Err(Stop {
            reason: Refusal::ClaimNotReached,
            place: certificate.header.relation,
        });
    }
    derivations::check_derivations(certificate, best.value)?;
    claims::check_claim(certificate)
}
