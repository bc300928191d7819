// The claim of a certificate in tables: the end that solutions are asked to reach, and whether the last derived row proves the
// claim, with no assumptions. No public function asks anything of its caller: what it says of a certificate holds of tables that
// encode one.
#![tactic(auto)]

ghost use Rattle.std.specs.Prelude.{◌≡◌, List, ℕ, ◌+◌, ◌≤◌, MatchOption};
ghost use Rattle.grammar.specs.Tree.{Tree};
ghost use Rattle.rules.specs.Result.{require};
ghost use Rattle.rules.specs.Solutions.{end_to_reach};
ghost use Rattle.rules.specs.Claims.{last_row, is_proved, last_place};
ghost use Rattle.rules.specs.Sentence.Formed.{EndFormed};
ghost use Rattle.encoding.specs.Encodes.{Encodes, Holds};
ghost use Rattle.encoding.specs.Claims.{end_says};
ghost use Rattle.verdicts.specs.Verdicts.{verdict_says};

use arithmetic::Fraction;
use encoding::Certificate;
use grammar::{Refusal, Stop};
use tables::Header;
use verdicts::Verdict;

mod assumptions;
mod proving;

// The end that solutions are asked to reach, if it is finite: ub for min, lb for max, none of `infeas`.
pub fn end_to_reach(certificate: Certificate) -> Option<Fraction>
    ensures says { (tree : Tree) (rows : List ℕ) → Encodes tree certificate.entry.header certificate.entry.index.now certificate.entry.values.now rows → end_says result ≡ end_to_reach tree.objective.direction tree.relation.claim }
    ensures formed { (tree : Tree) (rows : List ℕ) → Encodes tree certificate.entry.header certificate.entry.index.now certificate.entry.values.now rows → EndFormed (end_says result) }
{
    certificate.end(!certificate.header.maximize)
}

// The last derived row, if there is one.
fn last_derived(header: Header) -> Option<usize>
    ensures { MatchOption result (header.rows ≤ header.given) (λ last. (header.given ≤ last) × (last + 1 ≡ header.rows)) }
{
    if header.given < header.rows {
        Some(header.rows - 1)
    } else {
        None
    }
}

// "last row's name, or word `DER` if there are none".
fn last_place(certificate: Certificate) -> usize
    ensures { (tree : Tree) → Holds tree certificate.entry → result ≡ last_place certificate.entry.header.derivation (last_row tree) }
{
    match last_derived(certificate.header) {
        Some(last) => tables::entry_at(certificate.rows, last).place,
        None => certificate.header.derivation,
    }
}

// "Claim, else 17".
pub fn check_claim(certificate: Certificate) -> Verdict
    ensures { (tree : Tree) → Holds tree certificate.entry → verdict_says result ≡ require (is_proved tree) 17 (last_place certificate.entry.header.derivation (last_row tree)) }
{
    if proving::is_proved(certificate) {
        return Ok(());
    }
    Err(Stop {
        reason: Refusal::ClaimNotProved,
        place: last_place(certificate),
    })
}
