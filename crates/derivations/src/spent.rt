// Spent rows.
ghost use Rattle.std.specs.Prelude.{◌≡◌, not, ◌<◌};
ghost use Rattle.grammar.specs.Tree.{Tree};
ghost use Rattle.rules.specs.Tests.{All, all_of};
ghost use Rattle.rules.specs.Rows.{entry_at};
ghost use Rattle.rules.specs.Derivations.{is_spent};
ghost use Rattle.encoding.specs.Places.{named_by};
ghost use Rattle.encoding.specs.Encodes.{Holds};

use encoding::Certificate;

// Whether row r is spent for the row `own`.
fn is_spent(certificate: Certificate, own: usize, r: usize) -> bool
    ensures { (tree : Tree) → Holds tree certificate.entry → r < certificate.entry.header.rows → result ≡ is_spent own (entry_at tree r) }
{
    r >= certificate.header.given && certificate.last(r).is_some_and(|last| last < own)
}

// Whether none of the rows that row `own` names is spent for it.
pub(crate) fn none_spent(certificate: Certificate, own: usize) -> bool
    ensures { (tree : Tree) → Holds tree certificate.entry → All (λ i. i < certificate.entry.header.rows) (named_by certificate.entry.index.now certificate.entry.rows.now own) → result ≡ all_of (λ i. not (is_spent own (entry_at tree i))) (named_by certificate.entry.index.now certificate.entry.rows.now own) }
{
    for r in certificate.named(own) {
        if is_spent(certificate, own, *r as usize) {
            return false;
        }
    }
    true
}
