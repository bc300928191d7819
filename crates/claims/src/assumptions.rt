// Assumption sets: one bit for each `asm` row, in order.
ghost use Rattle.std.specs.Prelude.{◌≡◌, ℕ, ◌<◌};
ghost use Rattle.grammar.specs.Tree.{Derivation, Tree};
ghost use Rattle.rules.specs.Rows.{entry_at};
ghost use Rattle.rules.specs.Assumptions.{assumed as is_assumed, assumptions_of, is_empty};
ghost use Rattle.sets.specs.Sets.{bit};
ghost use Rattle.encoding.specs.Encodes.{EncodesDerivation, Holds};
ghost use Rattle.claims.specs.Masks.{mask_at, Represents, union_bit, without_bit, reason_bit};

use encoding::Certificate;
use encoding::reasons::Word;
use tables::limits;

// The set of row r; the array has none of a row beyond it.
#[tactic(auto, unfolding(crate::specs::Masks::mask_at))]
fn set_at(all: &[u64; 1024], r: usize) -> u64
    ensures { result ≡ mask_at all.now r }
{
    all.get(r).copied().unwrap_or(0)
}

// Whether row r is an `asm` row.
fn is_assumption(certificate: Certificate, r: usize) -> bool
    ensures { (tree : Tree) → Holds tree certificate.entry → r < certificate.entry.header.rows → result ≡ is_assumed (entry_at tree r) }
{
    certificate.header.given <= r && certificate.word(r) == Word::Asm
}

// The union of the sets of these rows.
fn union_of(named: &[u16], all: &[u64; 1024]) -> u64
    ensures { (j : ℕ) → bit result j ≡ union_bit all.now named.now j }
{
    let mut union = 0;
    for r in named {
        union = sets::union(union, set_at(all, *r as usize));
    }
    union
}

// The set of row i without row l. A row that is no `asm` row is in no set, and nothing is removed.
fn without_row(certificate: Certificate, all: &[u64; 1024], i: usize, l: usize) -> u64
    ensures { (tree : Tree) → Holds tree certificate.entry → l < certificate.entry.header.rows → (j : ℕ) → bit result j ≡ without_bit tree all.now i l j }
{
    let set = set_at(all, i);
    if is_assumption(certificate, l) {
        sets::without(set, set_at(all, l))
    } else {
        set
    }
}

// The set of the derived row r, before which so many are assumptions.
fn set_of(certificate: Certificate, all: &[u64; 1024], r: usize, assumed: usize) -> u64
    ensures { (tree : Tree) (d : Derivation) → Holds tree certificate.entry → EncodesDerivation certificate.entry.index.now certificate.entry.values.now certificate.entry.rows.now r d → r < certificate.entry.header.rows → (j : ℕ) → bit result j ≡ reason_bit tree all.now assumed d.reason j }
{
    let named = certificate.named(r);
    match certificate.word(r) {
        Word::Asm => sets::single(assumed),
        Word::Uns => match named {
            &[i1, l1, i2, l2] => sets::union(
                without_row(certificate, all, i1 as usize, l1 as usize),
                without_row(certificate, all, i2 as usize, l2 as usize),
            ),
            _ => 0,
        },
        Word::Lin | Word::Rnd | Word::Sol => union_of(named, all),
    }
}

// "1,024 assumption sets, all empty at the start": the set of each row, derivation after derivation. It is empty where there is no
// row.
fn sets_of(certificate: Certificate) -> [u64; 1024]
    ensures { (tree : Tree) → Holds tree certificate.entry → (r : ℕ) → Represents tree (mask_at result r) r }
{
    let mut all = [0u64; 1024];
    let mut assumed = 0;
    for r in certificate.header.given..certificate.header.rows.min(limits::ROWS) {
        all[r] = set_of(certificate, &all, r, assumed);
        if is_assumption(certificate, r) {
            assumed += 1;
        }
    }
    all
}

// Whether row r has no assumptions.
pub(crate) fn is_free(certificate: Certificate, r: usize) -> bool
    ensures { (tree : Tree) → Holds tree certificate.entry → result ≡ is_empty (assumptions_of tree r) }
{
    let all = sets_of(certificate);
    sets::is_empty(set_at(&all, r))
}
