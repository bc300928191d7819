// Whether the last derived row proves the claim.
ghost use Rattle.std.specs.Prelude.{◌≡◌};
ghost use Rattle.arithmetic.specs.Fraction.{IsFraction};
ghost use Rattle.grammar.specs.Tree.{Direction, Row as TreeRow, Tree};
ghost use Rattle.grammar.specs.Header.{is_maximize};
ghost use Rattle.rules.specs.Rows.{variables, constraint_of, objective_with};
ghost use Rattle.rules.specs.Domination.{is_absurd, dominates};
ghost use Rattle.rules.specs.Claims.{last_row, last_passes, asked as asked_by, is_proved};
ghost use Rattle.rules.specs.Sentence.Formed.{RowFormed};
ghost use Rattle.senses.specs.Senses.{sense_is};
ghost use Rattle.encoding.specs.Encodes.{Holds};
ghost use Rattle.encoding.specs.Rows.{RowIs};
ghost use Rattle.claims.specs.Asked.{against, asked_says, AskedFormed, meets as meets_of};

use crate::{assumptions, last_derived};
use encoding::Certificate;
use encoding::rows::ListedRow;
use linear::rows::Row;
use senses::{Bound, Sense};

// What the claim asks of the last row: nothing, to be absurd, or to dominate OBJ with this bound.
#[derive(Clone, Copy)]
pub(crate) enum Asked {
    Nothing,
    Absurdity,
    Domination(Bound),
}

// The sense of the bound that a range asks to be proved: OBJ ≥ lb for min, OBJ ≤ ub for max.
fn sense_asked(maximize: bool) -> Sense
    ensures { (d : Direction) → maximize ≡ is_maximize d → sense_is result ≡ against d }
{
    senses::sense_towards(!maximize)
}

// What the claim asks of the last row.
fn asked_of(certificate: Certificate) -> Asked
    ensures says { (tree : Tree) → Holds tree certificate.entry → asked_says tree result ≡ asked_by tree }
    ensures formed { (tree : Tree) → Holds tree certificate.entry → AskedFormed result }
{
    if certificate.is_infeas() {
        return Asked::Absurdity;
    }
    let maximize = certificate.header.maximize;
    match certificate.end(maximize) {
        None => Asked::Nothing,
        Some(right) => Asked::Domination(Bound {
            sense: sense_asked(maximize),
            right,
        }),
    }
}

// Whether a row dominates OBJ with this bound: the row's coefficients in an array, the objective's as listed terms.
fn dominates_objective(certificate: Certificate, row: ListedRow, bound: Bound) -> bool
    ensures { (tree : Tree) (x : TreeRow) → Holds tree certificate.entry → RowIs tree certificate.entry.index.now certificate.entry.values.now x row → RowFormed tree x → IsFraction bound.right → result ≡ dominates (variables tree) (constraint_of tree x) (objective_with tree (sense_is bound.sense) bound.right) }
{
    let header = certificate.header;
    let coefficients = certificate.terms(row.terms).coefficients();
    let objective = certificate.terms(header.objective);
    let compared = coefficients.compare(objective, header.variables);
    compared.dominates(row.bound, bound)
}

// Whether a row is absurd.
fn is_absurd(certificate: Certificate, row: ListedRow) -> bool
    ensures { (tree : Tree) (x : TreeRow) → RowIs tree certificate.entry.index.now certificate.entry.values.now x row → RowFormed tree x → result ≡ is_absurd (variables tree) (constraint_of tree x) }
{
    let listed = Row {
        terms: certificate.terms(row.terms),
        bound: row.bound,
    };
    listed.is_absurd()
}

// Whether a row meets what is asked of the last one.
fn meets(certificate: Certificate, row: ListedRow, asked: Asked) -> bool
    ensures { (tree : Tree) (x : TreeRow) → Holds tree certificate.entry → RowIs tree certificate.entry.index.now certificate.entry.values.now x row → RowFormed tree x → AskedFormed asked → result ≡ meets_of tree (asked_says tree asked) (constraint_of tree x) }
{
    match asked {
        Asked::Nothing => true,
        Asked::Absurdity => is_absurd(certificate, row),
        Asked::Domination(bound) => dominates_objective(certificate, row, bound),
    }
}

// Whether there is a last derived row that meets what is asked, with no assumptions.
fn last_answers(certificate: Certificate, asked: Asked) -> bool
    ensures { (tree : Tree) → Holds tree certificate.entry → AskedFormed asked → result ≡ last_passes tree (meets_of tree (asked_says tree asked)) (last_row tree) }
{
    let Some(last) = last_derived(certificate.header) else {
        return false;
    };
    meets(certificate, certificate.row(last), asked) && assumptions::is_free(certificate, last)
}

// Whether the claim is proved.
pub(crate) fn is_proved(certificate: Certificate) -> bool
    ensures { (tree : Tree) → Holds tree certificate.entry → result ≡ is_proved tree }
{
    match asked_of(certificate) {
        Asked::Nothing => true,
        asked => last_answers(certificate, asked),
    }
}
