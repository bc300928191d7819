// The whole of a certificate: its sections in order, and then the end of the text.
// Kept: a reader takes only the tables that it writes: with a struct of all of them each contract would say that the others stay.
ghost use Rattle.std.specs.Prelude.{◌≡◌, ◌*◌, ◌≤◌};
ghost use Rattle.std.proofs.Math.Seq.{slice};
ghost use Rattle.tables.specs.Limits.{most_variables, most_rows};
ghost use Rattle.grammar.specs.Certificate.{row_names, certificate};
ghost use Rattle.grammar.specs.Header.{header_of};
ghost use Rattle.grammar.specs.Tree.{Constraints};
ghost use Rattle.symbol_reader.specs.Steps.{state, Room, Reads};
ghost use Rattle.symbol_reader.specs.Follows.{Always, Follows};
ghost use Rattle.symbol_reader.specs.Leaves.{names_in};
ghost use Rattle.symbol_reader.specs.Marks.{Fingerprinted};
ghost use Rattle.section_reader.specs.Sections.{step_of, Says};
ghost use Rattle.reader.specs.Documents.{start_of, proof_part, SaysProof, end_of, ReadsToEnd};

use grammar::{Refusal, Stop};
use section_reader::{problem, proof};
use symbol_reader::{Cursor, names};
use tables::Header;

// RTP, SOL and DER that were read: the places of the words `RTP` and `DER`, how many solutions and how many rows in all there are, and
// where the reading goes on.
#[derive(Clone, Copy, Debug, PartialEq, Eq)]
struct Proof {
    relation: usize,
    solutions: usize,
    derivation: usize,
    rows: usize,
    cursor: Cursor,
}

// RTP, SOL and DER are due, over n variables and after m given rows, whose names are in the row table and have their fingerprints marked.
fn read_proof(
    text: &[u8],
    cursor: Cursor,
    n: usize,
    m: usize,
    index: &mut [u16],
    values: &mut [i32],
    rows: &mut [u16],
    prints: &mut [u64],
) -> Result<Proof, Stop>
    ensures { (k : Constraints) → n ≤ most_variables → m ≤ most_rows → k.count ≡ m → names_in text.now (slice 0 (4 * m) rows.old) ≡ row_names k.rows → Fingerprinted (row_names k.rows) prints.old → Follows Always (proof_part n k) (λ a i. Says (SaysProof k a) result) text.now cursor index.old values.old rows.old index.new values.new rows.new (step_of (λ p. p.cursor) result) }
{
    let relation = proof::read_relation(text, cursor, index, values)?;
    let solutions = proof::read_solutions(text, relation.cursor, n, index, values, rows)?;
    let at = solutions.cursor;
    let derivations = proof::read_derivations(text, at, n, m, index, values, rows, prints)?;
    Ok(Proof {
        relation: relation.number,
        solutions: solutions.number,
        derivation: derivations.place,
        rows: m.saturating_add(derivations.count),
        cursor: derivations.cursor,
    })
}

// Before the first section nothing is written yet, and the reading goes on after the comments.
fn start(text: &[u8]) -> Cursor
    ensures { result ≡ start_of text.now }
{
    Cursor {
        at: text::comments_end(text),
        cells: 0,
        values: 0,
    }
}

// A certificate that was read: its header, and where the reading goes on.
#[derive(Clone, Copy, Debug, PartialEq, Eq)]
struct Document {
    header: Header,
    cursor: Cursor,
}

// The sections of a certificate are due after the comments.
fn read_sections(
    text: &[u8],
    index: &mut [u16],
    values: &mut [i32],
    rows: &mut [u16],
) -> Result<Document, Stop>
    ensures { Follows Always certificate (λ t i. Says (λ d. d.header ≡ header_of t) result) text.now (start_of text.now) index.old values.old rows.old index.new values.new rows.new (step_of (λ d. d.cursor) result) }
{
    let mut prints = [0u64; names::PRINT_WORDS];
    let version = problem::read_version(text, start(text))?;
    let variables = problem::read_variables(text, version.cursor, index)?;
    let n = variables.number;
    let integers = problem::read_integers(text, variables.cursor, n, index)?;
    let objective = problem::read_objective(text, integers.cursor, n, index, values)?;
    let at = objective.cursor;
    let given = problem::read_constraints(text, at, n, index, values, rows, &mut prints)?;
    let m = given.number;
    let proof = read_proof(text, given.cursor, n, m, index, values, rows, &mut prints)?;
    let header = Header {
        variables: n,
        integers: integers.number,
        maximize: objective.maximize,
        objective: objective.terms,
        given: m,
        rows: proof.rows,
        solutions: proof.solutions,
        claim: given.cursor.cells,
        ends: given.cursor.values,
        relation: proof.relation,
        derivation: proof.derivation,
    };
    Ok(Document {
        header,
        cursor: proof.cursor,
    })
}

// No token is due after a certificate.
fn read_end(text: &[u8], cursor: Cursor) -> Result<(), Stop>
    ensures { result ≡ end_of text.now cursor }
{
    match text::next_token(text, cursor.at) {
        Some(token) => Err(Stop {
            reason: Refusal::TokenLeft,
            place: token.from,
        }),
        None => Ok(()),
    }
}

// A certificate is due after the comments, and then the end of the text.
pub(crate) fn read_document(
    text: &[u8],
    index: &mut [u16],
    values: &mut [i32],
    rows: &mut [u16],
) -> Result<Header, Stop>
    ensures { Room text.now (state (start_of text.now) index.old values.old rows.old) → ReadsToEnd text.now (state (start_of text.now) index.old values.old rows.old) index.new values.new rows.new result }
{
    let document = read_sections(text, index, values, rows)?;
    read_end(text, document.cursor)?;
    Ok(document.header)
}
