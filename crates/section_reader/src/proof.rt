// The sections of the proof: the relation to prove, solutions, derivations.
ghost use Rattle.std.specs.Prelude.{◌≡◌, List, length, ℕ, suc, ◌*◌, ◌≤◌, ◌<◌};
ghost use Rattle.std.proofs.Math.Seq.{slice};
ghost use Rattle.tables.specs.Limits.{most_variables, most_rows, most_solutions};
ghost use Rattle.grammar.specs.Format.{items};
ghost use Rattle.grammar.specs.Certificate.{ClaimWord, claim_cell, ends, claim, relation, solution, solution_section};
ghost use Rattle.grammar.specs.Tree.{Relation, Solution, Solutions};
ghost use Rattle.symbol_reader.specs.Steps.{any, the};
ghost use Rattle.symbol_reader.specs.Follows.{Always, ForValue, Follows, below};
ghost use Rattle.symbol_reader.specs.Leaves.{names_in};
ghost use Rattle.symbol_reader.specs.Marks.{Fingerprinted};
ghost use Rattle.section_reader.specs.Sections.{step_of, Says, ForEnds, derivations_after, SaysDerivations};

use grammar::Stop;
use row_reader::{derivations, lists};
use symbol_reader::{Cursor, Next, Step, names, numbers, values, words};
use tables::limits;

// The ends of a claim are due; the number is the cell of its word: none after `infeas`, two after `range`.
fn read_ends(text: &[u8], word: Next, index: &mut [u16], values: &mut [i32]) -> Step
    ensures { (w : ClaimWord) (rs : List ℕ) → claim_cell w ≡ word.number → Follows ForEnds (ends w) any text.now word.cursor index.old values.old rs index.new values.new rs result }
{
    if word.number == tables::words::INFEAS {
        return Ok(word);
    }
    let lower = values::read_end(text, word.cursor, b"-inf", index, values)?;
    values::read_end(text, lower.cursor, b"inf", index, values)
}

// `infeas`, or `range` and two ends are due, after a token that is no value.
fn read_claim(text: &[u8], cursor: Cursor, index: &mut [u16], values: &mut [i32]) -> Step
    ensures { (rs : List ℕ) → Follows ForValue claim any text.now cursor index.old values.old rs index.new values.new rs result }
{
    let word = words::read_claim_word(text, cursor, index)?;
    read_ends(text, word, index, values)
}

// `RTP` and a claim are due; the place of the word is handed back.
pub fn read_relation(text: &[u8], cursor: Cursor, index: &mut [u16], values: &mut [i32]) -> Step
    ensures { (rs : List ℕ) → Follows Always relation (the (λ (l : Relation). l.place)) text.now cursor index.old values.old rs index.new values.new rs result }
{
    let place = words::read_placed(text, cursor, b"RTP")?;
    let end = read_claim(text, place.cursor, index, values)?;
    Ok(Next {
        number: place.number,
        ..end
    })
}

// Solution j is due: a name and a term list over n variables.
fn read_solution(
    text: &[u8],
    cursor: Cursor,
    n: usize,
    j: usize,
    index: &mut [u16],
    values: &mut [i32],
    rows: &mut [u16],
) -> Step
    ensures { (before : List Solution) → n ≤ most_variables → length before ≡ j → j < most_solutions → Follows Always (solution n before) any text.now cursor index.old values.old rows.old index.new values.new rows.new result }
{
    let row = limits::ROWS.saturating_add(j);
    let name = names::read_free_name(text, cursor, row, rows)?;
    lists::read_pair_list(text, name.cursor, n, index, values)
}

// So many solutions are due.
fn read_solution_list(
    text: &[u8],
    cursor: Cursor,
    count: usize,
    n: usize,
    index: &mut [u16],
    values: &mut [i32],
    rows: &mut [u16],
) -> Step
    ensures { n ≤ most_variables → count ≤ most_solutions → Follows Always (items count (solution n)) (the (λ l. count)) text.now cursor index.old values.old rows.old index.new values.new rows.new result }
{
    let mut at = cursor;
    for j in 0..count {
        let next = read_solution(text, at, n, j, index, values, rows)?;
        at = next.cursor;
    }
    Ok(Next {
        number: count,
        cursor: at,
    })
}

// `SOL`, a count and that many solutions over n variables are due; the count is handed back.
pub fn read_solutions(
    text: &[u8],
    cursor: Cursor,
    n: usize,
    index: &mut [u16],
    values: &mut [i32],
    rows: &mut [u16],
) -> Step
    ensures { n ≤ most_variables → Follows Always (solution_section n) (λ (l : Solutions). below (suc most_solutions) l.count) text.now cursor index.old values.old rows.old index.new values.new rows.new result }
{
    let word = words::read_word(text, cursor, b"SOL")?;
    let count = numbers::read_count(text, word.cursor, limits::SOLUTIONS, index)?;
    read_solution_list(text, count.cursor, count.number, n, index, values, rows)
}

// A section of derivations that was read: the place of its word, how many there are, and where the reading goes on.
#[derive(Clone, Copy, Debug, PartialEq, Eq)]
pub struct Derivations {
    pub place: usize,
    pub count: usize,
    pub cursor: Cursor,
}

// `DER`, a count and that many derivations are due, over n variables and after m given rows, whose names are in the row table and have
// their fingerprints marked.
pub fn read_derivations(
    text: &[u8],
    cursor: Cursor,
    n: usize,
    m: usize,
    index: &mut [u16],
    values: &mut [i32],
    rows: &mut [u16],
    prints: &mut [u64],
) -> Result<Derivations, Stop>
    ensures { n ≤ most_variables → m ≤ most_rows → Fingerprinted (names_in text.now (slice 0 (4 * m) rows.old)) prints.old → Follows Always (derivations_after n m (names_in text.now (slice 0 (4 * m) rows.old))) (λ d k. Says (SaysDerivations m d) result) text.now cursor index.old values.old rows.old index.new values.new rows.new (step_of (λ r. r.cursor) result) }
{
    let word = words::read_placed(text, cursor, b"DER")?;
    let most = limits::ROWS.saturating_sub(m);
    let count = numbers::read_count(text, word.cursor, most, index)?;
    let end = derivations::read_derivations(
        text,
        count.cursor,
        count.number,
        n,
        m,
        index,
        values,
        rows,
        prints,
    )?;
    Ok(Derivations {
        place: word.number,
        count: count.number,
        cursor: end.cursor,
    })
}
