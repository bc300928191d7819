// The sections before the proof: version, variables, integer variables, objective, constraints.
ghost use Rattle.std.specs.Prelude.{◌≡◌, List, ℤ, length, ℕ, suc, ◌≤◌};
ghost use Rattle.tables.specs.Limits.{most_variables, most_rows};
ghost use Rattle.grammar.specs.Format.{symbol, items, name};
ghost use Rattle.grammar.specs.Certificate.{row_names, new_index_below, version, variables, integers, objective_section, constraints};
ghost use Rattle.grammar.specs.Tree.{Variables, Integers, Constraints};
ghost use Rattle.symbol_reader.specs.Steps.{any, the};
ghost use Rattle.symbol_reader.specs.Follows.{Always, Follows, below};
ghost use Rattle.symbol_reader.specs.Marks.{Fingerprinted, print_words};
ghost use Rattle.section_reader.specs.Sections.{step_of, Says, SaysObjective};

use grammar::Stop;
use row_reader::{lists, rows};
use symbol_reader::{Cursor, Next, Step, names, numbers, words};
use tables::{Pairs, limits};

// The words that mark variables, each below 256.
const VARIABLE_WORDS: usize = 4;

// `VER` `1.0` are due.
pub fn read_version(text: &[u8], cursor: Cursor) -> Step
    ensures { (ix : List ℕ) (vs : List ℤ) (rs : List ℕ) → Follows Always version any text.now cursor ix vs rs ix vs rs result }
{
    let word = words::read_word(text, cursor, b"VER")?;
    words::read_word(text, word.cursor, b"1.0")
}

// So many names are due.
fn read_names(text: &[u8], cursor: Cursor, count: usize) -> Step
    ensures { (ix : List ℕ) (vs : List ℤ) (rs : List ℕ) → Follows Always (items count (λ before. symbol name)) (the (λ l. count)) text.now cursor ix vs rs ix vs rs result }
{
    let mut at = cursor;
    for _ in 0..count {
        let next = names::read_name(text, at)?;
        at = next.cursor;
    }
    Ok(Next {
        number: count,
        cursor: at,
    })
}

// `VAR`, a count and that many names are due; the count is handed back.
pub fn read_variables(text: &[u8], cursor: Cursor, index: &mut [u16]) -> Step
    ensures { (vs : List ℤ) (rs : List ℕ) → Follows Always variables (λ (v : Variables). below (suc most_variables) v.count) text.now cursor index.old vs rs index.new vs rs result }
{
    let word = words::read_word(text, cursor, b"VAR")?;
    let count = numbers::read_count(text, word.cursor, limits::VARIABLES, index)?;
    read_names(text, count.cursor, count.number)
}

// So many indices below the bound are due, all distinct.
fn read_indices(text: &[u8], cursor: Cursor, count: usize, bound: usize, index: &mut [u16]) -> Step
    ensures { (vs : List ℤ) (rs : List ℕ) → bound ≤ most_variables → Follows Always (items count (new_index_below bound)) (the (λ l. count)) text.now cursor index.old vs rs index.new vs rs result }
{
    let mut seen = [0u64; VARIABLE_WORDS];
    let mut at = cursor;
    for _ in 0..count {
        let next = numbers::read_new_index(text, at, bound, &mut seen, index)?;
        at = next.cursor;
    }
    Ok(Next {
        number: count,
        cursor: at,
    })
}

// `INT`, a count and that many indices of variables are due, of which there are n; the count is handed back.
pub fn read_integers(text: &[u8], cursor: Cursor, n: usize, index: &mut [u16]) -> Step
    ensures { (vs : List ℤ) (rs : List ℕ) → n ≤ most_variables → Follows Always (integers n) (λ (i : Integers). below (suc n) i.count) text.now cursor index.old vs rs index.new vs rs result }
{
    let word = words::read_word(text, cursor, b"INT")?;
    let count = numbers::read_count(text, word.cursor, n, index)?;
    read_indices(text, count.cursor, count.number, n, index)
}

// An objective's section that was read: whether it is maximized, where its terms stand, and where the reading goes on.
#[derive(Clone, Copy, Debug, PartialEq, Eq)]
pub struct Objective {
    pub maximize: bool,
    pub terms: Pairs,
    pub cursor: Cursor,
}

// `OBJ`, `min` or `max`, and a term list over n variables are due.
pub fn read_objective(
    text: &[u8],
    cursor: Cursor,
    n: usize,
    index: &mut [u16],
    values: &mut [i32],
) -> Result<Objective, Stop>
    ensures { (rs : List ℕ) → n ≤ most_variables → Follows Always (objective_section n) (λ o k. Says (SaysObjective cursor o) result) text.now cursor index.old values.old rs index.new values.new rs (step_of (λ r. r.cursor) result) }
{
    let word = words::read_word(text, cursor, b"OBJ")?;
    let direction = words::read_direction(text, word.cursor, index)?;
    let count = numbers::read_count(text, direction.cursor, n, index)?;
    let end = lists::read_pairs(text, count.cursor, count.number, n, index, values)?;
    Ok(Objective {
        maximize: direction.number == tables::words::MAX,
        terms: Pairs {
            cell: count.cursor.cells,
            number: count.cursor.values,
            count: count.number,
        },
        cursor: end.cursor,
    })
}

// `CON` m b and m rows over n variables are due; m is handed back. The fingerprints of the rows' names are marked.
pub fn read_constraints(
    text: &[u8],
    cursor: Cursor,
    n: usize,
    index: &mut [u16],
    values: &mut [i32],
    rows: &mut [u16],
    prints: &mut [u64],
) -> Step
    ensures { n ≤ most_variables → length prints.old ≡ print_words → Follows Always (constraints n) (λ (c : Constraints) k. below (suc most_rows) c.count k × Fingerprinted (row_names c.rows) prints.new) text.now cursor index.old values.old rows.old index.new values.new rows.new result }
{
    let word = words::read_word(text, cursor, b"CON")?;
    let given = numbers::read_count(text, word.cursor, limits::ROWS, index)?;
    let m = given.number;
    let bounds = numbers::read_count(text, given.cursor, m, index)?;
    let end = rows::read_rows(text, bounds.cursor, n, m, index, values, rows, prints)?;
    Ok(Next { number: m, ..end })
}
