// Rows: a name, a sense, a value, then a term list or `OBJ`.
ghost use Rattle.std.specs.Prelude.{◌≡◌, List, [], ◌∷◌, ◌++◌, length, ℕ, ◌*◌, ◌≤◌, ◌<◌};
ghost use Rattle.std.proofs.Math.Seq.{slice};
ghost use Rattle.grammar.specs.Format.{items};
ghost use Rattle.grammar.specs.Certificate.{side, row, row_names};
ghost use Rattle.symbol_reader.specs.Steps.{any};
ghost use Rattle.symbol_reader.specs.Follows.{Always, Follows};
ghost use Rattle.symbol_reader.specs.Leaves.{names_in};
ghost use Rattle.symbol_reader.specs.Marks.{Fingerprinted, print_words};
ghost use Rattle.row_reader.specs.Parts.{row_body};
ghost use Rattle.tables.specs.Limits.{most_variables, most_rows};

use crate::lists;
use symbol_reader::{Cursor, Next, Step, names, numbers, values, words};

// A row's left side is due: `OBJ`, or a count and that many terms.
fn read_side(text: &[u8], cursor: Cursor, n: usize, index: &mut [u16], values: &mut [i32]) -> Step
    ensures { (rs : List ℕ) → n ≤ most_variables → Follows Always (side n) any text.now cursor index.old values.old rs index.new values.new rs result }
{
    let listed = numbers::read_index_or(
        text,
        cursor,
        b"OBJ",
        tables::words::OBJ as u16,
        numbers::bound_of(n),
        index,
    )?;
    if listed.number == tables::words::OBJ {
        return Ok(listed);
    }
    lists::read_pairs(text, listed.cursor, listed.number, n, index, values)
}

// What follows a row's name is due.
fn read_row_body(
    text: &[u8],
    cursor: Cursor,
    n: usize,
    index: &mut [u16],
    values: &mut [i32],
) -> Step
    ensures { (rs : List ℕ) → n ≤ most_variables → Follows Always (row_body n) any text.now cursor index.old values.old rs index.new values.new rs result }
{
    let sense = words::read_sense(text, cursor, index)?;
    let right = values::read_value(text, sense.cursor, values)?;
    read_side(text, right.cursor, n, index, values)
}

// The row with the index `own` is due, whose name none of the rows before it has; the fingerprints of their names are marked, and its
// own is marked besides.
pub(crate) fn read_row(
    text: &[u8],
    cursor: Cursor,
    n: usize,
    own: usize,
    index: &mut [u16],
    values: &mut [i32],
    rows: &mut [u16],
    prints: &mut [u64],
) -> Step
    ensures { n ≤ most_variables → own < most_rows → Fingerprinted (names_in text.now (slice 0 (4 * own) rows.old)) prints.old → Follows Always (row n own (names_in text.now (slice 0 (4 * own) rows.old))) (λ a k. Fingerprinted (names_in text.now (slice 0 (4 * own) rows.old) ++ (a.name.bytes ∷ [])) prints.new) text.now cursor index.old values.old rows.old index.new values.new rows.new result }
{
    let name = names::read_row_name(text, cursor, own, rows, prints)?;
    read_row_body(text, name.cursor, n, index, values)
}

// So many given rows are due, the first in the row table; the fingerprints of their names are marked, which must not be before.
pub fn read_rows(
    text: &[u8],
    cursor: Cursor,
    n: usize,
    count: usize,
    index: &mut [u16],
    values: &mut [i32],
    rows: &mut [u16],
    prints: &mut [u64],
) -> Step
    ensures { n ≤ most_variables → count ≤ most_rows → length prints.old ≡ print_words → Follows Always (items count (λ before. row n (length before) (row_names before))) (λ a k. Fingerprinted (row_names a) prints.new) text.now cursor index.old values.old rows.old index.new values.new rows.new result }
{
    let mut at = cursor;
    for i in 0..count {
        let next = read_row(text, at, n, i, index, values, rows, prints)?;
        at = next.cursor;
    }
    Ok(Next {
        number: count,
        cursor: at,
    })
}
