// Lists of pairs of an index and a value: the terms of a row, of the objective and of a solution, and the multipliers of a reason.
ghost use Rattle.std.specs.Prelude.{◌≡◌, List, [], ◌∷◌, ◌++◌, length, ℕ, ◌*◌, ◌≤◌};
ghost use Rattle.grammar.specs.Format.{items};
ghost use Rattle.grammar.specs.Certificate.{pair, pair_list};
ghost use Rattle.symbol_reader.specs.Steps.{any};
ghost use Rattle.symbol_reader.specs.Follows.{Always, Follows};
ghost use Rattle.symbol_reader.specs.Marks.{Marks};
ghost use Rattle.row_reader.specs.Parts.{pair_but};
ghost use Rattle.tables.specs.Limits.{largest, most_rows};

use symbol_reader::{Cursor, Next, Step, numbers};

// A pair is due, whose index is none of those used, which are marked; it is marked besides.
fn read_pair(
    text: &[u8],
    cursor: Cursor,
    bound: usize,
    seen: &mut [u64],
    index: &mut [u16],
    values: &mut [i32],
) -> Step
    ensures by_index { (used : List ℕ) (rs : List ℕ) → bound ≤ largest → bound ≤ 64 * length seen.old → Marks used seen.old → Follows Always (pair_but bound used) (λ p n. Marks (used ++ (p.index ∷ [])) seen.new) text.now cursor index.old values.old rs index.new values.new rs result }
    ensures seen_len_unchanged { length seen.new ≡ length seen.old }
{
    let listed = numbers::read_new_index(text, cursor, bound, seen, index)?;
    symbol_reader::values::read_value(text, listed.cursor, values)
}

// So many pairs are due, with distinct indices below the bound.
pub fn read_pairs(
    text: &[u8],
    cursor: Cursor,
    count: usize,
    bound: usize,
    index: &mut [u16],
    values: &mut [i32],
) -> Step
    ensures { (rs : List ℕ) → bound ≤ most_rows → Follows Always (items count (pair bound)) any text.now cursor index.old values.old rs index.new values.new rs result }
{
    let mut seen = [0u64; numbers::INDEX_WORDS];
    let mut at = cursor;
    for i in 0..count {
        let next = read_pair(text, at, bound, &mut seen, index, values)?;
        // Kept: by its fields, since a copy of the whole waits for the last of them to be stored (docs/PERFORMANCE.md).
        at = Cursor {
            at: next.cursor.at,
            cells: next.cursor.cells,
            values: next.cursor.values,
        };
    }
    Ok(Next {
        number: count,
        cursor: at,
    })
}

// A count and that many pairs are due.
pub fn read_pair_list(
    text: &[u8],
    cursor: Cursor,
    bound: usize,
    index: &mut [u16],
    values: &mut [i32],
) -> Step
    ensures { (rs : List ℕ) → bound ≤ most_rows → Follows Always (pair_list bound) any text.now cursor index.old values.old rs index.new values.new rs result }
{
    let count = numbers::read_count(text, cursor, bound, index)?;
    read_pairs(text, count.cursor, count.number, bound, index, values)
}
