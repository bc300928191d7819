// What a token takes of the tables, by its meaning: a refused token takes nothing. Where a table has no room the token is refused, and
// nothing is stored.
ghost use Rattle.std.specs.Prelude.{◌≡◌, [], ◌∷◌, length, ◌+◌, ◌-◌, ◌*◌, ◌≤◌, ◌<◌, ◌^◌};
ghost use Rattle.std.proofs.lemmas.List.Edits.{sets};
ghost use Rattle.symbol_reader.specs.Leaves.{Given, Filled, Valued, Ended, Rowed};

use crate::tokens::{no_room, refused};
use crate::{Cursor, Next, Step};
use arithmetic::Fraction;
use grammar::Refusal;
use tables::words;
use text::Token;

// The number of a token takes an index cell.
pub(crate) fn filled(
    cursor: Cursor,
    token: Token,
    meaning: Result<u16, Refusal>,
    index: &mut [u16],
) -> Step
    requires { token.to < 2 ^ 63 }
    ensures { Given meaning (Filled token cursor index.old index.new result) }
{
    let number = meaning.map_err(|reason| refused(token, reason))?;
    let cells = cursor.cells;
    if index.len() <= cells {
        return Err(no_room(token));
    }
    index[cells] = number;
    Ok(Next {
        number: usize::from(number),
        cursor: Cursor {
            cells: cells + 1,
            ..cursor.past(token)
        },
    })
}

// The numerator and the denominator of the value with this number.
fn store_value(values: &mut [i32], number: usize, f: Fraction)
    requires { 2 * number + 2 ≤ length values.old }
    ensures { values.new ≡ sets values.old (2 * number) (f.num ∷ f.den ∷ []) }
{
    let at = 2 * number;
    values[at] = f.num;
    values[at + 1] = f.den;
}

// A value more.
pub(crate) fn valued(
    cursor: Cursor,
    token: Token,
    meaning: Result<Fraction, Refusal>,
    values: &mut [i32],
) -> Step
    requires { token.to < 2 ^ 63 }
    ensures { Given meaning (Valued token cursor values.old values.new result) }
{
    let value = meaning.map_err(|reason| refused(token, reason))?;
    let v = cursor.values;
    if values.len() / 2 <= v {
        return Err(no_room(token));
    }
    store_value(values, v, value);
    Ok(Next {
        number: 0,
        cursor: Cursor {
            values: v + 1,
            ..cursor.past(token)
        },
    })
}

// A value more, which is an end of a range and takes the cell 1.
pub(crate) fn ended(
    cursor: Cursor,
    token: Token,
    meaning: Result<Fraction, Refusal>,
    index: &mut [u16],
    values: &mut [i32],
) -> Step
    requires { token.to < 2 ^ 63 }
    ensures { Given meaning (Ended token cursor (index.old, values.old) (index.new, values.new) result) }
{
    let value = meaning.map_err(|reason| refused(token, reason))?;
    let cells = cursor.cells;
    let v = cursor.values;
    if index.len() <= cells || values.len() / 2 <= v {
        return Err(no_room(token));
    }
    index[cells] = words::FINITE as u16;
    store_value(values, v, value);
    Ok(Next {
        number: words::FINITE,
        cursor: Cursor {
            at: token.to + 1,
            cells: cells + 1,
            values: v + 1,
        },
    })
}

// A number of 16 bits, 0 for one that has more.
fn low(n: usize) -> u16
    ensures { n < 65536 → result ≡ n }
{
    u16::try_from(n).unwrap_or(0)
}

// The four cells of a row: the place and the size of its name, and where its cells and its values begin.
fn store_row(rows: &mut [u16], row: usize, token: Token, cursor: Cursor)
    requires { (4 * row + 4 ≤ length rows.old) × (token.from ≤ token.to) }
    ensures { token.to < 65536 → cursor.cells < 65536 → cursor.values < 65536 → rows.new ≡ sets rows.old (4 * row) (token.from ∷ (token.to - token.from) ∷ cursor.cells ∷ cursor.values ∷ []) }
{
    let at = 4 * row;
    rows[at] = low(token.from);
    rows[at + 1] = low(token.to - token.from);
    rows[at + 2] = low(cursor.cells);
    rows[at + 3] = low(cursor.values);
}

// A name takes this row.
pub(crate) fn rowed(
    cursor: Cursor,
    token: Token,
    meaning: Result<u16, Refusal>,
    row: usize,
    rows: &mut [u16],
) -> Step
    requires { (token.from ≤ token.to) × (token.to < 2 ^ 63) }
    ensures { Given meaning (Rowed token cursor row rows.old rows.new result) }
{
    let number = meaning.map_err(|reason| refused(token, reason))?;
    if rows.len() / 4 <= row {
        return Err(no_room(token));
    }
    store_row(rows, row, token, cursor);
    Ok(Next {
        number: usize::from(number),
        cursor: cursor.past(token),
    })
}
