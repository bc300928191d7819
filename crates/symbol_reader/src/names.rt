// Names: those of variables and of solutions, which may repeat, and those of rows, which may not. The fingerprint of a row's name, a
// number of 16 bits, is worked out once and marked; a name is compared byte by byte with those before it only if its fingerprint is
// marked.
ghost use Rattle.std.specs.Prelude.{◌≡◌, List, [], ◌∷◌, ◌++◌, ℤ, length, ℕ, ◌+◌, ◌*◌, ◌≤◌, ◌<◌};
ghost use Rattle.std.proofs.Math.Seq.{slice};
ghost use Rattle.text.specs.Bytes.{same};
ghost use Rattle.grammar.specs.Format.{symbol, name, row_name};
ghost use Rattle.grammar.specs.Reading.{is_among, is_name};
ghost use Rattle.symbol_reader.specs.Steps.{the};
ghost use Rattle.symbol_reader.specs.Follows.{Always, Follows, Refuses};
ghost use Rattle.symbol_reader.specs.Leaves.{Means, token_of, NoRow, names_in, fingerprint_of};
ghost use Rattle.symbol_reader.specs.Marks.{Fingerprinted};
ghost use Rattle.tables.specs.Limits.{most_entries};

use crate::{Cursor, Step, marks, stores, tokens};
use grammar::Refusal;

// The words that mark all fingerprints, of which there are 65,536.
pub const PRINT_WORDS: usize = 1024;

// Every byte is one of 33 to 126.
fn is_name(token: &[u8]) -> bool
    ensures { result ≡ is_name token.now }
{
    token.iter().all(|b| b.is_ascii_graphic())
}

// What a token means where a name is due that may repeat.
fn name_in(token: &[u8]) -> Result<u16, Refusal>
    ensures means { (place : ℕ) → Means name (λ a. 0) (token_of place token.now) result }
    ensures by_index { (place row : ℕ) → Means (row_name row []) (λ a. 0) (token_of place token.now) result }
{
    if is_name(token) {
        Ok(0)
    } else {
        Err(Refusal::WrongKind)
    }
}

// A name is due.
pub fn read_name(text: &[u8], cursor: Cursor) -> Step
    ensures { (ix : List ℕ) (vs : List ℤ) (rs : List ℕ) → Follows Always (symbol name) (the (λ a. 0)) text.now cursor ix vs rs ix vs rs result }
{
    let token = tokens::due(text, cursor)?;
    tokens::passed(cursor, token, name_in(tokens::bytes(text, token)))
}

// A name for this row of the row table is due, that may repeat.
pub fn read_free_name(text: &[u8], cursor: Cursor, row: usize, rows: &mut [u16]) -> Step
    ensures by_index { (ix : List ℕ) (vs : List ℤ) → row < most_entries → Follows Always (symbol (row_name row [])) (the (λ a. 0)) text.now cursor ix vs rows.old ix vs rows.new result }
    ensures refuses { Refuses (NoRow row rows.old) (row_name row []) text.now cursor (rows.new ≡ rows.old) result }
{
    let token = tokens::due(text, cursor)?;
    let meaning = name_in(tokens::bytes(text, token));
    stores::rowed(cursor, token, meaning, row, rows)
}

// A number of 16 bits for a name: equal names have equal ones.
fn fingerprint(name: &[u8]) -> u16
    ensures { result ≡ fingerprint_of name.now }
{
    let mut n: u16 = 0;
    for b in name {
        n = n.wrapping_mul(31).wrapping_add(u16::from(*b));
    }
    n
}

// The rows below `row` that the table has.
fn rows_below(rows: &[u16], row: usize) -> &[u16]
    ensures { result.now ≡ slice 0 (4 * row) rows.now }
{
    &rows[..row.saturating_mul(4).min(rows.len())]
}

// The token is a name that one of these rows has.
fn is_named(text: &[u8], token: &[u8], mut rows: &[u16]) -> bool
    ensures { result ≡ is_among same token.now (names_in text.now rows.entry.now) }
{
    while let [place, size, _, _, others @ ..] = rows {
        let place = usize::from(*place);
        let size = usize::from(*size);
        if tokens::is(token, text::part(text, place, place + size)) {
            return true;
        }
        rows = others;
    }
    false
}

// The same, where the names of these rows have their fingerprints marked, and the token has this one.
fn is_used(text: &[u8], token: &[u8], rows: &[u16], prints: &[u64], print: u16) -> bool
    ensures { print ≡ fingerprint_of token.now → Fingerprinted (names_in text.now rows.now) prints.now → result ≡ is_among same token.now (names_in text.now rows.now) }
{
    marks::is_marked(prints, usize::from(print)) && is_named(text, token, rows)
}

// What a token means where a name is due that none of these rows has.
fn row_name_in(text: &[u8], token: &[u8], rows: &[u16], prints: &[u64]) -> Result<u16, Refusal>
    ensures { (place row : ℕ) → Fingerprinted (names_in text.now rows.now) prints.now → Means (row_name row (names_in text.now rows.now)) (λ a. fingerprint_of a.bytes) (token_of place token.now) result }
{
    if !is_name(token) {
        return Err(Refusal::WrongKind);
    }
    let print = fingerprint(token);
    if is_used(text, token, rows, prints, print) {
        return Err(Refusal::UsedBefore);
    }
    Ok(print)
}

// A name for this row of the row table is due, none of those of the rows below it, whose fingerprints are marked; its own is marked
// besides.
pub fn read_row_name(
    text: &[u8],
    cursor: Cursor,
    row: usize,
    rows: &mut [u16],
    prints: &mut [u64],
) -> Step
    ensures by_index { (ix : List ℕ) (vs : List ℤ) → row < most_entries → Fingerprinted (names_in text.now (slice 0 (4 * row) rows.old)) prints.old → Follows Always (symbol (row_name row (names_in text.now (slice 0 (4 * row) rows.old)))) (λ a n. Fingerprinted (names_in text.now (slice 0 (4 * row) rows.old) ++ (a.bytes ∷ [])) prints.new) text.now cursor ix vs rows.old ix vs rows.new result }
    ensures refuses { Fingerprinted (names_in text.now (slice 0 (4 * row) rows.old)) prints.old → Refuses (NoRow row rows.old) (row_name row (names_in text.now (slice 0 (4 * row) rows.old))) text.now cursor ((rows.new ≡ rows.old) × (prints.new ≡ prints.old)) result }
{
    let token = tokens::due(text, cursor)?;
    let meaning = row_name_in(
        text,
        tokens::bytes(text, token),
        rows_below(rows, row),
        prints,
    );
    let next = stores::rowed(cursor, token, meaning, row, rows)?;
    marks::mark(prints, next.number);
    Ok(next)
}
