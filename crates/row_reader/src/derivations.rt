// Derivations: a row, `{`, a reason, `}`, a last index.
ghost use Rattle.std.specs.Prelude.{◌≡◌, true, cond, List, [], ◌∷◌, ◌++◌, eqb, ℤ, ℕ, ◌+◌, ◌-◌, ◌*◌, ◌≤◌, ◌<◌, ◌^◌};
ghost use Rattle.std.proofs.Math.Seq.{slice};
ghost use Rattle.grammar.specs.Format.{items};
ghost use Rattle.grammar.specs.Certificate.{ReasonWord, reason_cell, detail, unsplit, reason, derivation};
ghost use Rattle.symbol_reader.specs.Steps.{any, the};
ghost use Rattle.symbol_reader.specs.Follows.{Always, Follows};
ghost use Rattle.symbol_reader.specs.Leaves.{names_in};
ghost use Rattle.symbol_reader.specs.Marks.{Fingerprinted};
ghost use Rattle.row_reader.specs.Parts.{justification, derivation_but, word_cell};
ghost use Rattle.tables.specs.Limits.{most_variables, most_rows};
ghost use Rattle.tables.specs.Words.{asm};

use crate::{lists, rows};
use grammar::{Refusal, Stop};
use symbol_reader::{Cursor, Next, Step, numbers, words};
use tables::{limits, words as reason};

// i1 l1 i2 l2 are due, each below `own`.
fn read_unsplit(text: &[u8], cursor: Cursor, own: usize, index: &mut [u16]) -> Step
    ensures { (vs : List ℤ) (rs : List ℕ) → own ≤ most_rows → Follows Always (unsplit own) any text.now cursor index.old vs rs index.new vs rs result }
{
    let i1 = numbers::read_index(text, cursor, own, index)?;
    let l1 = numbers::read_index(text, i1.cursor, own, index)?;
    let i2 = numbers::read_index(text, l1.cursor, own, index)?;
    numbers::read_index(text, i2.cursor, own, index)
}

// What follows a reason's word is due; the number is the word's cell.
// Kept: the cell, a number of document 01's index table, which the token's reader stores; `encoding` gives such a cell its enum.
fn read_detail(text: &[u8], word: Next, own: usize, index: &mut [u16], values: &mut [i32]) -> Step
    ensures { (w : ReasonWord) (rs : List ℕ) → own ≤ most_rows → reason_cell w ≡ word.number → Follows Always (detail own w) any text.now word.cursor index.old values.old rs index.new values.new rs result }
{
    match word.number {
        reason::LIN | reason::RND => lists::read_pair_list(text, word.cursor, own, index, values),
        reason::UNS => read_unsplit(text, word.cursor, own, index),
        _ => Ok(word),
    }
}

// A reason is due, after so many assumptions; the cell of its word is handed back.
fn read_reason(
    text: &[u8],
    cursor: Cursor,
    own: usize,
    assumed: usize,
    index: &mut [u16],
    values: &mut [i32],
) -> Step
    ensures { (rs : List ℕ) → own ≤ most_rows → Follows Always (reason own assumed) (the word_cell) text.now cursor index.old values.old rs index.new values.new rs result }
{
    let word = words::read_reason_word(text, cursor, assumed, index)?;
    let detail = read_detail(text, word, own, index, values)?;
    Ok(Next {
        number: word.number,
        ..detail
    })
}

// What follows a derivation's row is due: a reason in braces, and a last index. The cell of the reason's word is handed back.
fn read_justification(
    text: &[u8],
    cursor: Cursor,
    own: usize,
    total: usize,
    assumed: usize,
    index: &mut [u16],
    values: &mut [i32],
) -> Step
    ensures { (rs : List ℕ) → own ≤ most_rows → total ≤ most_rows → Follows Always (justification own total assumed) (the (λ j. word_cell j.1.0)) text.now cursor index.old values.old rs index.new values.new rs result }
{
    let open = words::read_word(text, cursor, b"{")?;
    let reason = read_reason(text, open.cursor, own, assumed, index, values)?;
    let close = words::read_word(text, reason.cursor, b"}")?;
    let last = numbers::read_index_or(
        text,
        close.cursor,
        b"-1",
        tables::words::NEVER as u16,
        total,
        index,
    )?;
    Ok(Next {
        number: reason.number,
        ..last
    })
}

// The derivation of the row `own` is due, of `total` rows in all, after so many assumptions; the fingerprints of the names of the rows
// before it are marked, and that of its own is marked besides. The cell of its reason's word is handed back.
fn read_derivation(
    text: &[u8],
    cursor: Cursor,
    n: usize,
    own: usize,
    total: usize,
    assumed: usize,
    index: &mut [u16],
    values: &mut [i32],
    rows: &mut [u16],
    prints: &mut [u64],
) -> Step
    ensures { n ≤ most_variables → own < most_rows → total ≤ most_rows → Fingerprinted (names_in text.now (slice 0 (4 * own) rows.old)) prints.old → Follows Always (derivation_but n own total assumed (names_in text.now (slice 0 (4 * own) rows.old))) (λ d k. (word_cell d.reason ≡ k) × Fingerprinted (names_in text.now (slice 0 (4 * own) rows.old) ++ (d.row.name.bytes ∷ [])) prints.new) text.now cursor index.old values.old rows.old index.new values.new rows.new result }
{
    let row = rows::read_row(text, cursor, n, own, index, values, rows, prints)?;
    read_justification(text, row.cursor, own, total, assumed, index, values)
}

// So many rows after m others are at most as many as a certificate may have.
fn has_rows(m: usize, count: usize) -> bool
    ensures count_bound { result ≡ true → m + count ≤ most_rows }
    ensures value { m + count ≤ most_rows → result ≡ true }
{
    m <= limits::ROWS && count <= limits::ROWS - m
}

// How many assumptions there are with a reason whose word has this cell.
fn with_reason(assumed: usize, word: usize) -> usize
    requires { assumed < 2 ^ 63 }
    ensures { result ≡ assumed + cond (eqb word asm) 1 0 }
{
    assumed + usize::from(word == reason::ASM)
}

// So many derivations are due, after m given rows, the fingerprints of whose names are marked.
pub fn read_derivations(
    text: &[u8],
    cursor: Cursor,
    count: usize,
    n: usize,
    m: usize,
    index: &mut [u16],
    values: &mut [i32],
    rows: &mut [u16],
    prints: &mut [u64],
) -> Step
    ensures { n ≤ most_variables → m + count ≤ most_rows → Fingerprinted (names_in text.now (slice 0 (4 * m) rows.old)) prints.old → Follows Always (items count (derivation n m (names_in text.now (slice 0 (4 * m) rows.old)) count)) any text.now cursor index.old values.old rows.old index.new values.new rows.new result }
{
    if !has_rows(m, count) {
        return Err(Stop {
            reason: Refusal::TableTooSmall,
            place: cursor.at,
        });
    }
    let mut at = cursor;
    let mut assumed = 0;
    for i in 0..count {
        let next = read_derivation(
            text,
            at,
            n,
            m + i,
            m + count,
            assumed,
            index,
            values,
            rows,
            prints,
        )?;
        assumed = with_reason(assumed, next.number);
        at = next.cursor;
    }
    Ok(Next {
        number: count,
        cursor: at,
    })
}
