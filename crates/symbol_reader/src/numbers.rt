// Counts and indices.
ghost use Rattle.std.specs.Prelude.{◌≡◌, List, [], ◌∷◌, ◌++◌, ℤ, length, ℕ, suc, ◌*◌, ◌≤◌, ◌<◌};
ghost use Rattle.text.specs.Bytes.{same};
ghost use Rattle.grammar.specs.Format.{symbol, number, or};
ghost use Rattle.grammar.specs.Certificate.{count_to, index_below, new_index_below};
ghost use Rattle.symbol_reader.specs.Follows.{Always, Follows, below, cell_or, Refuses};
ghost use Rattle.symbol_reader.specs.Marks.{Marks};
ghost use Rattle.symbol_reader.specs.Leaves.{NoCell, numeral_of, bound_of, Means, token_of, or_cell};
ghost use Rattle.tables.specs.Limits.{largest};

use crate::{Cursor, Step, marks, stores, tokens};
use grammar::Refusal;
use tables::limits;

// The words that mark the indices of a list, each below 1,024.
pub const INDEX_WORDS: usize = 16;

// The number that the digits spell, or the largest that a cell holds where it is more: no more matters of it. None if a byte is no
// digit.
fn numeral(token: &[u8]) -> Option<u16>
    ensures { result ≡ numeral_of token.now }
{
    let mut n: usize = 0;
    for b in token {
        if !b.is_ascii_digit() {
            return None;
        }
        n = (n * 10 + usize::from(*b - b'0')).min(limits::LARGEST);
    }
    Some(n as u16)
}

// What a token means where a number below the bound is due.
fn number_in(token: &[u8], bound: usize) -> Result<u16, Refusal>
    ensures { (place : ℕ) → 0 < length token.now → bound ≤ largest → Means (number bound []) (λ n. n) (token_of place token.now) result }
{
    let number = numeral(token).ok_or(Refusal::WrongKind)?;
    if bound <= usize::from(number) {
        return Err(Refusal::OutOfRange);
    }
    Ok(number)
}

// An index below the bound is due.
pub fn read_index(text: &[u8], cursor: Cursor, bound: usize, index: &mut [u16]) -> Step
    ensures follows { (vs : List ℤ) (rs : List ℕ) → bound ≤ largest → Follows Always (index_below bound) (below bound) text.now cursor index.old vs rs index.new vs rs result }
    ensures refuses { bound ≤ largest → Refuses (NoCell index.old) (number bound []) text.now cursor (index.new ≡ index.old) result }
{
    let token = tokens::due(text, cursor)?;
    let meaning = number_in(tokens::bytes(text, token), bound);
    stores::filled(cursor, token, meaning, index)
}

// The bound of a count of at most `most`; none is above the largest number that a cell holds.
pub fn bound_of(most: usize) -> usize
    ensures { result ≡ bound_of most }
{
    most.saturating_add(1).min(limits::LARGEST)
}

// A count is due, of at most `most`.
pub fn read_count(text: &[u8], cursor: Cursor, most: usize, index: &mut [u16]) -> Step
    ensures follows { (vs : List ℤ) (rs : List ℕ) → most < largest → Follows Always (count_to most) (below (suc most)) text.now cursor index.old vs rs index.new vs rs result }
    ensures refuses { most < largest → Refuses (NoCell index.old) (number (suc most) []) text.now cursor (index.new ≡ index.old) result }
{
    read_index(text, cursor, bound_of(most), index)
}

// What a token means where a number below the bound is due that is not marked.
fn new_in(token: &[u8], bound: usize, seen: &[u64]) -> Result<u16, Refusal>
    ensures { (place : ℕ) (used : List ℕ) → 0 < length token.now → bound ≤ largest → bound ≤ 64 * length seen.now → Marks used seen.now → Means (number bound used) (λ n. n) (token_of place token.now) result }
{
    let number = number_in(token, bound)?;
    if marks::is_marked(seen, usize::from(number)) {
        return Err(Refusal::UsedBefore);
    }
    Ok(number)
}

// An index below the bound is due, none of those used, which are marked; it is marked besides.
pub fn read_new_index(
    text: &[u8],
    cursor: Cursor,
    bound: usize,
    seen: &mut [u64],
    index: &mut [u16],
) -> Step
    ensures by_index { (used : List ℕ) (vs : List ℤ) (rs : List ℕ) → bound ≤ largest → bound ≤ 64 * length seen.old → Marks used seen.old → Follows Always (new_index_below bound used) (λ i n. Marks (used ++ (i ∷ [])) seen.new) text.now cursor index.old vs rs index.new vs rs result }
    ensures by_index_2 { (used : List ℕ) → bound ≤ largest → bound ≤ 64 * length seen.old → Marks used seen.old → Refuses (NoCell index.old) (number bound used) text.now cursor ((index.new ≡ index.old) × (seen.new ≡ seen.old)) result }
    ensures seen_len_unchanged { length seen.new ≡ length seen.old }
{
    let token = tokens::due(text, cursor)?;
    let meaning = new_in(tokens::bytes(text, token), bound, seen);
    let next = stores::filled(cursor, token, meaning, index)?;
    marks::mark(seen, next.number);
    Ok(next)
}

// What a token means where the word, which takes this cell, or a number below the bound is due.
fn number_or_in(token: &[u8], word: &[u8], cell: u16, bound: usize) -> Result<u16, Refusal>
    ensures { (place : ℕ) → 0 < length token.now → bound ≤ largest → Means (or word.now cell (number bound [])) (or_cell cell (λ n. n)) (token_of place token.now) result }
{
    if tokens::is(token, word) {
        return Ok(cell);
    }
    number_in(token, bound)
}

// The word, which takes this cell, or an index below the bound is due; the cell is handed back.
pub fn read_index_or(
    text: &[u8],
    cursor: Cursor,
    word: &[u8],
    cell: u16,
    bound: usize,
    index: &mut [u16],
) -> Step
    ensures follows { (vs : List ℤ) (rs : List ℕ) → bound ≤ largest → Follows Always (symbol (or word.now cell (number bound []))) (cell_or cell bound) text.now cursor index.old vs rs index.new vs rs result }
    ensures refuses { bound ≤ largest → Refuses (NoCell index.old) (or word.now cell (number bound [])) text.now cursor (index.new ≡ index.old) result }
{
    let token = tokens::due(text, cursor)?;
    let meaning = number_or_in(tokens::bytes(text, token), word, cell, bound);
    stores::filled(cursor, token, meaning, index)
}
