// The three tables that a caller lends (document 01, "Tables lent by the caller"): what is stored in them, fetched from them and
// cleared, and the parts of them that lists are. Tables are of any size, and no function asks anything of its caller: what a
// table does not have is fetched as 0 or as an empty part, and a store there changes nothing.
#![tactic(auto)]

ghost use Rattle.std.specs.Prelude.{◌≡◌, ◌+◌, ◌*◌, pos, length, get_or, set, replicate};
ghost use Rattle.tables.specs.Limits.{most_rows, has_cells, is_short};
ghost use Rattle.tables.specs.Cells.{CellIs, fraction_at, EntryIs, with_cell, with_value, with_entry, part};
ghost use Rattle.tables.specs.Pairs.{pairs_in};

use arithmetic::Fraction;

pub mod limits;
pub mod words;

// The row table's cells of one name. Of a row: "byte place of the name, its length, index cell where its sense stands, number of
// its right-hand value". Of a solution: "name place, length, cell of its count, number of values read before it".
#[derive(Clone, Copy, Debug, PartialEq, Eq)]
pub struct Entry {
    pub place: usize,
    pub size: usize,
    pub cell: usize,
    pub number: usize,
}

// Where a list of pairs stands: the index cell of its first index, the number of its first value, and how many pairs it has.
#[derive(Clone, Copy, Debug, PartialEq, Eq)]
pub struct Pairs {
    pub cell: usize,
    pub number: usize,
    pub count: usize,
}

// The counts of a certificate, and where its parts stand: how many variables there are, and how many of them INT lists; whether
// the objective is maximized, and where its terms stand; how many rows are given, and how many there are with the derived ones;
// how many solutions there are; the claim's first index cell, and the number of the first value of its ends; the byte places of
// the words `RTP` and `DER`.
#[derive(Clone, Copy, Debug, PartialEq, Eq)]
pub struct Header {
    pub variables: usize,
    pub integers: usize,
    pub maximize: bool,
    pub objective: Pairs,
    pub given: usize,
    pub rows: usize,
    pub solutions: usize,
    pub claim: usize,
    pub ends: usize,
    pub relation: usize,
    pub derivation: usize,
}

// ---- sizes

// The tables have the cells needed.
pub fn has_cells(index: &[u16], values: &[i32], rows: &[u16]) -> bool
    ensures { result ≡ has_cells (length index.now) (length values.now) (length rows.now) }
{
    index.len() >= limits::INDEX_CELLS
        && values.len() >= limits::VALUE_CELLS
        && rows.len() >= limits::ROW_CELLS
}

// The text is not too long.
pub fn is_short(text: &[u8]) -> bool
    ensures { result ≡ is_short text.now }
{
    text.len() <= limits::TEXT_BYTES
}

// ---- fetching

// A cell of the index table or the row table.
pub fn cell_at(table: &[u16], i: usize) -> usize
    ensures { CellIs table.now i result }
{
    table.get(i).copied().map_or(0, usize::from)
}

// The cell so many after another.
pub fn cell_from(table: &[u16], base: usize, offset: usize) -> usize
    ensures { CellIs table.now (base + offset) result }
{
    let n = table.len();
    if offset < n && base < n - offset {
        cell_at(table, base + offset)
    } else {
        0
    }
}

// A numerator or a denominator.
fn number_at(values: &[i32], i: usize) -> i32
    ensures { result ≡ get_or values.now i (pos 0) }
{
    values.get(i).copied().unwrap_or(0)
}

// The value with this number.
pub fn value_at(values: &[i32], number: usize) -> Fraction
    ensures { result ≡ fraction_at values.now number }
{
    if number < values.len() {
        Fraction {
            num: number_at(values, 2 * number),
            den: number_at(values, 2 * number + 1),
        }
    } else {
        Fraction { num: 0, den: 0 }
    }
}

// The value so many after another.
pub fn value_from(values: &[i32], base: usize, offset: usize) -> Fraction
    ensures { result ≡ fraction_at values.now (base + offset) }
{
    let n = values.len();
    if offset < n && base < n - offset {
        value_at(values, base + offset)
    } else {
        Fraction { num: 0, den: 0 }
    }
}

// The row table's entry of row r.
pub fn entry_at(rows: &[u16], r: usize) -> Entry
    ensures { EntryIs rows.now r result }
{
    let n = rows.len();
    let at = if r < n { 4 * r } else { n };
    Entry {
        place: cell_from(rows, at, 0),
        size: cell_from(rows, at, 1),
        cell: cell_from(rows, at, 2),
        number: cell_from(rows, at, 3),
    }
}

// The row table's entry of solution j.
pub fn solution_at(rows: &[u16], j: usize) -> Entry
    ensures { EntryIs rows.now (most_rows + j) result }
{
    let n = rows.len();
    entry_at(rows, if j < n { limits::ROWS + j } else { n })
}

// ---- lists, as parts of the tables

// So many elements of a table, from this one on.
fn part_of<T>(table: &[T], from: usize, count: usize) -> &[T]
    ensures { result.now ≡ part from count table.now }
{
    let size = table.len();
    match from.checked_add(count) {
        Some(end) if end <= size => &table[from..end],
        _ => &[],
    }
}

// So many cells of the index table, from this one on.
pub fn cells_of(index: &[u16], cell: usize, count: usize) -> &[u16]
    ensures { result.now ≡ part cell count index.now }
{
    part_of(index, cell, count)
}

// The indices of listed pairs.
pub fn indices_of(index: &[u16], p: Pairs) -> &[u16]
    ensures { result.now ≡ part p.cell p.count index.now }
{
    cells_of(index, p.cell, p.count)
}

// The values of listed pairs, numerator and denominator by turns.
pub fn values_of(values: &[i32], p: Pairs) -> &[i32]
    ensures { result.now ≡ part (2 * p.number) (2 * p.count) values.now }
{
    let n = values.len();
    if p.number <= n && p.count <= n {
        part_of(values, 2 * p.number, 2 * p.count)
    } else {
        &[]
    }
}

// How many pairs of an index and a value two parts have.
pub fn pairs_in(indices: &[u16], values: &[i32]) -> usize
    ensures { result ≡ pairs_in indices.now values.now }
{
    indices.len().min(values.len() / 2)
}

// ---- storing

// An element, where the table has it.
fn store<T: Copy>(table: &mut [T], i: usize, x: T)
    ensures { table.new ≡ set table.old i x }
{
    if i < table.len() {
        table[i] = x;
    }
}

// A cell of the index table or the row table. A number that no cell can hold is not stored.
pub fn store_cell(table: &mut [u16], i: usize, x: usize)
    ensures { table.new ≡ with_cell i x table.old }
{
    if let Ok(x) = u16::try_from(x) {
        store(table, i, x);
    }
}

// The value with this number.
pub fn store_value(values: &mut [i32], number: usize, f: Fraction)
    ensures { values.new ≡ with_value number f values.old }
{
    if number < values.len() {
        store(values, 2 * number, f.num);
        store(values, 2 * number + 1, f.den);
    }
}

// The row table's entry of row r.
pub fn store_entry(rows: &mut [u16], r: usize, e: Entry)
    ensures { rows.new ≡ with_entry r e rows.old }
{
    if r < rows.len() {
        let at = 4 * r;
        store_cell(rows, at, e.place);
        store_cell(rows, at + 1, e.size);
        store_cell(rows, at + 2, e.cell);
        store_cell(rows, at + 3, e.number);
    }
}

// ---- clearing

// Every cell of the three tables.
pub fn clear(index: &mut [u16], values: &mut [i32], rows: &mut [u16])
    ensures index { index.new ≡ replicate (length index.old) 0 }
    ensures values { values.new ≡ replicate (length values.old) (pos 0) }
    ensures rows { rows.new ≡ replicate (length rows.old) 0 }
{
    index.fill(0);
    values.fill(0);
    rows.fill(0);
}
