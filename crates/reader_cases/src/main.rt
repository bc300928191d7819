// Reads the certificates of standard input, which are on either side of each rule of reading, and writes what Read a certificate
// answers; of a certificate of 1,024 rows also cells of the tables. Then 01's example with its tables, and tables and a text of
// other sizes.
#![tactic(auto)]

ghost use Rattle.std.specs.Prelude.{◌≤◌};

use case_texts::{Case, Cases, Cells};
use grammar::Refused;
use std::io;
use std::io::Print;
use tables::Header;

// A line with cells of the value table; of a negative number only the sign.
fn print_values(out: &impl Print, cells: &[i32]) -> io::Result<()> {
    for cell in cells {
        if *cell < 0 {
            print!(out; " -")?;
        } else {
            print!(out; " {cell}")?;
        }
    }
    println!(out)
}

// Whether these cells, the rest of a table, are all 0.
fn print_rest(out: &impl Print, cells: &[u16]) -> io::Result<()> {
    if cells.iter().all(|cell| *cell == 0) {
        println!(out; " all others are 0")
    } else {
        println!(out; " some others are not 0")
    }
}

fn print_header(out: &impl Print, h: Header) -> io::Result<()> {
    let sense = if h.maximize { "max" } else { "min" };
    let terms = h.objective;
    print!(out;
        ": taken, variables {}, integers {}",
        h.variables, h.integers
    )?;
    print!(out; ", {sense} {} {} {}", terms.cell, terms.number, terms.count)?;
    print!(out;
        ", given {}, rows {}, solutions {}",
        h.given, h.rows, h.solutions
    )?;
    println!(out;
        ", claim {} {}, RTP at {}, DER at {}",
        h.claim, h.ends, h.relation, h.derivation
    )
}

fn print_answer(out: &impl Print, answer: Result<Header, Refused>) -> io::Result<()> {
    match answer {
        Ok(header) => print_header(out, header),
        Err(refused) => println!(out; ": {refused}"),
    }
}

// Of a certificate of 1,024 rows: the first cells of the index table and those of the last row; of the row table rows 0 and 1, 511
// and 512, 1,022 and 1,023, and the first solution; and cells of the value table.
fn print_chosen(
    out: &impl Print,
    index: &[u16; 16384],
    values: &[i32; 16384],
    rows: &[u16; 4352],
) -> io::Result<()> {
    let last = rows[4094] as usize;
    println!(out; "{}", Cells(&index[..12]))?;
    println!(out; "{}", Cells(index.get(last..last + 8).unwrap_or(&[])))?;
    println!(out; "{}", Cells(&rows[..8]))?;
    println!(out; "{}", Cells(&rows[2044..2052]))?;
    println!(out; "{}", Cells(&rows[4088..4100]))?;
    print_values(out, &values[..8])?;
    print_values(out, &values[2044..2052])?;
    print_values(out, &values[3584..3600])
}

// Reads a text into tables of the cells needed that are not empty, and writes the answer under its name.
fn read_case(out: &impl Print, case: Case<'_>) -> io::Result<()> {
    let mut index = [7u16; 16384];
    let mut values = [7i32; 16384];
    let mut rows = [7u16; 4352];
    let answer = reader::read_certificate(case.text, &mut index, &mut values, &mut rows);
    out.write_all(case.name)?;
    print_answer(out, answer)?;
    if matches!(answer, Ok(Header { rows: 1024, .. })) {
        print_chosen(out, &index, &values, &rows)?;
    }
    Ok(())
}

// Of 01's example: its 24 index cells and the cell after them, rows 0, 1 and 1,024, and the cells after them.
fn print_tables(out: &impl Print, index: &[u16; 16385], rows: &[u16; 4353]) -> io::Result<()> {
    println!(out; "{}", Cells(&index[..25]))?;
    print_rest(out, &index[24..])?;
    println!(out; "{}", Cells(&rows[..12]))?;
    println!(out; "{}", Cells(&rows[4092..4104]))?;
    print_rest(out, &rows[4100..])
}

// Reads 01's example.
fn read_example(out: &impl Print) -> io::Result<()> {
    let mut index = [7u16; 16385];
    let mut values = [7i32; 16385];
    let mut rows = [7u16; 4353];
    let answer = reader::read_certificate(
        b"VER 1.0\nVAR 1\nx\nINT 1\n0\nOBJ max\n1 0 1\nCON 1 0\nR1 L 3 1 0 2\nRTP range 1 1\nSOL 1\na 1 0 1\nDER 1\nD1 L 1 OBJ { rnd 1 0 1/2 } -1\n",
        &mut index,
        &mut values,
        &mut rows,
    );
    print!(out; "the tables")?;
    print_answer(out, answer)?;
    print_tables(out, &index, &rows)
}

// Reads a text into tables of these sizes, and writes the answer under a name, and cells of the tables.
fn read_into<const INDEX: usize, const VALUES: usize, const ROWS: usize>(
    out: &impl Print,
    name: &str,
    text: &[u8],
) -> io::Result<()>
    requires index_cells { (2 ≤ INDEX) × (INDEX ≤ 16384) }
    requires value_cells { VALUES ≤ 16384 }
    requires row_cells { (2 ≤ ROWS) × (ROWS ≤ 4352) }
{
    let mut index = [7u16; INDEX];
    let mut values = [7i32; VALUES];
    let mut rows = [7u16; ROWS];
    let answer = reader::read_certificate(text, &mut index, &mut values, &mut rows);
    print!(out; "{name}")?;
    print_answer(out, answer)?;
    println!(out; "{}", Cells(&index[..2]))?;
    println!(out; "{}", Cells(&rows[..2]))
}

// Tables of one cell less than needed, and a text of one byte more.
fn read_sizes(out: &impl Print) -> io::Result<()> {
    let text = [b' '; 32769];
    read_into::<16383, 16384, 4352>(out, "an index table of 16,383 cells", &text)?;
    read_into::<16384, 16383, 4352>(out, "a value table of 16,383 cells", &text)?;
    read_into::<16384, 16384, 4351>(out, "a row table of 4,351 cells", &text)?;
    read_into::<16384, 16384, 4352>(out, "32,769 bytes", &text)?;
    read_into::<16384, 16384, 4352>(out, "32,768 bytes", &text[..32768])
}

fn main(rt: HostRuntime) -> io::Result<()> {
    let mut input = [0u8; 65536];
    let came = case_texts::read_full(&mut rt.stdin(), &mut input)?;
    for case in Cases::new(&input[..came]) {
        read_case(&rt, case)?;
    }
    read_example(&rt)?;
    read_sizes(&rt)
}
