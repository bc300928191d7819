// Verifies the certificates of standard input, which are on either side of each rule, and writes the answers. Most are worked cases
// of rules' Worked.antt, where the same answers are proved. Then shows cells of the tables afterwards, and tables and a text of
// other sizes.
#![tactic(auto)]

ghost use Rattle.std.specs.Prelude.{◌≤◌};

use case_texts::{Case, Cases, Cells};
use grammar::Refused;
use std::io;
use std::io::Print;

fn print_answer(out: &impl Print, answer: Result<(), Refused>) -> io::Result<()> {
    match answer {
        Ok(()) => println!(out; ": verified"),
        Err(refused) => println!(out; ": {refused}"),
    }
}

// Verifies a text with tables of the cells needed that are not empty, and writes the answer under its name.
fn verify_case(out: &impl Print, case: Case<'_>) -> io::Result<()> {
    let mut index = [7u16; 16384];
    let mut values = [7i32; 16384];
    let mut rows = [7u16; 4352];
    out.write_all(case.name)?;
    print_answer(
        out,
        checker::verify(case.text, &mut index, &mut values, &mut rows),
    )
}

// Of the tables of a text like 01's example: index cells 0, 18, 19, 20, 23, 24; the right sides of R1 and D1, the value of a and the
// multiplier; rows 0, 1, 2 and 1,024.
fn print_tables(
    out: &impl Print,
    index: &[u16; 16385],
    values: &[i32; 16385],
    rows: &[u16; 4353],
) -> io::Result<()> {
    println!(out;
        "{}",
        Cells(&[
            index[0], index[18], index[19], index[20], index[23], index[24],
        ])
    )?;
    println!(out;
        "{}",
        Cells(&[
            values[2], values[3], values[12], values[13], values[10], values[11], values[14],
            values[15],
        ])
    )?;
    println!(out; "{}", Cells(&rows[..4]))?;
    println!(out; "{}", Cells(&rows[4..8]))?;
    println!(out; "{}", Cells(&rows[8..12]))?;
    println!(out; "{}", Cells(&rows[4096..4100]))
}

// The answer to a text like 01's example, and cells of the tables.
fn verify_example(out: &impl Print, name: &str, text: &[u8]) -> io::Result<()> {
    let mut index = [7u16; 16385];
    let mut values = [7i32; 16385];
    let mut rows = [7u16; 4353];
    let answer = checker::verify(text, &mut index, &mut values, &mut rows);
    print!(out; "the tables after {name}")?;
    print_answer(out, answer)?;
    print_tables(out, &index, &values, &rows)
}

// After a verified text and after refusals of checking the tables are as read; after a refusal of reading they are all zero.
fn verify_examples(out: &impl Print) -> io::Result<()> {
    verify_example(
        out,
        "verified",
        b"VER 1.0\nVAR 1\nx\nINT 1\n0\nOBJ max\n1 0 1\nCON 1 0\nR1 L 3 1 0 2\nRTP range 1 1\nSOL 1\na 1 0 1\nDER 1\nD1 L 1 OBJ { rnd 1 0 1/2 } -1\n",
    )?;
    verify_example(
        out,
        "15",
        b"VER 1.0\nVAR 1\nx\nINT 1\n0\nOBJ max\n1 0 1\nCON 1 0\nR1 L 3 1 0 2\nRTP range 1 1\nSOL 1\na 1 0 1\nDER 1\nD1 L 0 OBJ { rnd 1 0 1/2 } -1\n",
    )?;
    verify_example(
        out,
        "9",
        b"VER 1.0\nVAR 1\nx\nINT 1\n0\nOBJ max\n1 0 1\nCON 1 0\nR1 L 3 1 0 2\nRTP range 1 1\nSOL 1\na 1 0 2\nDER 1\nD1 L 1 OBJ { rnd 1 0 1/2 } -1\n",
    )?;
    verify_example(
        out,
        "8",
        b"VER 1.0\nVAR 1\nx\nINT 1\n0\nOBJ max\n1 0 1\nCON 1 0\nR1 L 3 1 0 2\nRTP range 1 1\nSOL 1\na 1 0 1\nDER 1\nD1 L 1 OBJ { rnd 1 0 1/2 } -1\nx",
    )
}

// Verifies a text with a row table of this size, and writes the answer under a name, and cells of the tables.
fn verify_into<const ROWS: usize>(out: &impl Print, name: &str, text: &[u8]) -> io::Result<()>
    requires { (1 ≤ ROWS) × (ROWS ≤ 4352) }
{
    let mut index = [7u16; 16384];
    let mut values = [7i32; 16384];
    let mut rows = [7u16; ROWS];
    let answer = checker::verify(text, &mut index, &mut values, &mut rows);
    print!(out; "{name}")?;
    print_answer(out, answer)?;
    println!(out; "{}", Cells(&[index[0], rows[0]]))
}

// A row table of one cell less than needed, and a text of one byte more.
fn verify_sizes(out: &impl Print) -> io::Result<()> {
    let text = [b' '; 32769];
    verify_into::<4351>(out, "a row table of 4,351 cells", &text)?;
    verify_into::<4352>(out, "32,769 bytes", &text)?;
    verify_into::<4352>(out, "32,768 bytes", &text[..32768])
}

fn main(rt: HostRuntime) -> io::Result<()> {
    let mut input = [0u8; 65536];
    let came = case_texts::read_full(&mut rt.stdin(), &mut input)?;
    for case in Cases::new(&input[..came]) {
        verify_case(&rt, case)?;
    }
    verify_examples(&rt)?;
    verify_sizes(&rt)
}
