// What the programs of cases share: the cases of an input, which are texts under names, and rows of cells.
#![tactic(auto)]

ghost use Rattle.std.specs.Prelude.{◌≡◌, ◌+◌, ◌≤◌, [], length, drop, IfOk, MatchOption};
ghost use Rattle.std.specs.Iterator.{at_most};
ghost use Rattle.case_texts.specs.Cases.{before_mark, from_mark, IsNextCase};
ghost use Rattle.case_texts.specs.Cells.{cells_text};

use std::fmt::Display;
use std::io::Read;
use std::{fmt, io};

// Reads until the room is full or the input ends, and answers how many bytes came, at the start of the room.
pub fn read_full<R: Read>(input: &mut R, room: &mut [u8]) -> io::Result<usize>
    ensures { IfOk result (λ n. n ≤ length room.new) }
{
    let mut came = 0;
    while came < room.len() {
        match input.read(&mut room[came..])? {
            0 => break,
            more => came += more,
        }
    }
    Ok(came)
}

// A text and its name.
#[derive(Clone, Copy)]
pub struct Case<'a> {
    pub name: &'a [u8],
    pub text: &'a [u8],
}

// What stands before the first mark, and the rest from the mark on; all of a text and nothing, where there is none.
fn cut<'a>(text: &'a [u8], mark: &[u8]) -> (&'a [u8], &'a [u8])
    ensures before { result.0.now ≡ before_mark mark.now text.now }
    ensures from { result.1.now ≡ from_mark mark.now text.now }
    ensures parts { length result.0.now + length result.1.now ≤ length text.now }
{
    for at in 0..text.len() {
        if text[at..].starts_with(mark) {
            return (&text[..at], &text[at..]);
        }
    }
    (text, &[])
}

// What is left past so many bytes.
fn past(text: &[u8], count: usize) -> &[u8]
    ensures { result.now ≡ drop count text.entry.now }
{
    &text[count.min(text.len())..]
}

// The cases of an input. Each is a line whose first two bytes, `=` and a space, stand before its name, and then its text, up to the
// LF before the next line that begins with `=`.
#[derive(Drop)]
pub struct Cases<'a> {
    rest: &'a [u8],
}

impl<'a> Cases<'a> {
    pub fn new(input: &'a [u8]) -> Cases<'a>
        ensures { result.rest.now ≡ input.now }
    {
        Cases { rest: input }
    }
}

impl<'a> Iterator for Cases<'a> {
    type Item = Case<'a>;

    ghost next_gives = { λ s r t. MatchOption r (s.rest.now ≡ []) (λ c. IsNextCase s.rest.now c.name.now c.text.now t.rest.now × (length c.name.now + length c.text.now ≤ length s.rest.now)) };

    ghost remaining = { λ s. at_most (length s.rest.now) };

    fn next(&mut self) -> Option<Case<'a>> {
        if self.rest.is_empty() {
            return None;
        }
        let (line, below) = cut(self.rest, b"\n");
        let (text, rest) = cut(below, b"\n=");
        self.rest = past(rest, 1);
        Some(Case {
            name: past(line, 2),
            text: past(text, 1),
        })
    }
}

// Cells, each after a space.
#[derive(Drop)]
pub struct Cells<'a, T>(pub &'a [T]);

impl<'a, T: Display> Display for Cells<'a, T> {
    ghost output = { λ cells. cells_text T.output cells.0.now };

    fn fmt<W: fmt::Write>(&self, f: &mut fmt::Formatter<W>) -> fmt::Result {
        for cell in self.0 {
            write!(f, " {cell}")?;
        }
        Ok(())
    }
}
