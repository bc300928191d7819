// The program: checks the certificate that comes on standard input, and prints one line: `verified`, or `refused C L` with
// reason C and line L in decimal.
#![tactic(auto)]

ghost use Rattle.std.specs.Prelude.{◌≡◌, take, Some};
ghost use Rattle.std.specs.Io.KnownBytes.{Consumes, IsAtEnd};
ghost use Rattle.program.specs.Line.{printed};
ghost use Rattle.program.specs.Transcript.{InputAnswered};

mod input;
mod line;

use arrayvec::ArrayString;
use input::Input;
use std::io::{Read, Write};

// The room for a text: one byte more than a text may have, so that what is cut off is never hidden. What fills it is too long.
pub const ROOM: usize = 32769;

// What a run read, and what it handed over to be written: the bytes that came, at the start of the room; how many came with the
// last read, none at the end of the input, or `None` where it failed; and the line.
// Kept: memory is fixed, and a read fills a slice of the room, so the text is an array with the count of what came beside it.
#[derive(Clone, Copy)]
pub struct Transcript {
    pub text: [u8; ROOM],
    pub came: usize,
    pub last: Option<usize>,
    pub line: ArrayString<50>,
}

// Writes the line for what came. Where it cannot be written, that is reported on `errors`.
fn write_line<W: Write, E: Write>(
    output: &mut W,
    errors: &mut E,
    text: &[u8; ROOM],
    came: usize,
    line: &str,
)
    requires { line.now ≡ printed (take came text.now) }
{
    if output.write_all(line.as_bytes()).is_err() {
        let _ = errors.write_all(b"vipr_check: standard output cannot be written\n");
    }
}

// Reads standard input, verifies what came, and writes the line to standard output. Where standard input cannot be read, that is
// reported on standard error, and no line is written.
pub fn run<R: Read, W: Write, E: Write>(input: &mut R, output: &mut W, errors: &mut E) -> Transcript
    ensures answered { InputAnswered result }
    ensures bytes { Consumes (R.remaining input.old) (R.remaining input.new) (take result.came result.text) }
    ensures ended { result.last ≡ Some 0 → IsAtEnd (R.remaining input.new) }
{
    let mut text = [0u8; ROOM];
    let Input { came, last } = input::read_input(input, &mut text);
    let line = if last.is_some() {
        let line = line::answer(&text, came);
        write_line(output, errors, &text, came, &line);
        line
    } else {
        let _ = errors.write_all(b"vipr_check: standard input cannot be read\n");
        ArrayString::new()
    };
    Transcript {
        text,
        came,
        last,
        line,
    }
}
