// Standard input, read to its end.
ghost use Rattle.std.specs.Prelude.{◌≡◌, length, take, Some};
ghost use Rattle.std.specs.Io.KnownBytes.{Consumes, IsAtEnd};
ghost use Rattle.program.specs.Input.{Stopped};

use std::io::Read;

// How many bytes came, and how many came with the last read: none at the end of the input. Where that read failed it is `None`.
#[derive(Clone, Copy, Debug, PartialEq, Eq)]
pub struct Input {
    pub came: usize,
    pub last: Option<usize>,
}

// Reads until a read answers 0 or fails, or the text is full.
pub fn read_input<R: Read>(from: &mut R, text: &mut [u8]) -> Input
    ensures stopped { Stopped (length text.old) result.came result.last }
    ensures bytes { Consumes (R.remaining from.old) (R.remaining from.new) (take result.came text.new) }
    ensures ended { result.last ≡ Some 0 → IsAtEnd (R.remaining from.new) }
{
    let mut came = 0;
    let mut last = Some(1);
    while came < text.len() {
        last = from.read(&mut text[came..]).ok();
        match last {
            None | Some(0) => break,
            Some(more) => came += more,
        }
    }
    Input { came, last }
}
