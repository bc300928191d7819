// The line that is printed for a text.
ghost use Rattle.std.specs.Prelude.{◌≡◌, Err};
ghost use Rattle.checker.specs.Promise.{verification_says};
ghost use Rattle.program.specs.Line.{LineMade, line_for};

use crate::ROOM;
use arrayvec::ArrayString;
use grammar::Refused;
use itoa::Buffer;

// The line for a refusal.
fn refused_line(refused: Refused) -> ArrayString<50>
    ensures { result.bytes ≡ line_for (verification_says (Err refused)) }
{
    let mut line = ArrayString::new();
    line.push_str("refused ");
    line.push_str(Buffer::new().format(u8::from(refused.reason)));
    line.push_str(" ");
    line.push_str(Buffer::new().format(refused.line));
    line.push_str("\n");
    line
}

// The line for an answer.
fn line_of(answer: Result<(), Refused>) -> ArrayString<50>
    ensures { result.bytes ≡ line_for (verification_says answer) }
{
    match answer {
        Ok(()) => {
            let mut line = ArrayString::new();
            line.push_str("verified\n");
            line
        }
        Err(refused) => refused_line(refused),
    }
}

// The line for the bytes that came, at the start of the text's room. A number beyond the room means all of it.
pub fn answer(text: &[u8; ROOM], came: usize) -> ArrayString<50>
    ensures { LineMade text.now came result.bytes }
{
    let mut index = [0u16; 16384];
    let mut values = [0i32; 16384];
    let mut rows = [0u16; 4352];
    let room: &[u8] = text;
    let came = came.min(room.len());
    let answer = checker::verify(&room[..came], &mut index, &mut values, &mut rows);
    line_of(answer)
}
