// Readers of one token. Each reads the token after a cursor as one symbol of the grammar, stores what the symbol takes of the tables,
// and answers where the reading goes on, or where and why it stops. The contract is `Follows` (specs/Follows.antt), where the tables
// have room; a second one, `Refuses`, says that a token for which a table has no room is refused, and nothing is stored.
// Kept: a reader takes only the tables that it writes: with a struct of all three each contract would say that the others stay.
#![tactic(auto)]

ghost use Rattle.std.specs.Prelude.{◌≡◌, ◌<◌, ◌^◌};
ghost use Rattle.symbol_reader.specs.Leaves.{past};

use grammar::Stop;
use text::Token;

mod marks;
pub mod names;
pub mod numbers;
mod stores;
mod tokens;
pub mod values;
pub mod words;

// Where the reading stands: a place in the text, and how many index cells and values are written.
#[derive(Clone, Copy, Debug, PartialEq, Eq)]
pub struct Cursor {
    pub at: usize,
    pub cells: usize,
    pub values: usize,
}

impl Cursor {
    // The place after a token, where nothing is stored.
    fn past(self, token: Token) -> Cursor
        requires { token.to < 2 ^ 63 }
        ensures { result ≡ past token self }
    {
        Cursor {
            at: token.to + 1,
            ..self
        }
    }
}

// A number that was read, and where the reading goes on.
#[derive(Clone, Copy, Debug, PartialEq, Eq)]
pub struct Next {
    pub number: usize,
    pub cursor: Cursor,
}

// A step of the reading.
pub type Step = Result<Next, Stop>;
