// One token: where it stands, and the answer to it before anything is stored.
ghost use Rattle.std.specs.Prelude.{◌≡◌, ◌<◌, ◌^◌};
ghost use Rattle.std.proofs.Math.Seq.{slice};
ghost use Rattle.text.specs.Bytes.{same};
ghost use Rattle.symbol_reader.specs.Leaves.{Given, Due, stop, Passed};
ghost use Rattle.grammar.specs.declared.Refusal.TheVariants.{TableTooSmall};

use crate::{Cursor, Next, Step};
use grammar::{Refusal, Stop};
use text::Token;

// The token that is due at a cursor.
pub(crate) fn due(text: &[u8], cursor: Cursor) -> Result<Token, Stop>
    ensures { Due text.now cursor.at result }
{
    let missing = Stop {
        reason: Refusal::TokenMissing,
        place: text.len(),
    };
    text::next_token(text, cursor.at).ok_or(missing)
}

// Its bytes.
pub(crate) fn bytes(text: &[u8], token: Token) -> &[u8]
    ensures { result.now ≡ slice token.from token.to text.now }
{
    text::part(text, token.from, token.to)
}

// Its bytes are the word, byte for byte, case included.
pub(crate) fn is(token: &[u8], word: &[u8]) -> bool
    ensures { result ≡ same token.now word.now }
{
    text::is_word(token, 0, token.len(), word)
}

// Its refusal.
pub(crate) fn refused(token: Token, reason: Refusal) -> Stop
    ensures { result ≡ stop reason token.from }
{
    Stop {
        reason,
        place: token.from,
    }
}

// Its refusal for want of room in a table.
pub(crate) fn no_room(token: Token) -> Stop
    ensures { result ≡ stop TableTooSmall token.from }
{
    refused(token, Refusal::TableTooSmall)
}

// The answer to a token with this meaning, where nothing is stored.
pub(crate) fn passed(cursor: Cursor, token: Token, meaning: Result<u16, Refusal>) -> Step
    requires { token.to < 2 ^ 63 }
    ensures { Given meaning (Passed token cursor result) }
{
    let number = meaning.map_err(|reason| refused(token, reason))?;
    Ok(Next {
        number: usize::from(number),
        cursor: cursor.past(token),
    })
}
