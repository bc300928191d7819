// Values, and the ends of a range.
ghost use Rattle.std.specs.Prelude.{◌≡◌, List, [], ◌∷◌, ℕ, ℤ};
ghost use Rattle.grammar.specs.Format.{symbol, or};
ghost use Rattle.grammar.specs.Format as F;
ghost use Rattle.grammar.specs.Certificate.{plain_value};
ghost use Rattle.symbol_reader.specs.Steps.{the};
ghost use Rattle.symbol_reader.specs.Follows.{ForValue, Follows, Refuses};
ghost use Rattle.symbol_reader.specs.Leaves.{Means, token_of, NoValue, NoEnd, or_cell};

use crate::{Cursor, Step, stores, tokens};
use arithmetic::Fraction;
use grammar::Refusal;
use tables::words;
use value::ValueError;

// What a token means where a value is due.
fn value_in(token: &[u8]) -> Result<Fraction, Refusal>
    ensures { (place : ℕ) (cells : List ℕ) → Means (F.value cells) (λ f. f) (token_of place token.now) result }
{
    value::read_value(token).map_err(|error| match error {
        ValueError::NotAValue => Refusal::WrongKind,
        ValueError::TooWide => Refusal::ValueTooWide,
    })
}

// A value is due, after a token that is none.
pub fn read_value(text: &[u8], cursor: Cursor, values: &mut [i32]) -> Step
    ensures by_index { (ix : List ℕ) (rs : List ℕ) → Follows ForValue plain_value (the (λ f. 0)) text.now cursor ix values.old rs ix values.new rs result }
    ensures refuses { Refuses (NoValue values.old) (F.value []) text.now cursor (values.new ≡ values.old) result }
{
    let token = tokens::due(text, cursor)?;
    stores::valued(cursor, token, value_in(tokens::bytes(text, token)), values)
}

// An end of a range is due, after a token that is no value: the word for infinity, which takes the cell 0, or a value, which takes
// the cell 1.
pub fn read_end(
    text: &[u8],
    cursor: Cursor,
    word: &[u8],
    index: &mut [u16],
    values: &mut [i32],
) -> Step
    ensures by_index { (rs : List ℕ) → Follows ForValue (symbol (or word.now 0 (F.value (1 ∷ [])))) (the (or_cell 0 (λ f. 1))) text.now cursor index.old values.old rs index.new values.new rs result }
    ensures refuses { Refuses (NoEnd text.now word.now index.old values.old) (or word.now 0 (F.value (1 ∷ []))) text.now cursor ((index.new ≡ index.old) × (values.new ≡ values.old)) result }
{
    let token = tokens::due(text, cursor)?;
    let bytes = tokens::bytes(text, token);
    if tokens::is(bytes, word) {
        return stores::filled(cursor, token, Ok(words::INFINITE as u16), index);
    }
    stores::ended(cursor, token, value_in(bytes), index, values)
}
