// Words: those of sections, and those of each choice, every one of them held against the token as a fixed byte string.
ghost use Rattle.std.specs.Prelude.{◌≡◌, false, ◌&&◌, List, map, leb, ℤ, ℕ};
ghost use Rattle.grammar.specs.Format.{symbol, placed, choice};
ghost use Rattle.grammar.specs.Format as F;
ghost use Rattle.grammar.specs.Certificate.{sense, sense_cell, direction, direction_cell, claim_cell, reason_cell, reason_words, is_asm, one_of};
ghost use Rattle.symbol_reader.specs.Steps.{the};
ghost use Rattle.symbol_reader.specs.Follows.{Always, Follows, Refuses};
ghost use Rattle.symbol_reader.specs.Leaves.{Means, token_of, NoCell, senses, directions, claims, cell_of};
ghost use Rattle.tables.specs.Limits.{most_assumptions};

use crate::{Cursor, Next, Step, stores, tokens};
use grammar::Refusal;
use tables::{limits, words};

// ---- this word

// What a token means where the word is due.
fn word_in(token: &[u8], word: &[u8]) -> Result<u16, Refusal>
    ensures means { (place : ℕ) → Means (placed word.now) (λ p. 0) (token_of place token.now) result }
    ensures means_2 { (place : ℕ) → Means (F.word word.now) (λ u. 0) (token_of place token.now) result }
{
    if tokens::is(token, word) {
        Ok(0)
    } else {
        Err(Refusal::WrongKind)
    }
}

// The word is due.
pub fn read_word(text: &[u8], cursor: Cursor, word: &[u8]) -> Step
    ensures { (ix : List ℕ) (vs : List ℤ) (rs : List ℕ) → Follows Always (symbol (F.word word.now)) (the (λ u. 0)) text.now cursor ix vs rs ix vs rs result }
{
    let token = tokens::due(text, cursor)?;
    tokens::passed(cursor, token, word_in(tokens::bytes(text, token), word))
}

// The word is due; its place is handed back.
pub fn read_placed(text: &[u8], cursor: Cursor, word: &[u8]) -> Step
    ensures { (ix : List ℕ) (vs : List ℤ) (rs : List ℕ) → Follows Always (symbol (placed word.now)) (the (λ p. p)) text.now cursor ix vs rs ix vs rs result }
{
    let token = tokens::due(text, cursor)?;
    let next = tokens::passed(cursor, token, word_in(tokens::bytes(text, token), word))?;
    Ok(Next {
        number: token.from,
        ..next
    })
}

// ---- one of some words

// The words of each choice, with the cell that each takes.
const SENSES: [(&[u8], u16); 3] = [
    (b"E", words::E as u16),
    (b"L", words::L as u16),
    (b"G", words::G as u16),
];

const DIRECTIONS: [(&[u8], u16); 2] = [(b"min", words::MIN as u16), (b"max", words::MAX as u16)];

const CLAIMS: [(&[u8], u16); 2] = [
    (b"infeas", words::INFEAS as u16),
    (b"range", words::RANGE as u16),
];

const REASONS: [(&[u8], u16); 5] = [
    (b"asm", words::ASM as u16),
    (b"lin", words::LIN as u16),
    (b"rnd", words::RND as u16),
    (b"uns", words::UNS as u16),
    (b"sol", words::SOL as u16),
];

// What a token means where one of these words is due.
fn choice_in(token: &[u8], choice: &[(&[u8], u16)]) -> Result<u16, Refusal>
    ensures { result ≡ cell_of token.now (map (λ w. (w.0.now, w.1)) choice.now) }
{
    for (word, cell) in choice {
        if tokens::is(token, word) {
            return Ok(*cell);
        }
    }
    Err(Refusal::WrongKind)
}

// A row's sense is due: `E`, `L` or `G`.
pub fn read_sense(text: &[u8], cursor: Cursor, index: &mut [u16]) -> Step
    ensures follows { (vs : List ℤ) (rs : List ℕ) → Follows Always sense (the sense_cell) text.now cursor index.old vs rs index.new vs rs result }
    ensures refuses { Refuses (NoCell index.old) (choice sense_cell senses (λ a. false)) text.now cursor (index.new ≡ index.old) result }
{
    let token = tokens::due(text, cursor)?;
    let meaning = choice_in(tokens::bytes(text, token), &SENSES);
    stores::filled(cursor, token, meaning, index)
}

// The objective's direction is due: `min` or `max`.
pub fn read_direction(text: &[u8], cursor: Cursor, index: &mut [u16]) -> Step
    ensures follows { (vs : List ℤ) (rs : List ℕ) → Follows Always direction (the direction_cell) text.now cursor index.old vs rs index.new vs rs result }
    ensures refuses { Refuses (NoCell index.old) (choice direction_cell directions (λ a. false)) text.now cursor (index.new ≡ index.old) result }
{
    let token = tokens::due(text, cursor)?;
    let meaning = choice_in(tokens::bytes(text, token), &DIRECTIONS);
    stores::filled(cursor, token, meaning, index)
}

// A claim's word is due: `infeas` or `range`.
pub fn read_claim_word(text: &[u8], cursor: Cursor, index: &mut [u16]) -> Step
    ensures follows { (vs : List ℤ) (rs : List ℕ) → Follows Always (one_of claim_cell claims) (the claim_cell) text.now cursor index.old vs rs index.new vs rs result }
    ensures refuses { Refuses (NoCell index.old) (choice claim_cell claims (λ a. false)) text.now cursor (index.new ≡ index.old) result }
{
    let token = tokens::due(text, cursor)?;
    let meaning = choice_in(tokens::bytes(text, token), &CLAIMS);
    stores::filled(cursor, token, meaning, index)
}

// What a token means where a reason's word is due, after so many assumptions: after as many as there may be `asm` is out of range.
fn reason_in(token: &[u8], assumed: usize) -> Result<u16, Refusal>
    ensures { (place : ℕ) → Means (choice reason_cell reason_words (λ w. is_asm w && leb most_assumptions assumed)) reason_cell (token_of place token.now) result }
{
    let word = choice_in(token, &REASONS)?;
    if usize::from(word) == words::ASM && limits::ASSUMPTIONS <= assumed {
        return Err(Refusal::OutOfRange);
    }
    Ok(word)
}

// A reason's word is due, after so many assumptions.
pub fn read_reason_word(text: &[u8], cursor: Cursor, assumed: usize, index: &mut [u16]) -> Step
    ensures follows { (vs : List ℤ) (rs : List ℕ) → Follows Always (symbol (choice reason_cell reason_words (λ w. is_asm w && leb most_assumptions assumed))) (the reason_cell) text.now cursor index.old vs rs index.new vs rs result }
    ensures refuses { Refuses (NoCell index.old) (choice reason_cell reason_words (λ w. is_asm w && leb most_assumptions assumed)) text.now cursor (index.new ≡ index.old) result }
{
    let token = tokens::due(text, cursor)?;
    let meaning = reason_in(tokens::bytes(text, token), assumed);
    stores::filled(cursor, token, meaning, index)
}
