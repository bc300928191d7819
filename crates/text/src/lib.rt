// Tokens of a text, its comments and lines, and Show a token. A text is any bytes; a place is a byte's index in it, or any
// number past its end.
#![tactic(auto)]

ghost use Rattle.std.specs.Prelude.{◌≡◌, drop, length, take_while};
ghost use Rattle.std.proofs.Math.Seq.{slice};
ghost use Rattle.text.specs.Bytes.{is_separator, is_digit};
ghost use Rattle.text.specs.Comments.{is_line_byte};
ghost use Rattle.text.specs.Lines.{line_feeds, line_of};
ghost use Rattle.text.specs.Shown.{begins_token};
ghost use Rattle.text.specs.Tokens.{is_token_byte};
ghost use Rattle.text.specs.Promises.{CommentsPassed, TokenScanned, PartTaken, WordCompared, TokenShown};

// A token of a text: the place of its first byte and the place after its last.
#[derive(Clone, Copy, Debug, PartialEq, Eq)]
pub struct Token {
    pub from: usize,
    pub to: usize,
}

// Space, tab, CR, LF.
#[tactic(auto, unfolding(crate::specs::Bytes::is_separator))]
fn is_separator(b: u8) -> bool
    ensures { result ≡ is_separator b }
{
    // Kept: tried, `matches!` makes the scan of a text slower by half.
    b == b' ' || b == b'\t' || b == b'\r' || b == b'\n'
}

// A decimal digit.
#[tactic(auto, unfolding(crate::specs::Bytes::is_digit))]
pub fn is_digit(b: u8) -> bool
    ensures { result ≡ is_digit b }
{
    b.is_ascii_digit()
}

// What is left of the text from the place `at` on.
fn tail(text: &[u8], at: usize) -> &[u8]
    ensures { result.now ≡ drop at text.entry.now }
{
    &text[at.min(text.len())..]
}

// Kept, in the three below: a loop that returns, since `take_while` and `count` take three times as long (docs/PERFORMANCE.md).

// How many separators lead the part.
fn gap(part: &[u8]) -> usize
    ensures { result ≡ length (take_while is_separator part.now) }
{
    let mut len = 0;
    for b in part {
        if !is_separator(*b) {
            return len;
        }
        len += 1;
    }
    len
}

// How many bytes of a token lead the part.
fn token_len(part: &[u8]) -> usize
    ensures { result ≡ length (take_while is_token_byte part.now) }
{
    let mut len = 0;
    for b in part {
        if is_separator(*b) {
            return len;
        }
        len += 1;
    }
    len
}

// How many bytes of a line lead the part.
fn line_len(part: &[u8]) -> usize
    ensures { result ≡ length (take_while is_line_byte part.now) }
{
    let mut len = 0;
    for b in part {
        if *b == b'\n' {
            return len;
        }
        len += 1;
    }
    len
}

// The place after the comments at the start of the text.
pub fn comments_end(text: &[u8]) -> usize
    ensures { CommentsPassed text.now result }
{
    let mut at = 0;
    while at < text.len() && text[at] == b'%' {
        at = (at + line_len(tail(text, at)) + 1).min(text.len());
    }
    at
}

// The first token from the place `at` on.
pub fn next_token(text: &[u8], at: usize) -> Option<Token>
    ensures { TokenScanned text.now at result }
{
    let from = at + gap(tail(text, at));
    if from < text.len() {
        let to = from + token_len(&text[from..]);
        Some(Token { from, to })
    } else {
        None
    }
}

// How many LF bytes.
#[tactic(auto, using(crate::proofs::Turns::feeds_counted))]
fn line_feeds(part: &[u8]) -> usize
    ensures { result ≡ line_feeds part.now }
{
    part.iter().filter(|b| **b == b'\n').count()
}

// The line of a place: 1 plus the LF bytes before it.
pub fn line_of(text: &[u8], place: usize) -> usize
    ensures { result ≡ line_of text.now place }
{
    1 + line_feeds(part(text, 0, place))
}

// The part from .. to of the text, as far as the text goes; one that would begin after its end is empty at that end.
pub fn part(text: &[u8], from: usize, to: usize) -> &[u8]
    ensures { PartTaken text.entry from to result }
{
    let to = to.min(text.len());
    &text[from.min(to)..to]
}

// The token from .. to is the word, byte for byte, case included.
pub fn is_word(text: &[u8], from: usize, to: usize, word: &[u8]) -> bool
    ensures { WordCompared (slice from to text.now) word.now result }
{
    part(text, from, to) == word
}

// A token begins at the place: no separator stands there, and none but a separator before it.
#[tactic(auto, unfolding(crate::specs::Shown::begins_token))]
fn begins_token(text: &[u8], place: usize) -> bool
    ensures { result ≡ begins_token text.now place }
{
    place < text.len()
        && !is_separator(text[place])
        && (place == 0 || is_separator(text[place - 1]))
}

// Show a token: the token that begins at the place, as that part of the text itself; else an empty part at the text's end.
pub fn show_token(text: &[u8], place: usize) -> &[u8]
    ensures { TokenShown text.entry place result }
{
    if begins_token(text, place) {
        &text[place..place + token_len(tail(text, place))]
    } else {
        &text[text.len()..]
    }
}
