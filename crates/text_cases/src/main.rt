// Runs the functions of `text` on texts on either side of each rule, and writes what they answer. A byte outside 33 to 126
// is written as its number in angle brackets.
#![tactic(auto)]

use std::io;
use std::io::Print;
use text::Token;

fn quoted(out: &impl Print, part: &[u8]) -> io::Result<()> {
    print!(out; "\"")?;
    for b in part {
        if b.is_ascii_graphic() {
            out.write_all(&[*b])?;
        } else {
            print!(out; "<{b}>")?;
        }
    }
    println!(out; "\"")
}

// Writes a token, its line and its bytes.
fn token(out: &impl Print, text: &[u8], token: Token) -> io::Result<()> {
    let Token { from, to } = token;
    print!(out; "  {from}..{to} line {}: ", text::line_of(text, from))?;
    quoted(out, text::show_token(text, from))
}

// Writes the tokens from `at` on.
fn tokens_from(out: &impl Print, text: &[u8], at: usize) -> io::Result<()> {
    let mut next = at;
    while let Some(found) = text::next_token(text, next) {
        token(out, text, found)?;
        next = found.to;
    }
    Ok(())
}

// Writes where the comments of a text end, its tokens, and the line of its end.
fn tokens(out: &impl Print, title: &str, text: &[u8]) -> io::Result<()> {
    let start = text::comments_end(text);
    println!(out; "{title}: comments end at {start}")?;
    tokens_from(out, text, start)?;
    println!(out; "  end line {}", text::line_of(text, text.len()))
}

fn separators(out: &impl Print) -> io::Result<()> {
    tokens(out, "space, tab, CR, LF", b"a b\tc\rd\ne")?;
    tokens(
        out,
        "bytes of a token: 0, 11, 12, 160",
        b"a\x00b c\x0bd e\x0cf g\xa0h",
    )?;
    tokens(out, "the empty text", b"")?;
    tokens(out, "separators only", b" \t\r\n\n ")?;
    tokens(out, "gaps before, between and after", b"  VER \t 1.0\n\n")?;
    tokens(out, "line breaks carry no meaning", b"VER\n1.0")?;
    tokens(out, "braces that touch a word", b"{lin { lin }")?;
    tokens(out, "one byte", b"x")?;
    tokens(out, "any other bytes", b"\x01\x7f\xff -1/2")
}

fn comments(out: &impl Print) -> io::Result<()> {
    tokens(out, "two comments", b"% one\n%two\nVER 1.0\n")?;
    tokens(out, "a comment alone", b"%")?;
    tokens(out, "a comment without LF", b"% VER 1.0")?;
    tokens(out, "a second comment without LF", b"% VER\n%1.0")?;
    tokens(out, "CR ends no comment", b"% a\rVER\n1.0")?;
    tokens(out, "lines that end in CR LF", b"% a\r\nVER\r\n1.0\r\n")?;
    tokens(out, "any bytes in a comment", b"%\x00\xff%\t\nVER")?;
    tokens(out, "an empty comment, a blank line", b"%\n\nVER")?;
    tokens(out, "a blank line before %", b"\n% VER")?;
    tokens(out, "a space before %", b" %VER\n1.0")?;
    tokens(out, "% after the first token", b"VER\n% 1.0\n")?;
    tokens(out, "% within a line", b"% a\nVER %1.0 %")
}

fn lines(out: &impl Print) -> io::Result<()> {
    let text = b"%\na\r\n\nb\n";
    println!(out; "lines")?;
    for place in [0, 1, 2, 4, 5, 6, 7, 8, 9, usize::MAX] {
        println!(out; "  at {place} line {}", text::line_of(text, place))?;
    }
    Ok(())
}

fn word(out: &impl Print, from: usize, to: usize, word: &str) -> io::Result<()> {
    let is_word = text::is_word(b"VER Ver infeas", from, to, word.as_bytes());
    println!(out;
        "  {from}..{to} {} \"{word}\"",
        if is_word { "is" } else { "is not" }
    )
}

fn words(out: &impl Print) -> io::Result<()> {
    println!(out; "words")?;
    word(out, 0, 3, "VER")?;
    word(out, 4, 7, "VER")?;
    word(out, 0, 3, "VE")?;
    word(out, 0, 3, "VERS")?;
    word(out, 8, 14, "infeas")?;
    word(out, 8, 11, "inf")?;
    word(out, 8, 99, "infeas")?;
    word(out, 3, 0, "VER")?;
    word(out, 3, 0, "")?;
    word(out, 99, 102, "")
}

fn shown(out: &impl Print, text: &[u8], place: usize) -> io::Result<()> {
    print!(out; "  at {place}: ")?;
    quoted(out, text::show_token(text, place))
}

fn shows(out: &impl Print) -> io::Result<()> {
    println!(out; "shown")?;
    for place in [0, 1, 2, 3, 4, 5, 7, 8, 10, 11, 12, usize::MAX] {
        shown(out, b"% c\nVER\t1.0", place)?;
    }
    Ok(())
}

fn main(rt: HostRuntime) -> io::Result<()> {
    separators(&rt)?;
    comments(&rt)?;
    lines(&rt)?;
    words(&rt)?;
    shows(&rt)?;
    println!(rt; "shown in the empty text")?;
    shown(&rt, b"", 0)
}
