// Runs Read one value on the lines of standard input, on tokens that no line can hold and on long ones. Writes a line for
// each: the token or its description, then the fraction or the refusal. Then works out powers of ten, a line each.
#![tactic(auto)]

use case_texts::read_full;
use std::io;
use std::io::Print;
use value::ValueError;

// Reads a token, and writes its line under a name.
fn case(out: &impl Print, name: &[u8], token: &[u8]) -> io::Result<()> {
    out.write_all(name)?;
    match value::read_value(token) {
        Ok(f) => println!(out; " is {f}"),
        Err(ValueError::NotAValue) => println!(out; " refused 4"),
        Err(ValueError::TooWide) => println!(out; " refused 7"),
    }
}

// Each line of a text as a token.
fn lines(out: &impl Print, text: &[u8]) -> io::Result<()> {
    for line in text.split_inclusive(|b| *b == b'\n') {
        let token = line.strip_suffix(b"\n").unwrap_or(line);
        case(out, token, token)?;
    }
    Ok(())
}

fn other_bytes(out: &impl Print) -> io::Result<()> {
    case(out, b"an LF", b"\n")?;
    case(out, b"5 and an LF", b"5\n")?;
    case(out, b"a NUL", b"\0")?;
    case(out, b"5 and a NUL", b"5\0")?;
    case(out, b"5 and byte 160", b"5\xa0")?;
    case(out, b"byte 255 and 5", b"\xff5")
}

fn long_whole(out: &impl Print) -> io::Result<()> {
    let mut t = [b'0'; 4001];
    case(out, b"4,001 zeros", &t)?;
    t[4000] = b'5';
    case(out, b"4,000 zeros, then 5", &t)?;
    t[0] = b'-';
    case(out, b"minus, 3,999 zeros, then 5", &t)?;
    t[0] = b'1';
    case(out, b"1, 3,999 zeros, then 5", &t)
}

fn long_decimal(out: &impl Print) -> io::Result<()> {
    let mut t = [b'0'; 4001];
    t[1] = b'.';
    case(out, b"0, a point, then 3,999 zeros", &t)?;
    t[0] = b'5';
    case(out, b"5, a point, then 3,999 zeros", &t)?;
    t[2] = b'5';
    case(out, b"5.5, then 3,998 zeros", &t)?;
    t[4000] = b'5';
    case(out, b"5.5, 3,997 zeros, then 5", &t)?;
    t[4000] = b'x';
    case(out, b"5.5, 3,997 zeros, then x", &t)
}

fn long_quotient(out: &impl Print) -> io::Result<()> {
    let mut t = [b'0'; 4001];
    t[0] = b'1';
    t[1] = b'/';
    case(out, b"1, a slash, then 3,999 zeros", &t)?;
    t[4000] = b'2';
    case(out, b"1, a slash, 3,998 zeros, then 2", &t)?;
    t[2] = b'2';
    case(out, b"1, a slash, 2, 3,997 zeros, then 2", &t)?;
    t[4000] = b'/';
    case(out, b"1, a slash, 2, 3,997 zeros, then a slash", &t)
}

// A token of 4,001 bytes with an exponent of four digits at its end.
fn ended(mut t: [u8; 4001], sign: u8, digits: &[u8; 4]) -> [u8; 4001] {
    t[3995] = b'E';
    t[3996] = sign;
    t[3997..].copy_from_slice(digits);
    t
}

fn long_significand(out: &impl Print) -> io::Result<()> {
    let mut t = [b'0'; 4001];
    case(out, b"3,995 zeros, then E+9999", &ended(t, b'+', b"9999"))?;
    t[3994] = b'7';
    case(
        out,
        b"3,994 zeros, 7, then E+0008",
        &ended(t, b'+', b"0008"),
    )?;
    t[0] = b'1';
    case(
        out,
        b"1, 3,993 zeros, 7, then E-3994",
        &ended(t, b'-', b"3994"),
    )?;
    t[3994] = b'0';
    case(
        out,
        b"1, 3,994 zeros, then E-3994",
        &ended(t, b'-', b"3994"),
    )?;
    case(
        out,
        b"1, 3,994 zeros, then E-3985",
        &ended(t, b'-', b"3985"),
    )?;
    case(
        out,
        b"1, 3,994 zeros, then E-3984",
        &ended(t, b'-', b"3984"),
    )?;
    case(
        out,
        b"1, 3,994 zeros, then E+3994",
        &ended(t, b'+', b"3994"),
    )?;
    case(
        out,
        b"1, 3,994 zeros, then E*3994",
        &ended(t, b'*', b"3994"),
    )
}

fn long_decimals(out: &impl Print) -> io::Result<()> {
    let mut t = [b'0'; 4001];
    t[1] = b'.';
    case(
        out,
        b"0, a point, 3,993 zeros, then E+9999",
        &ended(t, b'+', b"9999"),
    )?;
    t[3993] = b'1';
    t[3994] = b'5';
    case(
        out,
        b"0, a point, 3,991 zeros, 15, then E+3993",
        &ended(t, b'+', b"3993"),
    )?;
    case(
        out,
        b"0, a point, 3,991 zeros, 15, then E+3983",
        &ended(t, b'+', b"3983"),
    )?;
    case(
        out,
        b"0, a point, 3,991 zeros, 15, then E+3974",
        &ended(t, b'+', b"3974"),
    )?;
    case(
        out,
        b"0, a point, 3,991 zeros, 15, then E-3993",
        &ended(t, b'-', b"3993"),
    )?;
    t[0] = b'2';
    case(
        out,
        b"2, a point, 3,991 zeros, 15, then E+0000",
        &ended(t, b'+', b"0000"),
    )?;
    t[3993] = b'0';
    t[3994] = b'0';
    case(
        out,
        b"2, a point, 3,993 zeros, then E+0008",
        &ended(t, b'+', b"0008"),
    )?;
    case(
        out,
        b"2, a point, 3,993 zeros, then E-0009",
        &ended(t, b'-', b"0009"),
    )
}

fn long_exponent(out: &impl Print) -> io::Result<()> {
    let mut t = [b'0'; 4001];
    t[1] = b'E';
    case(out, b"0E, then 3,999 zeros", &t)?;
    t[0] = b'7';
    case(out, b"7E, then 3,999 zeros", &t)?;
    t[4000] = b'8';
    case(out, b"7E, 3,998 zeros, then 8", &t)?;
    t[2] = b'-';
    case(out, b"7E-, 3,997 zeros, then 8", &t)?;
    t[3] = b'1';
    case(out, b"7E-1, 3,996 zeros, then 8", &t)?;
    t[2] = b'+';
    case(out, b"7E+1, 3,996 zeros, then 8", &t)?;
    t[0] = b'0';
    case(out, b"0E+1, 3,996 zeros, then 8", &t)?;
    t[4000] = b'x';
    case(out, b"0E+1, 3,996 zeros, then x", &t)
}

// The power of ten for a number, under that number.
fn power(out: &impl Print, k: usize) -> io::Result<()> {
    println!(out; "10 to the power {k} is {}", powers::power_of_ten(k))
}

// The powers for 0 to 20, and for numbers further above: those whose low bits are 0 or 18, and the greatest.
fn all_powers(out: &impl Print) -> io::Result<()> {
    for k in 0..=20 {
        power(out, k)?;
    }
    for k in [256, 274, 4294967296, 4294967314, usize::MAX] {
        power(out, k)?;
    }
    Ok(())
}

fn main(rt: HostRuntime) -> io::Result<()> {
    let mut input = [0u8; 65536];
    let n = read_full(&mut rt.stdin(), &mut input)?;
    lines(&rt, &input[..n])?;
    other_bytes(&rt)?;
    long_whole(&rt)?;
    long_decimal(&rt)?;
    long_quotient(&rt)?;
    long_significand(&rt)?;
    long_decimals(&rt)?;
    long_exponent(&rt)?;
    all_powers(&rt)
}
