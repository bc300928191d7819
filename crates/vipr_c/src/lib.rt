// Read one value, Read a certificate, Verify a certificate and Show a token for C: what is returned is 0 or 01's number of the
// refusal, results go through pointers, and the tables are the caller's. include/vipr.h declares the functions.
// Kept: the C interface has numbers for refusals, and a pointer for each part of a result and each table.
#![tactic(auto)]

ghost use Rattle.std.specs.Prelude.{◌≡◌, ◌≤◌, IfErr};
ghost use Rattle.fraction.specs.Stored.{pair};
ghost use Rattle.vipr_c.specs.Values.{ValueReturned};
ghost use Rattle.vipr_c.specs.Shown.{TokenMeasured};
ghost use Rattle.vipr_c.specs.Certificates.{reply, reply_to, CertificateReturned, VerificationReturned};

use grammar::{Refusal, Refused};
use value::ValueError;

// Read one value: the fraction that a token spells, stored; or 4 or 7, and nothing stored.
#[unsafe(no_mangle)]
pub extern "C" fn vipr_read_value(token: &[u8], num: &mut i32, den: &mut i32) -> u8
    ensures { ValueReturned token.now result
        (pair num.old den.old) (pair num.new den.new) }
{
    match value::read_value(token) {
        Ok(fraction) => {
            *num = fraction.num;
            *den = fraction.den;
            0
        }
        Err(ValueError::NotAValue) => Refusal::WrongKind.into(),
        Err(ValueError::TooWide) => Refusal::ValueTooWide.into(),
    }
}

// Show a token: the number of bytes of the token that begins at the place, or 0 where none does.
#[unsafe(no_mangle)]
pub extern "C" fn vipr_show_token(text: &[u8], place: usize) -> usize
    ensures { TokenMeasured text.now place result }
{
    text::show_token(text, place).len()
}

// What C is told of an answer: 0, with line 0 stored; or the number of a refusal, with its line stored.
fn reply<T: Drop>(answer: Result<T, Refused>, line: &mut u32) -> u8
    requires { IfErr answer (λ refused. refused.line ≤ 32769) }
    ensures { reply result line.new ≡ reply_to answer }
{
    match answer {
        Ok(_) => {
            *line = 0;
            0
        }
        Err(refused) => {
            *line = refused.line as u32;
            refused.reason.into()
        }
    }
}

// Read a certificate: 0 and line 0, with the tables filled; or the reason and the line.
#[unsafe(no_mangle)]
pub extern "C" fn vipr_read_certificate(
    text: &[u8],
    index: &mut [u16],
    values: &mut [i32],
    rows: &mut [u16],
    line: &mut u32,
) -> u8
    ensures { CertificateReturned text.now index.old values.old rows.old index.new values.new rows.new result line.new }
{
    reply(reader::read_certificate(text, index, values, rows), line)
}

// Verify a certificate: 0 and line 0; or the reason and the line. The tables are left as reading leaves them.
#[unsafe(no_mangle)]
pub extern "C" fn vipr_verify(
    text: &[u8],
    index: &mut [u16],
    values: &mut [i32],
    rows: &mut [u16],
    line: &mut u32,
) -> u8
    ensures { VerificationReturned text.now index.old values.old rows.old index.new values.new rows.new result line.new }
{
    reply(checker::verify(text, index, values, rows), line)
}
