// Verify a certificate: reading, then checking.
#![tactic(auto)]

ghost use Rattle.checker.specs.Promise.{CertificateVerified};

use encoding::Certificate;
use grammar::Refused;

mod checking;

// Reads a text into the tables, whatever stood in them, and checks what was read. The tables are left as reading leaves them.
// Where the answer is `Ok`, the sentence about points holds of the text: each listed solution is feasible, and no feasible point
// lies beyond the verified bound (`verified_means` of the contract).
// Kept: the tables are lent one by one, as a caller in C lends them.
pub fn verify(
    text: &[u8],
    index: &mut [u16],
    values: &mut [i32],
    rows: &mut [u16],
) -> Result<(), Refused>
    ensures { CertificateVerified text.now index.old values.old rows.old index.new values.new rows.new result }
{
    let header = reader::read_certificate(text, index, values, rows)?;
    let certificate = Certificate {
        index,
        values,
        rows,
        header,
    };
    checking::check(certificate).map_err(|stop| Refused {
        reason: stop.reason,
        line: text::line_of(text, stop.place),
    })
}
