// Read a certificate: a text and three lent tables to filled tables and a header, or a refusal.
#![tactic(auto)]

ghost use Rattle.reader.specs.Promise.{CertificateRead};

use grammar::{Refusal, Refused};
use tables::Header;

mod documents;

// Reads a text into the tables, whatever stood in them, and answers its counts and places. After a refusal for a table or the
// text's length they are as they were, after any other they are all zero.
pub fn read_certificate(
    text: &[u8],
    index: &mut [u16],
    values: &mut [i32],
    rows: &mut [u16],
) -> Result<Header, Refused>
    ensures { CertificateRead text.now index.old values.old rows.old index.new values.new rows.new result }
{
    if !tables::has_cells(index, values, rows) {
        return Err(Refused {
            reason: Refusal::TableTooSmall,
            line: 0,
        });
    }
    if !tables::is_short(text) {
        return Err(Refused {
            reason: Refusal::TextTooLong,
            line: 0,
        });
    }
    tables::clear(index, values, rows);
    match documents::read_document(text, index, values, rows) {
        Ok(header) => Ok(header),
        Err(stop) => {
            tables::clear(index, values, rows);
            Err(Refused {
                reason: stop.reason,
                line: text::line_of(text, stop.place),
            })
        }
    }
}
