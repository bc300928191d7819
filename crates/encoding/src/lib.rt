// Certificates in tables: where the parts of a certificate are found in tables that encode it (specs/Encodes.antt). No function
// asks anything of its caller: it fetches from tables of any size and content, and what it says of a certificate holds of tables
// that encode one.
#![tactic(auto)]

use tables::Header;

pub mod claims;
pub mod integer_variables;
pub mod reasons;
pub mod rows;

// A certificate in tables: the index table, the value table, the row table, and the counts and places of its parts.
#[derive(Clone, Copy)]
pub struct Certificate<'a> {
    pub index: &'a [u16],
    pub values: &'a [i32],
    pub rows: &'a [u16],
    pub header: Header,
}
