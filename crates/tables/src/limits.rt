// The limits of document 01. specs/Limits.antt has the same numbers for the statements.

// "variables n 0 to 256".
pub const VARIABLES: usize = 256;

// "m 0 to 1,024", "d 0 to 1,024 - m": rows, given and derived.
pub const ROWS: usize = 1024;

// "s 0 to 64".
pub const SOLUTIONS: usize = 64;

// "The 65th word `asm` is 5".
pub const ASSUMPTIONS: usize = 64;

// The row table's entries: one for each row and each solution.
pub const ENTRIES: usize = 1088;

// "text over 32,768 bytes".
pub const TEXT_BYTES: usize = 32768;

// "cells needed" of the index table, the value table and the row table.
pub const INDEX_CELLS: usize = 16384;

pub const VALUE_CELLS: usize = 16384;

pub const ROW_CELLS: usize = 4352;

// "index table, u16", "row table, u16": the largest number that a cell holds.
pub const LARGEST: usize = 65535;
