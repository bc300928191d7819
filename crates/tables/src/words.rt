// The numbers that index cells take for words. specs/Words.antt has the same numbers for the statements.
// Kept: these are document 01's numbers of the cells of lent tables; enums stand above them, in `senses` and in `encoding`.

// "`min` 0, `max` 1".
pub const MIN: usize = 0;

pub const MAX: usize = 1;

// "`E` 0, `L` 1, `G` 2".
pub const E: usize = 0;

pub const L: usize = 1;

pub const G: usize = 2;

// "`infeas` 0, `range` 1".
pub const INFEAS: usize = 0;

pub const RANGE: usize = 1;

// "Each end of a range takes a cell: 0 infinite .., 1 with a value".
pub const INFINITE: usize = 0;

pub const FINITE: usize = 1;

// "`asm` 0, `lin` 1, `rnd` 2, `uns` 3, `sol` 4".
pub const ASM: usize = 0;

pub const LIN: usize = 1;

pub const RND: usize = 2;

pub const UNS: usize = 3;

pub const SOL: usize = 4;

// "`OBJ` instead of a term list is 65,535, as is a last index of -1".
pub const OBJ: usize = 65535;

pub const NEVER: usize = 65535;
