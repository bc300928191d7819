// The integer variables.
ghost use Rattle.std.specs.Prelude.{◌≡◌, false, ◌&&◌, ℕ, eqb, ltb, get_or};
ghost use Rattle.tables.specs.Limits.{most_variables};
ghost use Rattle.rules.specs.Tests.{some_of};
ghost use Rattle.encoding.specs.Places.{integers_at};

use crate::Certificate;
use tables::limits;

// The index cell of the first of them: the number of variables and their own count stand before it.
const FIRST: usize = 2;

impl<'a> Certificate<'a> {
    // The integer variables, as INT lists them.
    pub fn integers(self) -> &'a [u16]
        ensures { result.now ≡ integers_at self.entry.index.now self.entry.header.integers }
    {
        tables::cells_of(self.index, FIRST, self.header.integers)
    }
}

// Which variables a list has.
pub fn marks_of(variables: &[u16]) -> [bool; 256]
    ensures { (v : ℕ) → get_or result v false ≡ ltb v most_variables && some_of (λ i. eqb i v) variables.now }
{
    let mut marks = [false; limits::VARIABLES];
    for variable in variables {
        let v = *variable as usize;
        if v < limits::VARIABLES {
            marks[v] = true;
        }
    }
    marks
}
