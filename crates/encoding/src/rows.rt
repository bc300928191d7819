// Rows, given and derived, and solutions.
ghost use Rattle.std.specs.Prelude.{◌≡◌, List, ◌≤◌, ℤ};
ghost use Rattle.tables.specs.Limits.{largest};
ghost use Rattle.tables.specs.declared.Pairs.{Pairs as PairsOf};
ghost use Rattle.grammar.specs.Tree.{Sense as TreeSense, Row, Tree};
ghost use Rattle.grammar.specs.Certificate.{sense_cell};
ghost use Rattle.senses.specs.Senses.{sense_is};
ghost use Rattle.encoding.specs.Places.{indices_at, values_at, side_at, solution_of};
ghost use Rattle.encoding.specs.Encodes.{EncodesRow, HoldsRow};
ghost use Rattle.encoding.specs.Rows.{RowIs};

use crate::Certificate;
use crate::reasons::own_terms;
use linear::lists::Terms;
use senses::{Bound, Sense};
use tables::{Pairs, words};

// A row: the place of its name, the bound of its left side, and where its terms stand, which may be the objective's.
#[derive(Clone, Copy)]
pub struct ListedRow {
    pub place: usize,
    pub bound: Bound,
    pub terms: Pairs,
}

// The sense that a cell has.
fn sense_of(cell: usize) -> Sense
    ensures { (s : TreeSense) → cell ≡ sense_cell s → sense_is result ≡ s }
{
    match cell {
        words::E => Sense::Equal,
        words::L => Sense::AtMost,
        _ => Sense::AtLeast,
    }
}

impl<'a> Certificate<'a> {
    // Where the terms of a row stand: its own, or the objective's. Its sense stands in this cell, its right side has this number.
    #[tactic(auto, unfolding(crate::specs::Places::side_at))]
    fn side(self, cell: usize, number: usize) -> Pairs
        requires { (cell ≤ largest) × (number ≤ largest) }
        ensures { result ≡ side_at self.entry.index.now self.entry.header.objective cell number }
    {
        match own_terms(tables::cell_at(self.index, cell + 1)) {
            None => self.header.objective,
            Some(count) => Pairs {
                cell: cell + 2,
                number: number + 1,
                count,
            },
        }
    }

    // The sense of row r.
    pub fn sense(self, r: usize) -> Sense
        ensures { (tree : Tree) (values : List ℤ) (objective : PairsOf) (row : Row) → EncodesRow tree self.entry.index.now values self.entry.rows.now objective r row → sense_is result ≡ row.sense }
    {
        let entry = tables::entry_at(self.rows, r);
        sense_of(tables::cell_at(self.index, entry.cell))
    }

    // Row r.
    pub fn row(self, r: usize) -> ListedRow
        ensures { (tree : Tree) (row : Row) → HoldsRow tree self.entry r row → RowIs tree self.entry.index.now self.entry.values.now row result }
    {
        let entry = tables::entry_at(self.rows, r);
        ListedRow {
            place: entry.place,
            bound: Bound {
                sense: sense_of(tables::cell_at(self.index, entry.cell)),
                right: tables::value_at(self.values, entry.number),
            },
            terms: self.side(entry.cell, entry.number),
        }
    }

    // Listed terms: of a row, of a solution, of the objective.
    pub fn terms(self, listed: Pairs) -> Terms<'a>
        ensures variables { result.variables.now ≡ indices_at self.entry.index.now listed }
        ensures parts { result.parts.now ≡ values_at self.entry.values.now listed }
    {
        Terms {
            variables: tables::indices_of(self.index, listed),
            parts: tables::values_of(self.values, listed),
        }
    }

    // Where the terms of solution j stand.
    pub fn solution(self, j: usize) -> Pairs
        ensures { result ≡ solution_of self.entry.index.now self.entry.rows.now j }
    {
        let entry = tables::solution_at(self.rows, j);
        Pairs {
            cell: entry.cell + 1,
            number: entry.number,
            count: tables::cell_at(self.index, entry.cell),
        }
    }
}
