// The reasons of derived rows, and their last indices.
ghost use Rattle.std.specs.Prelude.{◌≡◌, ℕ, ◌≤◌, MatchOption};
ghost use Rattle.tables.specs.Words.{OBJ};
ghost use Rattle.tables.specs.Limits.{largest};
ghost use Rattle.grammar.specs.Certificate.{ReasonWord, reason_cell};
ghost use Rattle.encoding.specs.Places.{own_terms, word_of, multipliers_of, named_by, after_word};
ghost use Rattle.encoding.specs.Rows.{ReasonIs, LastIs, IsWord, word_says};

use crate::Certificate;
use tables::{Pairs, words};

// The word of a reason.
#[derive(Clone, Copy, Debug, PartialEq, Eq)]
pub enum Word {
    Asm,
    Lin,
    Rnd,
    Uns,
    Sol,
}

// The word that a cell is read as.
impl From<usize> for Word {
    ghost from_gives = { IsWord };

    fn from(cell: usize) -> Word {
        match cell {
            words::ASM => Word::Asm,
            words::LIN => Word::Lin,
            words::RND => Word::Rnd,
            words::UNS => Word::Uns,
            _ => Word::Sol,
        }
    }
}

impl Word {
    // How many cells follow the word, by the cell after it.
    #[tactic(auto, unfolding(crate::specs::Places::after_word))]
    fn cells_after(self, count: usize) -> usize
        requires { count ≤ largest }
        ensures { (cell : ℕ) → IsWord cell self → result ≡ after_word cell count }
    {
        match self {
            Word::Uns => 4,
            Word::Lin | Word::Rnd => 1 + count,
            Word::Asm | Word::Sol => 0,
        }
    }
}

// How many terms of its own a row lists, by the cell after its sense; none where `OBJ` stands.
pub(crate) fn own_terms(cell: usize) -> Option<usize>
    ensures { MatchOption result (cell ≡ OBJ) (λ count. ¬ (cell ≡ OBJ) × (count ≡ cell)) }
{
    if cell == words::OBJ { None } else { Some(cell) }
}

impl<'a> Certificate<'a> {
    // The cell of the word of row r's reason.
    #[tactic(auto, unfolding(crate::specs::Places::own_terms))]
    fn reason(self, r: usize) -> usize
        ensures { ReasonIs self.entry.index.now self.entry.rows.now r result }
    {
        let entry = tables::entry_at(self.rows, r);
        entry.cell + 2 + own_terms(tables::cell_at(self.index, entry.cell + 1)).unwrap_or(0)
    }

    // The word of row r's reason.
    pub fn word(self, r: usize) -> Word
        ensures is { IsWord (word_of self.entry.index.now self.entry.rows.now r) result }
        ensures says { (x : ReasonWord) → word_of self.entry.index.now self.entry.rows.now r ≡ reason_cell x → word_says result ≡ x }
    {
        Word::from(tables::cell_at(self.index, self.reason(r)))
    }

    // Where the multipliers of row r's reason stand, if it is `lin` or `rnd`.
    #[tactic(auto, unfolding(crate::specs::Places::own_terms))]
    pub fn multipliers(self, r: usize) -> Pairs
        ensures { result ≡ multipliers_of self.entry.index.now self.entry.rows.now r }
    {
        let entry = tables::entry_at(self.rows, r);
        let own = own_terms(tables::cell_at(self.index, entry.cell + 1)).unwrap_or(0);
        let at = entry.cell + 2 + own + 1;
        let count = tables::cell_at(self.index, at);
        Pairs {
            cell: at + 1,
            number: entry.number + 1 + own,
            count,
        }
    }

    // The rows that row r's reason names, in order.
    #[tactic(auto, unfolding(crate::specs::Places::named_by))]
    pub fn named(self, r: usize) -> &'a [u16]
        ensures { result.now ≡ named_by self.entry.index.now self.entry.rows.now r }
    {
        match self.word(r) {
            Word::Uns => tables::cells_of(self.index, self.reason(r) + 1, 4),
            Word::Lin | Word::Rnd => tables::indices_of(self.index, self.multipliers(r)),
            Word::Asm | Word::Sol => &[],
        }
    }

    // The last index of row r; none is never.
    pub fn last(self, r: usize) -> Option<usize>
        ensures { LastIs self.entry.index.now self.entry.rows.now r result }
    {
        let cell = self.reason(r);
        let word = Word::from(tables::cell_at(self.index, cell));
        let after = word.cells_after(tables::cell_at(self.index, cell + 1));
        let last = tables::cell_from(self.index, cell + 1, after);
        if last == words::NEVER {
            None
        } else {
            Some(last)
        }
    }
}
