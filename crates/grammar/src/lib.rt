// What document 01 says of texts that spell certificates is in specs/. The code here is the reasons of refusal, which reading
// and checking share.
#![tactic(auto)]

ghost use Rattle.std.specs.Prelude.{◌≡◌, ◌++◌, Some, codes, decimal};
ghost use Rattle.grammar.specs.Refusals.{refusal_number};

use std::fmt;

// The reasons of refusal, in the order of document 01's table, with its numbers.
#[derive(Clone, Copy, Debug, PartialEq, Eq)]
pub enum Refusal {
    TableTooSmall = 1,
    TextTooLong,
    TokenMissing,
    WrongKind,
    OutOfRange,
    UsedBefore,
    ValueTooWide,
    TokenLeft,
    SolutionFails,
    ClaimNotReached,
    RowSpent,
    ResultTooWide,
    MultipliersNotSuitable,
    CannotBeRounded,
    NoDomination,
    NoProperSplit,
    ClaimNotProved,
    NoSolutionListed,
}

// A refusal's number.
impl From<Refusal> for u8 {
    ghost from_gives = { λ refusal n. n ≡ refusal_number refusal };

    fn from(refusal: Refusal) -> u8 {
        refusal as u8
    }
}

// Where reading or checking stops: the reason, and the byte place of the token, name or word that is refused.
#[derive(Clone, Copy, Debug, PartialEq, Eq)]
pub struct Stop {
    pub reason: Refusal,
    pub place: usize,
}

// A refusal as it is reported: the reason, and the line.
#[derive(Clone, Copy, Debug, PartialEq, Eq)]
pub struct Refused {
    pub reason: Refusal,
    pub line: usize,
}

impl fmt::Display for Refused {
    ghost output = { λ r. Some (codes "refused " ++ (decimal (refusal_number r.reason) ++ (codes " " ++ decimal r.line))) };

    fn fmt<W: fmt::Write>(&self, f: &mut fmt::Formatter<W>) -> fmt::Result {
        write!(f, "refused {} {}", u8::from(self.reason), self.line)
    }
}
