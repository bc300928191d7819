// The sections of a certificate, each after its word: sequences of the readers of tokens, lists, rows and derivations. Each reads on from
// a cursor; the contract is `Follows`.
// Kept: a reader takes only the tables that it writes: with a struct of all of them each contract would say that the others stay.
// Kept: each loop stands by itself, since what it keeps of the items so far (marks, rows) is its own invariant.
#![tactic(auto)]

pub mod problem;
pub mod proof;
