// Lists of pairs, rows and derivations, over the readers of one token: sequences and loops of them. Each reads on from a cursor; the
// contract is `Follows`.
// Kept: each loop stands by itself, since what it keeps of the items so far (marks, fingerprints, assumptions) is its own invariant.
// Kept: index, values, rows and prints go apart, since a reader takes only those that it writes and says nothing of the others.
#![tactic(auto)]

pub mod derivations;
pub mod lists;
pub mod rows;
