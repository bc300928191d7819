// Linear constraints over lists of variable and coefficient, wherever the lists come from, and the tests that checking makes of
// them: running combinations, left sides, domination, absurdity, rounding, splits. A list is lent as two slices, of variables and
// of numbers, numerator and denominator by turns. What is tested of one value or one bound stands in `senses`. No public function
// asks anything of its caller: what holds of fractions and of variables that have their place in the arrays is said of these.
#![tactic(auto)]

pub mod coefficients;
pub mod combinations;
pub mod domination;
pub mod lists;
pub mod points;
pub mod rounding;
pub mod rows;
pub mod splits;
