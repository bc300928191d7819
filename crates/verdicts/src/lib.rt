// What a test of a certificate that was read answers.
#![tactic(auto)]

use grammar::Stop;

// Nothing to refuse; or the first reason, and the place of the name or word that it is refused at.
pub type Verdict = Result<(), Stop>;
