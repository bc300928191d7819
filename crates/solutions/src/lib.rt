// The solutions of a certificate in tables (document 01, "Solutions, then derivations"): whether each of them is feasible, and
// what comes of their objectives. No function asks anything of its caller: tables are of any size and content, and what is said
// of a certificate holds of tables that encode it.
#![tactic(auto)]

pub mod feasibility;
pub mod objectives;
mod points;
