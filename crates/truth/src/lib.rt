// Quantifiers, clauses and verdicts: what a formula is, when it is well formed, and when it is true.
#![tactic(auto)]

pub mod assignment;
pub mod limits;
pub mod literal;
pub mod verdict;
