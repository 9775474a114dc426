// Quantified Boolean formulas: what they hold, and the positions, rests and candidates of a play over them.
#![tactic(auto)]

pub mod block;
pub mod candidate;
pub mod formula;
pub mod matrix;
pub mod occurrences;
pub mod prefix;
pub mod referee;
