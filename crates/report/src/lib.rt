// What programs print of a formula and of a refusal. What is printed is tested, and not proved.
#![tactic(auto)]

pub mod block;
pub mod refusal;
pub mod shape;
