// Lines, fields and numbers of a text, and the line that a fault stands in.
#![tactic(auto)]

pub mod cut;
pub mod faulty;
pub mod fields;
pub mod lines;
pub mod number;
