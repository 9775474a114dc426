// Certificates: entries are checked against a formula, and accepted ones are played.
#![tactic(auto)]

pub mod accepted;
mod assign;
pub mod check;
mod checker;
mod covers;
mod index;
mod levels;
mod mover;
pub mod outcome;
pub mod plays;
pub mod position;
pub mod runs;
mod scene;
pub mod turns;
