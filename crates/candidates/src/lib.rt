// The values of a block that can decide a position: none of them leaves more clauses than it must.
#![tactic(auto)]

pub mod choice;
pub mod choices;
mod walk;
