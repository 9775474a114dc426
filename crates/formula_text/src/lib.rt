// The text of a formula: read exactly, or refused with the one fault due.
#![tactic(auto)]

mod bind;
mod block_line;
mod clause_line;
mod counts;
mod gather;
mod grow;
mod header;
mod kind;
mod literals;
pub mod read;
