// Entries of certificates: what a position at a level is known to be, and the two kinds that stores keep.
#![tactic(auto)]

pub mod entry;
pub mod kinds;
