// Antichains of entries: what an entry is, what a store of them means, two stores, and what all stores have in common.
#![tactic(auto)]

pub mod arrivals;
pub mod calls;
pub mod entry;
pub mod kind;
pub mod levels;
pub mod limits;
pub mod store;
mod table;
