// What every part of the library refuses with: a cause, its layer and number, and the line at fault.
#![tactic(auto)]

pub mod cause;
pub mod fault;
pub mod layer;
