// Sets of small numbers as entries, of two kinds: those that cover what lies inside them, and those that cover what lies around them.
#![tactic(auto)]

pub mod apart;
pub mod card;
pub mod kinds;
