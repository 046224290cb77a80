// The table of nodes that a routine is read into: children stand before their parents.
#![tactic(auto)]

pub mod arenas;
pub mod growing;
pub mod laws;
pub mod nodes;
mod order;
