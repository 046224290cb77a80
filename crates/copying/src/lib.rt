// Lines copied from one host to another.
#![tactic(auto)]

pub mod answers;
pub mod copies;
