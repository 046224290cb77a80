// Numbers written into a print buffer.
#![tactic(auto)]

pub mod appending;
pub mod errors;
