// Decimal numerals, written at the front of a place that the caller gives.
#![tactic(auto)]

pub mod errors;
pub mod laws;
pub mod writer;
