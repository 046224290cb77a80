// The verdict on a source, as a line of text.
#![tactic(auto)]

pub mod checking;
