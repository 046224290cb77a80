// Checked texts, and the host whose lines are those of one.
#![tactic(auto)]

pub mod checked;
pub mod flaws;
pub mod hosts;
pub mod laws;
mod lines;
