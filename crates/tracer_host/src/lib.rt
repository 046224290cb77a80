// Checked traces, and the host whose lines are the radii of one.
#![tactic(auto)]

pub mod checked;
pub mod flaws;
pub mod frame_buffers;
pub mod framing;
pub mod hosts;
pub mod laws;
mod words;
