// A print buffer of fixed room.
#![tactic(auto)]

pub mod appending;
pub mod buffers;
