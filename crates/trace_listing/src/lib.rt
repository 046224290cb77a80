// The listing of a trace: its lines, copied through a quota, and a summary.
#![tactic(auto)]

pub mod listings;
