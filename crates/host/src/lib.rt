// Hosts: what a routine takes its lines from and prints its lines to, the layers over them, and the checked bytes that
// they read.
#![tactic(auto)]

pub mod admission;
pub mod checks;
pub mod choices;
pub mod formats;
pub mod hosts;
pub mod quotas;
pub mod refusals;
pub mod unread;
