// Reading a routine into a table of nodes, by functions that call each other.
#![tactic(auto)]

pub mod answers;
mod bodies;
mod classes;
mod definitions;
mod depths;
mod expressions;
pub mod feeding;
pub mod feeds;
pub mod forms;
mod functions;
pub mod growths;
mod items;
pub mod kinds;
mod levels;
mod lines;
mod locals;
mod making;
mod parameters;
mod parsers;
mod programs;
mod reading;
pub mod reasons;
pub mod refusals;
mod scopes;
mod statements;
pub mod tables;
mod taking;
mod types;
