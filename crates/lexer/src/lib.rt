// The lexer: from the bytes of a source to its tokens.
#![tactic(auto)]

mod gap;
mod levels;
mod numbers;
mod reader;
mod runs;
mod scan;
mod source;
pub mod state;
mod text;
mod words;
