// What a token is: the words that the rules of reading and the lexer share.
#![tactic(auto)]

pub mod bytes;
pub mod faults;
pub mod laws;
pub mod lines;
pub mod scans;
pub mod tokens;
