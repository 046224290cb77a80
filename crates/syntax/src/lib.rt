// Reading a routine's source: from bytes to tokens, and from tokens to the tree or the first token refused.
#![tactic(auto)]

pub mod laws;
