// The parts of scanning one token.
use crate::tokens::Token;

// What a run of bytes belongs to.
// It is data, since the rules of tokens speak of each run: a closure would need clauses to say which of the three tests it is.
#[derive(Clone, Copy)]
pub enum Run {
    Word,
    Digits,
    Comment,
}

// Where a reader of a string is: after a number of bytes of its value, past a backslash, past the closing quote, or in no string.
// `Bad` is a state that the automaton stays in, as `Closed` is: a `Result` around the rest would only be longer.
#[derive(Clone, Copy)]
pub enum Quoted {
    Plain(u8),
    Escaped(u8),
    Closed,
    Bad,
}

// A token with the number of its bytes.
#[derive(Clone, Copy)]
pub struct Sized<'a> {
    pub token: Token<'a>,
    pub size: usize,
}
