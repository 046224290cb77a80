// The tokens of a source. A name borrows its bytes, and a string what stands between its quotes.
use crate::faults::Fault;

#[derive(Clone, Copy)]
pub enum Keyword {
    False,
    None,
    True,
    And,
    As,
    Assert,
    Async,
    Await,
    Break,
    Class,
    Continue,
    Def,
    Del,
    Elif,
    Else,
    Except,
    Finally,
    For,
    From,
    Global,
    If,
    Import,
    In,
    Is,
    Lambda,
    Nonlocal,
    Not,
    Or,
    Pass,
    Raise,
    Return,
    Try,
    While,
    With,
    Yield,
}

#[derive(Clone, Copy)]
pub enum Symbol {
    Plus,
    Minus,
    Star,
    Percent,
    Less,
    Greater,
    Assign,
    LeftRound,
    RightRound,
    LeftSquare,
    RightSquare,
    Comma,
    Colon,
    Dot,
    Divide,
    AtMost,
    AtLeast,
    Equal,
    Differ,
    Arrow,
}

#[derive(Clone, Copy)]
pub enum Token<'a> {
    Name(&'a [u8]),
    Str(&'a [u8]),
    Int(u32),
    Keyword(Keyword),
    Symbol(Symbol),
    Newline,
    Indent,
    Dedent,
    End,
    Fault(Fault),
}

// A token with the offset of its first byte.
#[derive(Clone, Copy)]
pub struct Placed<'a> {
    pub token: Token<'a>,
    pub at: usize,
}
