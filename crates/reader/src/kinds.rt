// Tokens as the grammar takes them.
ghost use Rattle.std.specs.Prelude.{◌≡◌, ℕ, List};
ghost use Rattle.lexis.specs.Tokens.{model, placed as stood};
ghost use Rattle.syntax.specs.Reading.{keyword_kind, symbol_kind, token_of};
ghost use Rattle.lexer.specs.Standing.{Stands};
ghost use Rattle.reader.specs.Kinds.{kind_model, next_token};

use arena::nodes::BinaryOperator;
use lexis::faults::Fault;
use lexis::tokens::{Keyword, Placed, Symbol, Token};

// What is only compared with what must come.
#[derive(Clone, Copy, PartialEq, Eq)]
pub enum Mark {
    RightRound,
    RightSquare,
    Comma,
    Assign,
    Colon,
    Arrow,
    Newline,
    Indent,
    Dedent,
    End,
    Class,
    Def,
    Global,
    Nonlocal,
    Pass,
    Return,
    If,
    Elif,
    Else,
    While,
    For,
    In,
    // a keyword without a use
    Unused,
}

// A constant that is no string. `Literal` has these cases by themselves and not as one: it is public, and they stay.
#[derive(Clone, Copy)]
pub enum Constant {
    None,
    True,
    False,
    Integer(u32),
}

// A name, and what stands between a string's quotes, by its length: it stands at the token's place, or just after it.
#[derive(Clone, Copy)]
pub enum Kind {
    Name(usize),
    Text(usize),
    Constant(Constant),
    Dot,
    LeftRound,
    LeftSquare,
    Not,
    Operator(BinaryOperator),
    Mark(Mark),
    Fault(Fault),
}

// The next token, and its place. That it is the next one of a feed is a fact about both, and ends when the feed goes on: so
// the functions that take it ask for the fact, and no type has it.
#[derive(Clone, Copy)]
pub struct Next {
    pub kind: Kind,
    pub place: usize,
}

impl From<Keyword> for Kind {
    ghost from_gives = { λ keyword kind. (src : List ℕ) (p : ℕ) → kind_model src p kind ≡ keyword_kind keyword };

    fn from(keyword: Keyword) -> Kind {
        match keyword {
            Keyword::None => Kind::Constant(Constant::None),
            Keyword::True => Kind::Constant(Constant::True),
            Keyword::False => Kind::Constant(Constant::False),
            Keyword::And => Kind::Operator(BinaryOperator::And),
            Keyword::Or => Kind::Operator(BinaryOperator::Or),
            Keyword::Is => Kind::Operator(BinaryOperator::Is),
            Keyword::Not => Kind::Not,
            Keyword::Class => Kind::Mark(Mark::Class),
            Keyword::Def => Kind::Mark(Mark::Def),
            Keyword::Global => Kind::Mark(Mark::Global),
            Keyword::Nonlocal => Kind::Mark(Mark::Nonlocal),
            Keyword::Pass => Kind::Mark(Mark::Pass),
            Keyword::Return => Kind::Mark(Mark::Return),
            Keyword::If => Kind::Mark(Mark::If),
            Keyword::Elif => Kind::Mark(Mark::Elif),
            Keyword::Else => Kind::Mark(Mark::Else),
            Keyword::While => Kind::Mark(Mark::While),
            Keyword::For => Kind::Mark(Mark::For),
            Keyword::In => Kind::Mark(Mark::In),
            Keyword::As
            | Keyword::Assert
            | Keyword::Async
            | Keyword::Await
            | Keyword::Break
            | Keyword::Continue
            | Keyword::Del
            | Keyword::Except => Kind::Mark(Mark::Unused),
            Keyword::Finally
            | Keyword::From
            | Keyword::Import
            | Keyword::Lambda
            | Keyword::Raise
            | Keyword::Try
            | Keyword::With
            | Keyword::Yield => Kind::Mark(Mark::Unused),
        }
    }
}

impl From<Symbol> for Kind {
    ghost from_gives = { λ symbol kind. (src : List ℕ) (p : ℕ) → kind_model src p kind ≡ symbol_kind symbol };

    fn from(symbol: Symbol) -> Kind {
        match symbol {
            Symbol::Plus => Kind::Operator(BinaryOperator::Plus),
            Symbol::Minus => Kind::Operator(BinaryOperator::Minus),
            Symbol::Star => Kind::Operator(BinaryOperator::Times),
            Symbol::Percent => Kind::Operator(BinaryOperator::Remainder),
            Symbol::Divide => Kind::Operator(BinaryOperator::Divide),
            Symbol::Less => Kind::Operator(BinaryOperator::Less),
            Symbol::Greater => Kind::Operator(BinaryOperator::Greater),
            Symbol::AtMost => Kind::Operator(BinaryOperator::AtMost),
            Symbol::AtLeast => Kind::Operator(BinaryOperator::AtLeast),
            Symbol::Equal => Kind::Operator(BinaryOperator::Equal),
            Symbol::Differ => Kind::Operator(BinaryOperator::Unequal),
            Symbol::Dot => Kind::Dot,
            Symbol::LeftRound => Kind::LeftRound,
            Symbol::LeftSquare => Kind::LeftSquare,
            Symbol::RightRound => Kind::Mark(Mark::RightRound),
            Symbol::RightSquare => Kind::Mark(Mark::RightSquare),
            Symbol::Comma => Kind::Mark(Mark::Comma),
            Symbol::Colon => Kind::Mark(Mark::Colon),
            Symbol::Assign => Kind::Mark(Mark::Assign),
            Symbol::Arrow => Kind::Mark(Mark::Arrow),
        }
    }
}

// A token as the grammar takes it. A name, and what is between a string's quotes, stand in the source at their place.
impl From<Placed<'_>> for Next {
    ghost from_gives = { λ placed next. (src : List ℕ) → Stands src placed.at (model placed.token) → next_token src next ≡ token_of (stood placed) };

    fn from(placed: Placed<'_>) -> Next {
        let kind = match placed.token {
            Token::Name(name) => Kind::Name(name.len()),
            Token::Str(raw) => Kind::Text(raw.len()),
            Token::Int(value) => Kind::Constant(Constant::Integer(value)),
            Token::Keyword(keyword) => keyword.into(),
            Token::Symbol(symbol) => symbol.into(),
            Token::Newline => Kind::Mark(Mark::Newline),
            Token::Indent => Kind::Mark(Mark::Indent),
            Token::Dedent => Kind::Mark(Mark::Dedent),
            Token::End => Kind::Mark(Mark::End),
            Token::Fault(fault) => Kind::Fault(fault),
        };
        Next {
            kind,
            place: placed.at,
        }
    }
}
