// Keywords and operators.
ghost use Rattle.std.specs.Prelude.{◌≡◌, find, slice_index};
ghost use Rattle.std.specs.Str.{bytes_eq};
ghost use Rattle.lexis.specs.Words.{spelled, keyword_of, symbol_of};

use lexis::tokens::{Keyword, Symbol};

static KEYWORDS: [Keyword; 35] = [
    Keyword::False,
    Keyword::None,
    Keyword::True,
    Keyword::And,
    Keyword::As,
    Keyword::Assert,
    Keyword::Async,
    Keyword::Await,
    Keyword::Break,
    Keyword::Class,
    Keyword::Continue,
    Keyword::Def,
    Keyword::Del,
    Keyword::Elif,
    Keyword::Else,
    Keyword::Except,
    Keyword::Finally,
    Keyword::For,
    Keyword::From,
    Keyword::Global,
    Keyword::If,
    Keyword::Import,
    Keyword::In,
    Keyword::Is,
    Keyword::Lambda,
    Keyword::Nonlocal,
    Keyword::Not,
    Keyword::Or,
    Keyword::Pass,
    Keyword::Raise,
    Keyword::Return,
    Keyword::Try,
    Keyword::While,
    Keyword::With,
    Keyword::Yield,
];

pub fn spelling(k: Keyword) -> &'static [u8]
    ensures { result.now ≡ spelled k }
{
    match k {
        Keyword::False => b"False",
        Keyword::None => b"None",
        Keyword::True => b"True",
        Keyword::And => b"and",
        Keyword::As => b"as",
        Keyword::Assert => b"assert",
        Keyword::Async => b"async",
        Keyword::Await => b"await",
        Keyword::Break => b"break",
        Keyword::Class => b"class",
        Keyword::Continue => b"continue",
        Keyword::Def => b"def",
        Keyword::Del => b"del",
        Keyword::Elif => b"elif",
        Keyword::Else => b"else",
        Keyword::Except => b"except",
        Keyword::Finally => b"finally",
        Keyword::For => b"for",
        Keyword::From => b"from",
        Keyword::Global => b"global",
        Keyword::If => b"if",
        Keyword::Import => b"import",
        Keyword::In => b"in",
        Keyword::Is => b"is",
        Keyword::Lambda => b"lambda",
        Keyword::Nonlocal => b"nonlocal",
        Keyword::Not => b"not",
        Keyword::Or => b"or",
        Keyword::Pass => b"pass",
        Keyword::Raise => b"raise",
        Keyword::Return => b"return",
        Keyword::Try => b"try",
        Keyword::While => b"while",
        Keyword::With => b"with",
        Keyword::Yield => b"yield",
    }
}

fn is_spelled(k: Keyword, word: &[u8]) -> bool
    ensures { result ≡ bytes_eq (spelled k) word.now }
{
    spelling(k) == word
}

fn first_spelled(keywords: &[Keyword], word: &[u8]) -> Option<Keyword>
    ensures { result ≡ find (λ k. bytes_eq (spelled k) word.now) keywords.now }
{
    keywords.iter().copied().find(|k| is_spelled(*k, word))
}

#[tactic(auto, using(crate::proofs::Spelled::found))]
pub fn keyword_of(word: &[u8]) -> Option<Keyword>
    ensures { result ≡ keyword_of word.now }
{
    first_spelled(&KEYWORDS, word)
}

// The longest operator at the front of some bytes, with its size.
pub fn operator_of(rest: &[u8]) -> Option<(Symbol, usize)>
    ensures { result ≡ symbol_of (slice_index rest.now 0) (slice_index rest.now 1) }
{
    match rest {
        [b'/', b'/', ..] => Some((Symbol::Divide, 2)),
        [b'<', b'=', ..] => Some((Symbol::AtMost, 2)),
        [b'>', b'=', ..] => Some((Symbol::AtLeast, 2)),
        [b'=', b'=', ..] => Some((Symbol::Equal, 2)),
        [b'!', b'=', ..] => Some((Symbol::Differ, 2)),
        [b'-', b'>', ..] => Some((Symbol::Arrow, 2)),
        [b'+', ..] => Some((Symbol::Plus, 1)),
        [b'-', ..] => Some((Symbol::Minus, 1)),
        [b'*', ..] => Some((Symbol::Star, 1)),
        [b'%', ..] => Some((Symbol::Percent, 1)),
        [b'<', ..] => Some((Symbol::Less, 1)),
        [b'>', ..] => Some((Symbol::Greater, 1)),
        [b'=', ..] => Some((Symbol::Assign, 1)),
        [b'(', ..] => Some((Symbol::LeftRound, 1)),
        [b')', ..] => Some((Symbol::RightRound, 1)),
        [b'[', ..] => Some((Symbol::LeftSquare, 1)),
        [b']', ..] => Some((Symbol::RightSquare, 1)),
        [b',', ..] => Some((Symbol::Comma, 1)),
        [b':', ..] => Some((Symbol::Colon, 1)),
        [b'.', ..] => Some((Symbol::Dot, 1)),
        _ => None,
    }
}
