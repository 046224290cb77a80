// The token at the front of some bytes.
ghost use Rattle.std.specs.Prelude.{◌≡◌};
ghost use Rattle.lexis.specs.Tokens.{Tok, sized};
ghost use Rattle.lexis.specs.Scans.{word_at, number_at, text_at, mark_at, scan_of};

use crate::numbers::number_of;
use crate::runs::run_len;
use crate::text::text_end;
use crate::words::{keyword_of, operator_of};
use byte_class::class_of;
use lexis::bytes::Class;
use lexis::faults::Fault;
use lexis::scans::{Run, Sized};
use lexis::tokens::Token;

// A byte that begins no token of its kind.
fn fault<'a>(f: Fault) -> Sized<'a>
    ensures { sized result ≡ (Tok.fault f, 1) }
{
    let token = Token::Fault(f);
    Sized { token, size: 1 }
}

// A `match`, here and below, where `map_or` would do: the check does not cover one whose result borrows.
fn scan_word(rest: &[u8]) -> Sized<'_>
    ensures { sized result ≡ word_at rest.now }
{
    let size = run_len(rest, Run::Word);
    let word = &rest[..size];
    let token = match keyword_of(word) {
        Some(k) => Token::Keyword(k),
        None => Token::Name(word),
    };
    Sized { token, size }
}

fn scan_number(rest: &[u8]) -> Sized<'_>
    ensures { sized result ≡ number_at rest.now }
{
    let size = run_len(rest, Run::Digits);
    let token = match number_of(&rest[..size]) {
        Some(value) => Token::Int(value),
        None => Token::Fault(Fault::Number),
    };
    Sized { token, size }
}

fn scan_text(rest: &[u8]) -> Sized<'_>
    ensures { sized result ≡ text_at rest.now }
{
    match text_end(rest) {
        Some(end) => Sized {
            token: Token::Str(&rest[1..end]),
            size: end + 1,
        },
        None => fault(Fault::Text),
    }
}

fn scan_mark(rest: &[u8]) -> Sized<'_>
    ensures { sized result ≡ mark_at rest.now }
{
    match operator_of(rest) {
        Some((operator, size)) => Sized {
            token: Token::Symbol(operator),
            size,
        },
        None => fault(Fault::Byte),
    }
}

pub fn scan_front(rest: &[u8]) -> Sized<'_>
    ensures { sized result ≡ scan_of rest.now }
{
    match rest.first().map(|b| class_of(*b)) {
        Some(Class::Letter) => scan_word(rest),
        Some(Class::Digit) => scan_number(rest),
        Some(Class::Quote) => scan_text(rest),
        Some(Class::Mark) => scan_mark(rest),
        Some(Class::Blank | Class::LineEnd | Class::Hash | Class::Other) | None => {
            fault(Fault::Byte)
        }
    }
}
