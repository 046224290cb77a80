// String literals.
ghost use Rattle.std.specs.Prelude.{◌≡◌, ◌<◌, ◌≤◌, length, drop, IfSome};
ghost use Rattle.lexis.specs.Texts.{longer_by, text_step, text_end};
ghost use Rattle.lexis.specs.declared.scans.Quoted.{Quoted as State};

use lexis::scans::Quoted;
use string_value::escape_of;

fn longer(size: u8) -> Quoted
    ensures { result ≡ longer_by size }
{
    if size < 255 {
        Quoted::Plain(size + 1)
    } else {
        Quoted::Bad
    }
}

fn text_step(state: Quoted, b: u8) -> Quoted
    ensures { result ≡ text_step state b }
{
    match state {
        Quoted::Plain(size) => match b {
            b'"' => Quoted::Closed,
            b'\\' => Quoted::Escaped(size),
            32..=126 => longer(size),
            _ => Quoted::Bad,
        },
        Quoted::Escaped(size) if escape_of(b as char).is_some() => longer(size),
        Quoted::Escaped(_) => Quoted::Bad,
        Quoted::Closed => Quoted::Closed,
        Quoted::Bad => Quoted::Bad,
    }
}

// The place of the closing quote in `rest`, whose first byte is the opening one.
pub fn text_end(rest: &[u8]) -> Option<usize>
    ensures value { result ≡ text_end (State.Plain 0) 1 (drop 1 rest.now) }
    ensures within { IfSome result (λ e. (1 ≤ e) × (e < length rest.now)) }
{
    let mut state = Quoted::Plain(0);
    for (i, b) in rest.iter().enumerate().skip(1) {
        state = text_step(state, *b);
        match state {
            Quoted::Closed => return Some(i),
            Quoted::Bad => return None,
            Quoted::Plain(_) | Quoted::Escaped(_) => {}
        }
    }
    None
}
