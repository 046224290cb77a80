// What stands between tokens and gives none: blanks, comments and lines with nothing else.
ghost use Rattle.std.specs.Prelude.{◌≡◌, ◌+◌, ◌≤◌};
ghost use Rattle.lexis.specs.Lines.{widened};
ghost use Rattle.lexer.specs.Gaps.{Narrow, Leads, Stops, Passed};

use crate::runs::run_len;
use crate::source::Source;
use byte_class::class_of;
use lexis::bytes::Class;
use lexis::lines::{Mode, Spot};
use lexis::scans::Run;

fn widen(b: u8, column: usize) -> usize
    requires { column ≤ 40000 }
    ensures value { result ≡ widened b column }
    ensures most { result ≤ column + 8 }
{
    if b == b'\t' {
        column - column % 8 + 8
    } else {
        column + 1
    }
}

// The spot past one blank, comment or line end, or nothing at a token or the end. That a spot is narrow is asked here and of the
// steps: the rules of tokens build spots of any width, so the type of a spot does not say it.
fn step_gap(source: Source<'_>, spot: Spot) -> Option<Spot>
    requires { Narrow spot }
    ensures { Passed source.entry.bytes.now spot result }
{
    let Spot { pos, mode } = spot;
    let b = source.byte(pos)?;
    let rest = &source.bytes[pos..];
    let (size, mode) = match (mode, class_of(b)) {
        (Mode::Fresh(column), Class::Blank) => (1, Mode::Fresh(widen(b, column))),
        (Mode::Fresh(_), Class::LineEnd) => (1, Mode::Fresh(0)),
        (Mode::Fresh(_), Class::Hash) => (run_len(rest, Run::Comment), mode),
        (Mode::Inside, Class::Blank) => (1, Mode::Inside),
        (Mode::Inside, Class::Hash) => (run_len(rest, Run::Comment), Mode::Inside),
        _ => return None,
    };
    Some(Spot {
        pos: pos + size,
        mode,
    })
}

// The next token's spot, or the end's.
pub fn past_gap(source: Source<'_>, start: Spot) -> Spot
    requires { Narrow start }
    ensures leads { Leads source.entry.bytes.now start result }
    ensures narrow { Narrow result }
    ensures stops { Stops source.entry.bytes.now result }
{
    let mut spot = start;
    while let Some(next) = step_gap(source, spot) {
        spot = next;
    }
    spot
}
