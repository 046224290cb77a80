// The lexer: its tokens, one a call.
ghost use Rattle.std.specs.Prelude.{◌≡◌, ℕ, ◌<◌, ◌≤◌, false, List, [], ◌++◌, length, take, slice_index, MatchOption};
ghost use Rattle.std.specs.Iterator.{item_count};
ghost use Rattle.std.specs.Option.{option_to_list};
ghost use Rattle.stack.specs.Held.{held, room, top_of};
ghost use Rattle.stack.specs.declared.Stack.{Stack};
ghost use Rattle.lexis.specs.Bytes.{class_of};
ghost use Rattle.lexis.specs.Lines.{is_fault, after, tokens};
ghost use Rattle.lexis.specs.Runs.{ends_line};
ghost use Rattle.lexis.specs.Tokens.{model};
ghost use Rattle.lexis.specs.declared.lines.Mode.{Mode as Stage};
ghost use Rattle.lexis.specs.declared.tokens.Token.{Token};
ghost use Rattle.lexer.specs.Gaps.{Narrow, Stops, is_gap};
ghost use Rattle.lexer.specs.Left.{bytes_of, coming, left, Stepped, Gives};
ghost use Rattle.lexer.specs.Room.{within};

use crate::gap::past_gap;
use crate::levels::level_of;
use crate::scan::scan_front;
use crate::source::Source;
use crate::state::{Lexer, Step};
use byte_class::class_of;
use lexis::bytes::Class;
use lexis::faults::Fault;
use lexis::lines::{Level, Mode, Spot};
use lexis::tokens::{Placed, Token};
use stack::{Full, Stack};

fn is_fault(token: Token<'_>) -> bool
    ensures { result ≡ is_fault (model token.entry) }
{
    matches!(token, Token::Fault(_))
}

fn mode_after(token: Token<'_>) -> Mode
    ensures { result ≡ after (model token.entry) }
{
    if is_fault(token) {
        Mode::Over
    } else {
        Mode::Inside
    }
}

fn is_line_end(b: u8) -> bool
    ensures { result ≡ ends_line (class_of b) }
{
    matches!(class_of(b), Class::LineEnd)
}

fn step(token: Token<'_>, pos: usize, mode: Mode) -> Step<'_>
    ensures { result ≡ record { token = token.entry; next = record { pos = pos; mode = mode } } }
{
    let next = Spot { pos, mode };
    Step { token, next }
}

// The next token in a line, at `at`.
fn inner(source: Source<'_>, at: usize) -> Step<'_>
    requires within { at < length source.bytes.now }
    requires token { is_gap Stage.Inside (class_of (slice_index source.bytes.now at)) ≡ false }
    ensures { (levels : Stack ℕ) → Stepped source.entry.bytes.now levels (record { pos = at; mode = Stage.Inside }) result levels }
{
    if is_line_end(source.bytes[at]) {
        return step(Token::Newline, at + 1, Mode::Fresh(0));
    }
    let found = scan_front(&source.bytes[at..]);
    step(found.token, at + found.size, mode_after(found.token))
}

// The DEDENT that closes the innermost level, for a line at a column.
fn dedent<'a>(levels: &mut Stack<'_, usize>, at: usize, column: usize) -> Step<'a>
    ensures step { result ≡ record { token = Token.Dedent; next = record { pos = at; mode = Stage.Fresh column } } }
    ensures levels { held levels.old ≡ option_to_list (top_of (held levels.old)) ++ held levels.new }
    ensures room { room levels.new ≡ room levels.old }
{
    let _ = levels.pop();
    step(Token::Dedent, at, Mode::Fresh(column))
}

// The first token of a line at a column, or what comes before it.
fn first<'a>(
    source: Source<'a>,
    levels: &mut Stack<'_, usize>,
    at: usize,
    column: usize,
) -> Step<'a>
    requires within { at < length source.bytes.now }
    requires token { is_gap (Stage.Fresh column) (class_of (slice_index source.bytes.now at)) ≡ false }
    requires narrow { Narrow (record { pos = at; mode = Stage.Fresh column }) }
    ensures { Stepped source.entry.bytes.now levels.old (record { pos = at; mode = Stage.Fresh column }) result levels.new }
{
    let found = scan_front(&source.bytes[at..]);
    if is_fault(found.token) {
        return step(found.token, at, Mode::Over);
    }
    match level_of(levels, column) {
        Level::Same => step(found.token, at + found.size, Mode::Inside),
        Level::Deeper => match levels.push(column) {
            Ok(()) => step(Token::Indent, at, Mode::Inside),
            Err(Full) => step(Token::Fault(Fault::Indentation), at, Mode::Over),
        },
        Level::Shallower => dedent(levels, at, column),
        Level::Nowhere => step(Token::Fault(Fault::Indentation), at, Mode::Over),
    }
}

// Past the last line: a DEDENT for each open level, then END.
fn close<'a>(levels: &mut Stack<'_, usize>, at: usize) -> Step<'a>
    ensures { (source : List ℕ) (column : ℕ) → length source ≤ at → Stepped source levels.old (record { pos = at; mode = Stage.Fresh column }) result levels.new }
{
    match levels.pop() {
        Some(_) => step(Token::Dedent, at, Mode::Fresh(0)),
        None => step(Token::End, at, Mode::Over),
    }
}

// The token at a spot past a gap, or nothing after END or a fault.
fn step_at<'a>(source: Source<'a>, levels: &mut Stack<'_, usize>, spot: Spot) -> Option<Step<'a>>
    requires narrow { Narrow spot }
    requires stops { Stops source.bytes.now spot }
    ensures { MatchOption result ((coming source.entry.bytes.now levels.old spot ≡ []) × (levels.new ≡ levels.old)) (λ t. Stepped source.entry.bytes.now levels.old spot t levels.new) }
{
    let at_end = spot.pos >= source.bytes.len();
    match spot.mode {
        Mode::Fresh(_) if at_end => Some(close(levels, spot.pos)),
        Mode::Fresh(column) => Some(first(source, levels, spot.pos, column)),
        Mode::Inside if at_end => Some(step(Token::Newline, spot.pos, Mode::Fresh(0))),
        Mode::Inside => Some(inner(source, spot.pos)),
        Mode::Over => None,
    }
}

impl<'a, 's> Lexer<'a, 's> {
    // A lexer of the first 4096 bytes, with slots for the levels that are open at once. As many slots as bytes are enough.
    #[tactic(auto, using(crate::proofs::Rooms::enough))]
    pub fn new(bytes: &'a [u8], slots: &'s mut [usize]) -> Lexer<'a, 's>
        ensures bytes { bytes_of result ≡ take 4096 bytes.now }
        ensures exact { left result ≡ within (length slots.old) (tokens (take 4096 bytes.now)) }
        ensures enough { length bytes.now ≤ 4096 → length bytes.now ≤ length slots.old → left result ≡ tokens bytes.now }
    {
        let source = Source::new(bytes);
        let levels = Stack::new(slots);
        let spot = Spot {
            pos: 0,
            mode: Mode::Fresh(0),
        };
        Lexer {
            source,
            spot,
            levels,
        }
    }
}

impl<'a> Iterator for Lexer<'a, '_> {
    type Item = Placed<'a>;

    ghost next_gives = { Gives };

    ghost remaining = { item_count left };

    // The next token, or nothing after END or a fault.
    fn next(&mut self) -> Option<Placed<'a>> {
        let spot = past_gap(self.source, self.spot);
        let step = step_at(self.source, &mut self.levels, spot)?;
        self.spot = step.next;
        Some(Placed {
            token: step.token,
            at: spot.pos,
        })
    }
}
