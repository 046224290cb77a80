// Reading a source: from its bytes to its tree, or to the first token that is refused.
ghost use Rattle.std.specs.Prelude.{◌≡◌, ◌≤◌, [], length, slice_get, IfOk, ◌≢◌};
ghost use Rattle.arena.specs.Tables.{arena_limit, arena_nodes};
ghost use Rattle.grammar.specs.Verdict.{incomplete};
ghost use Rattle.syntax.specs.Reading.{reading};
ghost use Rattle.reader.specs.Stops.{refusal_verdict, stop_of};
ghost use Rattle.reader.specs.Answers.{AnswerHolds, NothingLeft, answer_verdict, reader_nodes};

use crate::answers::{Refusal, Routine};
use crate::feeds::Feed;
use crate::parsers::Parser;
use crate::reasons::Reason;
use crate::refusals::Stop;
use crate::tables::Reader;
use arena::arenas::Arena;
use arena::nodes::Node;
use lexer::state::Lexer;
use std::alloc::{AllocError, Global};

// How many bytes a source has at most.
const LONGEST_SOURCE: usize = 4_096;

// How many nodes the longest source has at most.
const MOST_NODES: usize = 4 * (3 * LONGEST_SOURCE + 2) + 2;

// The refusal of a token; the tokens of a source do not end too soon. Not a `From`, which could not ask for that.
fn refusal_of(stop: Stop) -> Refusal
    requires { stop_of stop ≢ incomplete }
    ensures { refusal_verdict result ≡ stop_of stop }
{
    match stop {
        Stop::Refused(refusal) => refusal,
        Stop::Unfinished => unreachable!(),
    }
}

// Reads a source that is not too long into a table that is empty.
fn read_short(arena: &mut Arena, slots: &mut [usize], source: &[u8]) -> Result<Routine, Refusal>
    requires short { length source.now ≤ 4096 }
    requires levels { length slots.old ≡ 4096 }
    requires room { arena_limit arena.old ≡ 49162 }
    requires empty { arena_nodes arena.old ≡ [] }
    ensures verdict { answer_verdict source.now (arena_nodes arena.new) result ≡ reading source.now }
    ensures limit { arena_limit arena.new ≡ arena_limit arena.old }
{
    let feed = Feed::new(Lexer::new(source, slots));
    let mut parser = Parser {
        feed,
        arena: arena.take(),
    };
    let read = parser.program();
    let Parser {
        feed: _,
        arena: filled,
    } = parser;
    *arena = filled;
    read.map_err(refusal_of)
}

impl Reader {
    // All tables are made here: the one place where want of memory is an answer.
    pub fn new(heap: Global) -> Result<Reader, AllocError>
        ensures { IfOk result (λ x. reader_nodes x ≡ []) }
    {
        let arena = Arena::new(heap, MOST_NODES)?;
        let slots = vec![in heap; 0; LONGEST_SOURCE]?;
        Ok(Reader { arena, slots })
    }

    // Reads a source. A routine's nodes are in the table until the next source is read; a refusal leaves it empty.
    pub fn read(&mut self, source: &[u8]) -> Result<Routine, Refusal>
        ensures verdict { answer_verdict source.now (reader_nodes self.new) result ≡ reading source.now }
        ensures holds { AnswerHolds source.now (reader_nodes self.new) result }
        ensures left { NothingLeft (reader_nodes self.new) result }
    {
        self.arena.clear();
        if source.len() > LONGEST_SOURCE {
            return Err(Refusal {
                reason: Reason::TooLong,
                place: 0,
            });
        }
        let answer = read_short(&mut self.arena, self.slots.as_mut_slice(), source);
        if answer.is_err() {
            self.arena.clear();
        }
        answer
    }

    // The node at an index.
    pub fn node(&self, index: usize) -> Option<Node>
        ensures { result ≡ slice_get (reader_nodes self.now) index }
    {
        self.arena.node(index)
    }
}
