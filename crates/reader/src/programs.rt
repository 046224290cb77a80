// Reading a whole program.
ghost use Rattle.std.specs.Prelude.{◌≡◌, ◌+◌, ◌*◌, ◌≤◌, length};
ghost use Rattle.arena.specs.Tables.{arena_limit, arena_nodes};
ghost use Rattle.grammar.specs.Verdict.{reads};
ghost use Rattle.reader.specs.Bodies.{verdict_of};
ghost use Rattle.reader.specs.Feeds.{coming, feed_source};
ghost use Rattle.reader.specs.Owners.{IsProgram};

use crate::answers::Routine;
use crate::bodies::empty_body;
use crate::depths::Depth;
use crate::items::Item;
use crate::kinds::{Mark, Next};
use crate::parsers::Parser;
use crate::refusals::Stop;
use crate::scopes::Scope;
use crate::taking::stop_at;

pub(crate) struct Whole;

impl Scope for Whole {
    ghost owns = { IsProgram };

    fn close() -> Mark {
        Mark::End
    }

    fn marked_item(
        parser: &mut Parser<'_, '_>,
        next: Next,
        mark: Mark,
        depth: Depth,
    ) -> Result<Item, Stop> {
        match mark {
            Mark::Def => {
                parser.feed.advance();
                Ok(Item::Declaration(parser.function(next.place, depth)?))
            }
            Mark::Class => {
                parser.feed.advance();
                Ok(Item::Declaration(parser.class(next.place)?))
            }
            _ => Ok(Item::Statement(parser.worded(next, mark, depth)?)),
        }
    }
}

impl Parser<'_, '_> {
    // The program that all tokens are.
    pub(crate) fn program(&mut self) -> Result<Routine, Stop>
        requires { length (arena_nodes self.old.arena) + 2 + 4 * length (coming self.old.feed) ≤ arena_limit self.old.arena }
        ensures verdict { verdict_of (feed_source self.old.feed) (arena_nodes self.new.arena) result ≡ reads (coming self.old.feed) }
        ensures limit { arena_limit self.new.arena ≡ arena_limit self.old.arena }
    {
        let empty = empty_body(&mut self.arena);
        let whole = self.whole_body::<Whole>(empty, Depth::OUTSIDE)?;
        match self.feed.next() {
            None => Ok(whole),
            Some(next) => Err(stop_at(next)),
        }
    }
}
