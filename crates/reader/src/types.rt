// Reading annotations.
ghost use Rattle.std.specs.Prelude.{◌≡◌, Some};
ghost use Rattle.arena.specs.Tables.{arena_nodes};
ghost use Rattle.reader.specs.Feeds.{NextTold, coming, feed_source};
ghost use Rattle.reader.specs.Keeping.{Kept};
ghost use Rattle.reader.specs.Types.{TypeTells};
ghost use Rattle.reader.specs.declared.kinds.Kind.TheVariants.{LeftSquare};

use crate::depths::Depth;
use crate::kinds::{Kind, Mark, Next};
use crate::parsers::Parser;
use crate::refusals::Stop;
use crate::taking::{stop_at, store};
use arena::nodes::{Node, Quotation, Stretch};

impl Parser<'_, '_> {
    // Reads an annotation, and tells its node.
    #[cycle(annotation_list_type)]
    pub(crate) fn annotation(&mut self, depth: Depth) -> Result<usize, Stop>
        ensures kept { Kept self.old.feed self.old.arena self.new.feed self.new.arena }
        ensures tells { TypeTells (feed_source self.old.feed) (arena_nodes self.new.arena) depth.levels (coming self.old.feed) (coming self.new.feed) result }
    {
        let next = self.feed.next().ok_or(Stop::Unfinished)?;
        match next.kind {
            Kind::Name(len) => {
                let name = Stretch {
                    at: next.place,
                    len,
                };
                self.feed.advance();
                Ok(store(&mut self.arena, Node::ClassType { name }))
            }
            Kind::Text(len) => {
                let name = Quotation {
                    at: next.place,
                    len,
                };
                self.feed.advance();
                Ok(store(&mut self.arena, Node::QuotedType { name }))
            }
            Kind::LeftSquare => self.list_type(next, depth),
            Kind::Constant(_)
            | Kind::Dot
            | Kind::LeftRound
            | Kind::Not
            | Kind::Operator(_)
            | Kind::Mark(_)
            | Kind::Fault(_) => Err(stop_at(next)),
        }
    }

    // Reads a list type, whose bracket comes next.
    #[cycle(annotation_list_type)]
    fn list_type(&mut self, next: Next, depth: Depth) -> Result<usize, Stop>
        requires facing { NextTold (feed_source self.old.feed) (coming self.old.feed) (Some next) }
        requires bracket { next.kind ≡ LeftSquare }
        ensures kept { Kept self.old.feed self.old.arena self.new.feed self.new.arena }
        ensures tells { TypeTells (feed_source self.old.feed) (arena_nodes self.new.arena) depth.levels (coming self.old.feed) (coming self.new.feed) result }
    {
        let inner = depth.deeper(next)?;
        self.feed.advance();
        let element = self.annotation(inner)?;
        self.feed.take_mark(Mark::RightSquare)?;
        let place = next.place;
        Ok(store(&mut self.arena, Node::ListType { place, element }))
    }
}
