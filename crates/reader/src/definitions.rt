// Reading a variable's definition, past its name and colon.
ghost use Rattle.std.specs.Prelude.{◌≡◌, ◌+◌, ◌*◌, ◌≤◌, length, OnOk};
ghost use Rattle.arena.specs.Tables.{arena_nodes};
ghost use Rattle.reader.specs.Definitions.{LiteralTold, VariableTells};
ghost use Rattle.reader.specs.Feeds.{coming, feed_source};
ghost use Rattle.reader.specs.Keeping.{Kept};

use crate::depths::Depth;
use crate::feeds::Feed;
use crate::kinds::{Kind, Mark};
use crate::parsers::Parser;
use crate::refusals::Stop;
use crate::taking::{stop_at, store};
use arena::nodes::{Literal, Node, Quotation, Stretch};

// A literal and its place.
#[derive(Clone, Copy)]
pub(crate) struct PlacedLiteral {
    pub(crate) place: usize,
    pub(crate) literal: Literal,
}

impl Feed<'_, '_> {
    // Takes a literal that must come: the kinds that an expression stores as constants, here without a node.
    fn take_literal(&mut self) -> Result<PlacedLiteral, Stop>
        ensures told { LiteralTold (feed_source self.old) (coming self.old) (coming self.new) result }
        ensures source { feed_source self.new ≡ feed_source self.old }
    {
        let next = self.next().ok_or(Stop::Unfinished)?;
        let place = next.place;
        match next.kind {
            Kind::Constant(constant) => {
                self.advance();
                Ok(PlacedLiteral {
                    place,
                    literal: constant.into(),
                })
            }
            Kind::Text(len) => {
                self.advance();
                Ok(PlacedLiteral {
                    place,
                    literal: Literal::Text(Quotation { at: place, len }),
                })
            }
            Kind::Name(_)
            | Kind::Dot
            | Kind::LeftRound
            | Kind::LeftSquare
            | Kind::Not
            | Kind::Operator(_)
            | Kind::Mark(_)
            | Kind::Fault(_) => Err(stop_at(next)),
        }
    }
}

impl Parser<'_, '_> {
    // Reads a variable's type and value, up to the end of the line, and tells the definition's node.
    pub(crate) fn variable(&mut self, name: Stretch, depth: Depth) -> Result<usize, Stop>
        ensures kept { Kept self.old.feed self.old.arena self.new.feed self.new.arena }
        ensures tells { VariableTells (feed_source self.old.feed) (arena_nodes self.new.arena) name depth.levels (coming self.old.feed) (coming self.new.feed) result }
        ensures spare { OnOk result (length (arena_nodes self.new.arena) + 8 + 4 * length (coming self.new.feed) ≤ length (arena_nodes self.old.arena) + 4 * length (coming self.old.feed)) }
    {
        let annotation = self.annotation(depth)?;
        self.feed.take_mark(Mark::Assign)?;
        let value = self.feed.take_literal()?;
        self.feed.take_mark(Mark::Newline)?;
        let PlacedLiteral { place, literal } = value;
        Ok(store(
            &mut self.arena,
            Node::VariableDefinition {
                name,
                annotation,
                place,
                literal,
            },
        ))
    }
}
