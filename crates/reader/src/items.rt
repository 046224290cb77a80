// What a body begins with: declarations, up to its first statement.
ghost use Rattle.std.specs.Prelude.{◌≡◌, Some};
ghost use Rattle.reader.specs.Bodies.{ItemTold};
ghost use Rattle.reader.specs.Defining.{DefinedTold};
ghost use Rattle.reader.specs.Feeds.{NextTold, coming, feed_source};
ghost use Rattle.reader.specs.Lines.{NoWord};
ghost use Rattle.reader.specs.Owners.{Owner};
ghost use Rattle.reader.specs.Told.{NamedBy};
ghost use Rattle.arena.specs.Tables.{arena_nodes};
ghost use Rattle.reader.specs.Parsers.{Between};

use crate::depths::Depth;
use crate::feeds::Feed;
use crate::forms::{Form, Read};
use crate::kinds::{Mark, Next};
use crate::parsers::Parser;
use crate::refusals::Stop;
use crate::taking::store;
use arena::arenas::Arena;
use arena::nodes::{Node, Stretch};

// A declaration or a statement, by its node.
#[derive(Clone, Copy)]
pub(crate) enum Item {
    Declaration(usize),
    Statement(usize),
}

// The declarations of a body, and its first statement, by their nodes.
#[derive(Clone, Copy)]
pub(crate) struct Opening {
    pub(crate) declarations: usize,
    pub(crate) statement: usize,
}

// The name that an expression is, if a colon comes after it: a variable is defined.
fn defined_name(feed: &mut Feed<'_, '_>, arena: &Arena, read: Read) -> Option<Stretch>
    requires named { NamedBy (arena_nodes arena.now) read }
    ensures told { DefinedTold (arena_nodes arena.now) read.place read.form read.node (coming feed.old) (coming feed.new) result }
    ensures source { feed_source feed.new ≡ feed_source feed.old }
{
    match read.form {
        Form::Named => match arena.node(read.node) {
            Some(Node::Variable { name }) => feed.passes(Mark::Colon).then_some(name),
            _ => None,
        },
        Form::Member | Form::Indexed | Form::Closed | Form::Binary(_) | Form::Prefix(_) => None,
    }
}

impl Parser<'_, '_> {
    // A line of a body without statements so far, which begins with an expression, whose first token is here. It ends like `line`,
    // where no colon makes it a definition.
    pub(crate) fn first_line(&mut self, next: Next, depth: Depth) -> Result<Item, Stop>
        requires facing { NextTold (feed_source self.old.feed) (coming self.old.feed) (Some next) }
        requires kind { NoWord next.kind }
        ensures { Between (ItemTold (λ (x : Owner). Unit {0}) depth.levels) self.old self.new result }
    {
        let first = self.expression(0, depth)?;
        if let Some(name) = defined_name(&mut self.feed, &self.arena, first) {
            return Ok(Item::Declaration(self.variable(name, depth)?));
        }
        let none = store(&mut self.arena, Node::NoExpressions);
        Ok(Item::Statement(self.assignment(next.place, none, first, depth)?))
    }
}
