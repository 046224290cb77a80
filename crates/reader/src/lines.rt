// Reading the statements of one line.
ghost use Rattle.std.specs.Prelude.{◌≡◌, ◌<◌, length, Some, Ok};
ghost use Rattle.arena.specs.Tables.{arena_nodes};
ghost use Rattle.arena.specs.Trees.{phrase};
ghost use Rattle.grammar.specs.Tree as tree;
ghost use Rattle.reader.specs.Feeds.{NextTold, coming, feed_source};
ghost use Rattle.reader.specs.Statements.{AssignmentTold, StatementTold, WordedTold};
ghost use Rattle.reader.specs.Lines.{AssignedTold, NoWord};
ghost use Rattle.reader.specs.Told.{Ends};
ghost use Rattle.reader.specs.Parsers.{Between};

use crate::depths::Depth;
use crate::feeds::Feed;
use crate::forms::{Form, Read};
use crate::kinds::{Kind, Mark, Next};
use crate::parsers::Parser;
use crate::refusals::Stop;
use crate::taking::store;
use arena::nodes::Node;

impl Parser<'_, '_> {
    // A `pass`, which is here.
    pub(crate) fn pass_line(&mut self, next: Next, depth: Depth) -> Result<usize, Stop>
        requires facing { NextTold (feed_source self.old.feed) (coming self.old.feed) (Some next) }
        requires kind { next.kind ≡ Kind.Mark Mark.Pass }
        ensures { Between (WordedTold depth.levels) self.old self.new result }
    {
        self.feed.advance();
        self.feed.take_mark(Mark::Newline)?;
        Ok(store(&mut self.arena, Node::Pass { place: next.place }))
    }

    // A `return`, which is here, with a value or without.
    pub(crate) fn return_line(&mut self, next: Next, depth: Depth) -> Result<usize, Stop>
        requires facing { NextTold (feed_source self.old.feed) (coming self.old.feed) (Some next) }
        requires kind { next.kind ≡ Kind.Mark Mark.Return }
        ensures { Between (WordedTold depth.levels) self.old self.new result }
    {
        self.feed.advance();
        if self.feed.passes(Mark::Newline) {
            return Ok(store(&mut self.arena, Node::BareReturn { place: next.place }));
        }
        let value = self.expression(0, depth)?;
        self.feed.take_mark(Mark::Newline)?;
        Ok(store(
            &mut self.arena,
            Node::Return {
                place: next.place,
                value: value.node,
            },
        ))
    }
}

impl Feed<'_, '_> {
    // Whether an expression of this form is assigned to; then the `=` after it is taken. An answer, not a failure.
    fn is_assigned(&mut self, form: Form) -> bool
        ensures told { AssignedTold form (coming self.old) (coming self.new) result }
        ensures source { feed_source self.new ≡ feed_source self.old }
    {
        form.is_target() && self.passes(Mark::Assign)
    }
}

impl Parser<'_, '_> {
    // What goes on with the first expression of a line that begins at `place`: the expression is assigned to, or stands alone.
    pub(crate) fn assignment(
        &mut self,
        place: usize,
        none: usize,
        first: Read,
        depth: Depth,
    ) -> Result<usize, Stop>
        requires stored { first.node < length (arena_nodes self.old.arena) }
        requires ends { Ends (feed_source self.old.feed) (arena_nodes self.old.arena) 0 depth.levels (coming self.old.feed) (Ok first) }
        requires kept { none < length (arena_nodes self.old.arena) }
        requires empty { (phrase (feed_source self.old.feed) (arena_nodes self.old.arena) none).exprs ≡ tree.nil }
        ensures { Between (AssignmentTold depth.levels place first) self.old self.new result }
    {
        let mut targets = none;
        let mut last = first;
        while self.feed.is_assigned(last.form) {
            targets = store(
                &mut self.arena,
                Node::MoreExpressions {
                    before: targets,
                    last: last.node,
                },
            );
            last = self.expression(0, depth)?;
        }
        self.feed.take_mark(Mark::Newline)?;
        Ok(store(
            &mut self.arena,
            Node::Assign {
                place,
                targets,
                value: last.node,
            },
        ))
    }

    // A line that begins with an expression, whose first token is here.
    pub(crate) fn line(&mut self, next: Next, depth: Depth) -> Result<usize, Stop>
        requires facing { NextTold (feed_source self.old.feed) (coming self.old.feed) (Some next) }
        requires kind { NoWord next.kind }
        ensures { Between (StatementTold depth.levels) self.old self.new result }
    {
        let first = self.expression(0, depth)?;
        let none = store(&mut self.arena, Node::NoExpressions);
        self.assignment(next.place, none, first, depth)
    }
}
