// Reading statements and blocks.
ghost use Rattle.std.specs.Prelude.{◌≡◌, ◌<◌, length, Some, OnOk};
ghost use Rattle.arena.specs.Tables.{arena_nodes};
ghost use Rattle.arena.specs.Trees.{phrase};
ghost use Rattle.grammar.specs.Tree as tree;
ghost use Rattle.reader.specs.Feeds.{NextTold, coming, feed_source};
ghost use Rattle.reader.specs.Taking.{Another};
ghost use Rattle.reader.specs.Statements.{ArmTold, ArmsTold, BlockTold, Filled, GuardedTold, OtherwiseTold, StatementTold, StatementsTold, WordedTold};
ghost use Rattle.reader.specs.Parsers.{Between};

use crate::depths::Depth;
use crate::kinds::{Kind, Mark, Next};
use crate::parsers::Parser;
use crate::refusals::Stop;
use crate::taking::{stop_at, store};
use arena::nodes::Node;

// A block and the expression before it, by their nodes.
#[derive(Clone, Copy)]
pub(crate) struct Guarded {
    pub(crate) condition: usize,
    pub(crate) body: usize,
}

impl Parser<'_, '_> {
    // A statement of a body in which no variable may be defined any more.
    #[cycle(arm_block_elifs_for_statement_guarded_block_if_statement_otherwise_statement_statements_while_statement_worded)]
    pub(crate) fn statement(&mut self, depth: Depth) -> Result<usize, Stop>
        ensures { Between (StatementTold depth.levels) self.old self.new result }
    {
        let next = self.feed.next().ok_or(Stop::Unfinished)?;
        match next.kind {
            Kind::Mark(mark) => self.worded(next, mark, depth),
            Kind::Name(_)
            | Kind::Text(_)
            | Kind::Constant(_)
            | Kind::Dot
            | Kind::LeftRound
            | Kind::LeftSquare
            | Kind::Not
            | Kind::Operator(_)
            | Kind::Fault(_) => self.line(next, depth),
        }
    }

    // A statement that begins with a word, which is here.
    #[cycle(arm_block_elifs_for_statement_guarded_block_if_statement_otherwise_statement_statements_while_statement_worded)]
    pub(crate) fn worded(&mut self, next: Next, mark: Mark, depth: Depth) -> Result<usize, Stop>
        requires facing { NextTold (feed_source self.old.feed) (coming self.old.feed) (Some next) }
        requires kind { next.kind ≡ Kind.Mark mark }
        ensures { Between (WordedTold depth.levels) self.old self.new result }
    {
        match mark {
            Mark::Pass => self.pass_line(next, depth),
            Mark::Return => self.return_line(next, depth),
            Mark::If => self.if_statement(next, depth),
            Mark::While => self.while_statement(next, depth),
            Mark::For => self.for_statement(next, depth),
            _ => Err(stop_at(next)),
        }
    }

    // An `if`, which is here, with all its arms.
    #[cycle(arm_block_elifs_for_statement_guarded_block_if_statement_otherwise_statement_statements_while_statement_worded)]
    fn if_statement(&mut self, next: Next, depth: Depth) -> Result<usize, Stop>
        requires facing { NextTold (feed_source self.old.feed) (coming self.old.feed) (Some next) }
        requires kind { next.kind ≡ Kind.Mark Mark.If }
        ensures { Between (WordedTold depth.levels) self.old self.new result }
    {
        self.feed.advance();
        let nothing = store(&mut self.arena, Node::NoStatements);
        let none = store(&mut self.arena, Node::NoArms);
        let first = self.arm(none, next.place, depth)?;
        let arms = self.elifs(first, depth)?;
        let otherwise = self.otherwise(nothing, depth)?;
        Ok(store(&mut self.arena, Node::If { arms, otherwise }))
    }

    // One arm more, past its word at `place`.
    #[cycle(arm_block_elifs_for_statement_guarded_block_if_statement_otherwise_statement_statements_while_statement_worded)]
    fn arm(&mut self, before: usize, place: usize, depth: Depth) -> Result<usize, Stop>
        requires stored { before < length (arena_nodes self.old.arena) }
        ensures { Between (ArmTold depth.levels before place) self.old self.new result }
    {
        let Guarded { condition, body } = self.guarded_block(depth)?;
        Ok(store(
            &mut self.arena,
            Node::MoreArms {
                before,
                place,
                condition,
                body,
            },
        ))
    }

    // The arms that begin with `elif`.
    #[cycle(arm_block_elifs_for_statement_guarded_block_if_statement_otherwise_statement_statements_while_statement_worded)]
    fn elifs(&mut self, first: usize, depth: Depth) -> Result<usize, Stop>
        requires stored { first < length (arena_nodes self.old.arena) }
        ensures told { Between (ArmsTold depth.levels first) self.old self.new result }
        ensures over { OnOk result (Another Mark.Elif (coming self.new.feed)) }
    {
        let mut arms = first;
        while let Some(place) = self.feed.take_if(Mark::Elif) {
            arms = self.arm(arms, place, depth)?;
        }
        Ok(arms)
    }

    // The block after `else`, or `nothing`, where no `elif` comes.
    #[cycle(arm_block_elifs_for_statement_guarded_block_if_statement_otherwise_statement_statements_while_statement_worded)]
    fn otherwise(&mut self, nothing: usize, depth: Depth) -> Result<usize, Stop>
        requires over { Another Mark.Elif (coming self.old.feed) }
        requires stored { nothing < length (arena_nodes self.old.arena) }
        requires empty { (phrase (feed_source self.old.feed) (arena_nodes self.old.arena) nothing).stmts ≡ tree.empty }
        ensures { Between (OtherwiseTold depth.levels) self.old self.new result }
    {
        if self.feed.passes(Mark::Else) {
            self.feed.take_mark(Mark::Colon)?;
            self.block(depth)
        } else {
            Ok(nothing)
        }
    }

    // A `while`, which is here.
    #[cycle(arm_block_elifs_for_statement_guarded_block_if_statement_otherwise_statement_statements_while_statement_worded)]
    fn while_statement(&mut self, next: Next, depth: Depth) -> Result<usize, Stop>
        requires facing { NextTold (feed_source self.old.feed) (coming self.old.feed) (Some next) }
        requires kind { next.kind ≡ Kind.Mark Mark.While }
        ensures { Between (WordedTold depth.levels) self.old self.new result }
    {
        self.feed.advance();
        let Guarded { condition, body } = self.guarded_block(depth)?;
        Ok(store(
            &mut self.arena,
            Node::While {
                place: next.place,
                condition,
                body,
            },
        ))
    }

    // A `for`, which is here.
    #[cycle(arm_block_elifs_for_statement_guarded_block_if_statement_otherwise_statement_statements_while_statement_worded)]
    fn for_statement(&mut self, next: Next, depth: Depth) -> Result<usize, Stop>
        requires facing { NextTold (feed_source self.old.feed) (coming self.old.feed) (Some next) }
        requires kind { next.kind ≡ Kind.Mark Mark.For }
        ensures { Between (WordedTold depth.levels) self.old self.new result }
    {
        self.feed.advance();
        let variable = self.feed.take_name()?;
        self.feed.take_mark(Mark::In)?;
        let Guarded { condition, body } = self.guarded_block(depth)?;
        Ok(store(
            &mut self.arena,
            Node::For {
                place: next.place,
                variable,
                sequence: condition,
                body,
            },
        ))
    }

    // An expression, a colon and a block.
    #[cycle(arm_block_elifs_for_statement_guarded_block_if_statement_otherwise_statement_statements_while_statement_worded)]
    fn guarded_block(&mut self, depth: Depth) -> Result<Guarded, Stop>
        ensures { Between (GuardedTold depth.levels) self.old self.new result }
    {
        let condition = self.expression(0, depth)?;
        self.feed.take_mark(Mark::Colon)?;
        let body = self.block(depth)?;
        Ok(Guarded {
            condition: condition.node,
            body,
        })
    }

    // A block, past the colon before it.
    #[cycle(arm_block_elifs_for_statement_guarded_block_if_statement_otherwise_statement_statements_while_statement_worded)]
    fn block(&mut self, depth: Depth) -> Result<usize, Stop>
        ensures { Between (BlockTold depth.levels) self.old self.new result }
    {
        let inner = self.feed.take_indented(depth)?;
        let before = store(&mut self.arena, Node::NoStatements);
        let last = self.statement(inner)?;
        let first = store(&mut self.arena, Node::MoreStatements { before, last });
        self.statements(first, Mark::Dedent, inner)
    }

    // The statements after those of a list that is not empty, to the mark that ends them. Members of a class have a loop like this
    // one, and why it is another stands there.
    #[cycle(arm_block_elifs_for_statement_guarded_block_if_statement_otherwise_statement_statements_while_statement_worded)]
    pub(crate) fn statements(
        &mut self,
        first: usize,
        close: Mark,
        depth: Depth,
    ) -> Result<usize, Stop>
        requires stored { first < length (arena_nodes self.old.arena) }
        requires some { Filled (phrase (feed_source self.old.feed) (arena_nodes self.old.arena) first).stmts }
        ensures { Between (StatementsTold close depth.levels first) self.old self.new result }
    {
        let mut before = first;
        while !self.feed.passes(close) {
            let last = self.statement(depth)?;
            before = store(&mut self.arena, Node::MoreStatements { before, last });
        }
        Ok(before)
    }
}
