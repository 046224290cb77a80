// Reading the body of a function, or of the program: declarations, and then statements.
ghost use Rattle.std.specs.Prelude.{◌+◌, ◌<◌, ◌≤◌, length};
ghost use Rattle.arena.specs.Tables.{arena_limit, arena_nodes};
ghost use Rattle.reader.specs.Bodies.{BodyTold, Emptied, EmptyBody, FunctionBodyTold, ItemTold, OpeningTold};
ghost use Rattle.reader.specs.Parsers.{Between};

use crate::answers::Routine;
use crate::depths::Depth;
use crate::items::{Item, Opening};
use crate::kinds::Kind;
use crate::locals::Local;
use crate::parsers::Parser;
use crate::refusals::Stop;
use crate::scopes::Scope;
use crate::taking::store;
use arena::arenas::Arena;
use arena::nodes::Node;

// A body without declarations and statements.
pub(crate) fn empty_body(arena: &mut Arena) -> Routine
    requires { length (arena_nodes arena.old) + 2 ≤ arena_limit arena.old }
    ensures { Emptied arena.old arena.new result }
{
    let declarations = store(arena, Node::NoDeclarations);
    let statements = store(arena, Node::NoStatements);
    Routine {
        declarations,
        statements,
    }
}

impl Parser<'_, '_> {
    // A declaration, or the first statement of a body. Like `statement`, but for what a mark and a line may be here,
    // and for the states that the contracts name.
    fn body_item<S: Scope>(&mut self, depth: Depth) -> Result<Item, Stop>
        ensures { Between (ItemTold S.Scope.owns depth.levels) self.old self.new result }
    {
        let next = self.feed.next().ok_or(Stop::Unfinished)?;
        match next.kind {
            Kind::Mark(mark) => S::marked_item(self, next, mark, depth),
            Kind::Name(_)
            | Kind::Text(_)
            | Kind::Constant(_)
            | Kind::Dot
            | Kind::LeftRound
            | Kind::LeftSquare
            | Kind::Not
            | Kind::Operator(_)
            | Kind::Fault(_) => self.first_line(next, depth),
        }
    }

    // The declarations after those of a list, and the first statement.
    fn declarations<S: Scope>(&mut self, none: usize, depth: Depth) -> Result<Opening, Stop>
        requires stored { none < length (arena_nodes self.old.arena) }
        ensures { Between (OpeningTold S.Scope.owns depth.levels none) self.old self.new result }
    {
        let mut before = none;
        loop {
            match self.body_item::<S>(depth)? {
                Item::Declaration(last) => {
                    before = store(&mut self.arena, Node::MoreDeclarations { before, last });
                }
                Item::Statement(statement) => {
                    return Ok(Opening {
                        declarations: before,
                        statement,
                    });
                }
            }
        }
    }

    // A body, to its end, from an empty one.
    pub(crate) fn whole_body<S: Scope>(
        &mut self,
        empty: Routine,
        depth: Depth,
    ) -> Result<Routine, Stop>
        requires empty { EmptyBody self.old.arena empty }
        ensures { Between (BodyTold S.Scope.owns depth.levels) self.old self.new result }
    {
        let Opening {
            declarations,
            statement,
        } = self.declarations::<S>(empty.declarations, depth)?;
        let first = store(
            &mut self.arena,
            Node::MoreStatements {
                before: empty.statements,
                last: statement,
            },
        );
        let statements = self.statements(first, S::close(), depth)?;
        Ok(Routine {
            declarations,
            statements,
        })
    }

    // The body of a function, past its colon.
    pub(crate) fn function_body(&mut self, depth: Depth) -> Result<Routine, Stop>
        ensures { Between (FunctionBodyTold depth.levels) self.old self.new result }
    {
        let inner = self.feed.take_indented(depth)?;
        let empty = empty_body(&mut self.arena);
        self.whole_body::<Local>(empty, inner)
    }
}
