// Reading the parameters of a function.
ghost use Rattle.std.specs.Prelude.{◌+◌, ◌*◌, ◌<◌, ◌≤◌, length, OnOk};
ghost use Rattle.arena.specs.Tables.{arena_nodes};
ghost use Rattle.reader.specs.Functions.{MoreParametersTold, ParametersTold, SomeParametersTold};
ghost use Rattle.reader.specs.Feeds.{coming, feed_source};
ghost use Rattle.reader.specs.Keeping.{Kept};
ghost use Rattle.reader.specs.Parameters.{ParameterTells};
ghost use Rattle.reader.specs.Parsers.{Between};

use crate::depths::Depth;
use crate::kinds::Mark;
use crate::parsers::Parser;
use crate::refusals::Stop;
use crate::taking::store;
use arena::nodes::{Node, Stretch};

// A parameter: its name, and its annotation's node.
#[derive(Clone, Copy)]
pub(crate) struct Parameter {
    pub(crate) name: Stretch,
    pub(crate) annotation: usize,
}

impl Parser<'_, '_> {
    // Reads one parameter.
    pub(crate) fn one_parameter(&mut self, depth: Depth) -> Result<Parameter, Stop>
        ensures kept { Kept self.old.feed self.old.arena self.new.feed self.new.arena }
        ensures tells { ParameterTells (feed_source self.old.feed) (arena_nodes self.new.arena) depth.levels (coming self.old.feed) (coming self.new.feed) result }
        ensures spare { OnOk result (length (arena_nodes self.new.arena) + 8 + 4 * length (coming self.new.feed) ≤ length (arena_nodes self.old.arena) + 4 * length (coming self.old.feed)) }
    {
        let name = self.feed.take_name()?;
        self.feed.take_mark(Mark::Colon)?;
        let annotation = self.annotation(depth)?;
        Ok(Parameter { name, annotation })
    }

    // One parameter more in a list.
    fn more_parameters(&mut self, list: usize, depth: Depth) -> Result<usize, Stop>
        requires stored { list < length (arena_nodes self.old.arena) }
        ensures { Between (MoreParametersTold depth.levels list) self.old self.new result }
    {
        let Parameter { name, annotation } = self.one_parameter(depth)?;
        Ok(store(
            &mut self.arena,
            Node::MoreParameters {
                before: list,
                name,
                annotation,
            },
        ))
    }

    // One parameter or more, and the parenthesis that closes their list. Lists of expressions have a loop like this one: a loop
    // for both would be generic in what reads an element, which node is stored, and what the contract says of both.
    fn some_parameters(&mut self, empty: usize, depth: Depth) -> Result<usize, Stop>
        requires stored { empty < length (arena_nodes self.old.arena) }
        ensures { Between (SomeParametersTold depth.levels empty) self.old self.new result }
    {
        let mut list = self.more_parameters(empty, depth)?;
        while self.feed.passes(Mark::Comma) {
            list = self.more_parameters(list, depth)?;
        }
        self.feed.take_mark(Mark::RightRound)?;
        Ok(list)
    }

    // The parameters of a function, in their parentheses.
    pub(crate) fn parameters(&mut self, depth: Depth) -> Result<usize, Stop>
        ensures { Between (ParametersTold depth.levels) self.old self.new result }
    {
        let inner = self.feed.take_round(depth)?;
        let empty = store(&mut self.arena, Node::NoParameters);
        if self.feed.passes(Mark::RightRound) {
            return Ok(empty);
        }
        self.some_parameters(empty, inner)
    }
}
