// Reading the definition of a function.
ghost use Rattle.reader.specs.Functions.{FunctionTold, GlobalTold, HeadingTold, ResultTold};
ghost use Rattle.reader.specs.Parsers.{Between};

use crate::answers::Routine;
use crate::depths::Depth;
use crate::kinds::Mark;
use crate::parsers::Parser;
use crate::refusals::Stop;
use crate::taking::store;
use arena::nodes::{Node, Stretch};

// A function's name, and its parameters' node.
#[derive(Clone, Copy)]
pub(crate) struct Heading {
    pub(crate) name: Stretch,
    pub(crate) parameters: usize,
}

impl Parser<'_, '_> {
    // A function's name and parameters.
    fn name_and_parameters(&mut self, place: usize, depth: Depth) -> Result<Heading, Stop>
        ensures { Between (HeadingTold depth.levels place) self.old self.new result }
    {
        let name = self.feed.take_name()?;
        let parameters = self.parameters(depth)?;
        Ok(Heading { name, parameters })
    }

    // A function's result, with the arrow before it and the colon after it.
    fn result_type(&mut self, depth: Depth) -> Result<usize, Stop>
        ensures { Between (ResultTold depth.levels) self.old self.new result }
    {
        self.feed.take_mark(Mark::Arrow)?;
        let result = self.annotation(depth)?;
        self.feed.take_mark(Mark::Colon)?;
        Ok(result)
    }

    // A function, past the `def` at `place`.
    pub(crate) fn function(&mut self, place: usize, depth: Depth) -> Result<usize, Stop>
        ensures { Between (FunctionTold depth.levels place) self.old self.new result }
    {
        let Heading { name, parameters } = self.name_and_parameters(place, depth)?;
        let result = self.result_type(depth)?;
        let Routine {
            declarations,
            statements,
        } = self.function_body(depth)?;
        Ok(store(
            &mut self.arena,
            Node::FunctionDefinition {
                place,
                name,
                parameters,
                result,
                declarations,
                body: statements,
            },
        ))
    }

    // A name of the global scope, past the `global` at `place`.
    pub(crate) fn global(&mut self, place: usize, depth: Depth) -> Result<usize, Stop>
        ensures { Between (GlobalTold depth.levels place) self.old self.new result }
    {
        let name = self.feed.take_name()?;
        self.feed.take_mark(Mark::Newline)?;
        Ok(store(&mut self.arena, Node::Global { place, name }))
    }
}
