// Reading classes.
ghost use Rattle.std.specs.Prelude.{◌<◌, length};
ghost use Rattle.arena.specs.Tables.{arena_nodes};
ghost use Rattle.reader.specs.Classes.{ClassTold, MemberTold, MembersTold, NamesTold};
ghost use Rattle.reader.specs.Feeds.{coming};
ghost use Rattle.reader.specs.Taking.{Another};
ghost use Rattle.reader.specs.Parsers.{Between};

use crate::depths::Depth;
use crate::feeds::Feed;
use crate::kinds::Mark;
use crate::parsers::Parser;
use crate::refusals::Stop;
use crate::taking::store;
use arena::nodes::{Node, Stretch};

// The names of a class and of its superclass.
#[derive(Clone, Copy)]
pub(crate) struct ClassNames {
    pub(crate) name: Stretch,
    pub(crate) superclass: Stretch,
}

impl Feed<'_, '_> {
    // The names of a class, past the `class` at `place`.
    fn class_names(&mut self, place: usize) -> Result<ClassNames, Stop>
        ensures { NamesTold place self.old self.new result }
    {
        let name = self.take_name()?;
        self.take_round(Depth::OUTSIDE)?;
        let superclass = self.take_name()?;
        self.take_mark(Mark::RightRound)?;
        Ok(ClassNames { name, superclass })
    }
}

impl Parser<'_, '_> {
    // One member of a class, which does not end here.
    fn class_member(&mut self) -> Result<usize, Stop>
        requires goes_on { Another Mark.Dedent (coming self.old.feed) }
        ensures { Between (MemberTold) self.old self.new result }
    {
        if let Some(place) = self.feed.take_if(Mark::Def) {
            return self.function(place, Depth::IN_CLASS);
        }
        let name = self.feed.take_name()?;
        self.feed.take_mark(Mark::Colon)?;
        self.variable(name, Depth::IN_CLASS)
    }

    // The members after those of a list, to the end of the class. Statements have a loop like this one: a loop for both would be
    // generic in what reads an element, which node is stored, and what the contract says of both.
    fn class_members(&mut self, none: usize) -> Result<usize, Stop>
        requires stored { none < length (arena_nodes self.old.arena) }
        ensures { Between (MembersTold none) self.old self.new result }
    {
        let mut before = none;
        while !self.feed.passes(Mark::Dedent) {
            let last = self.class_member()?;
            before = store(&mut self.arena, Node::MoreDeclarations { before, last });
        }
        Ok(before)
    }

    // A class, past the `class` at `place`.
    pub(crate) fn class(&mut self, place: usize) -> Result<usize, Stop>
        ensures { Between (ClassTold place) self.old self.new result }
    {
        let ClassNames { name, superclass } = self.feed.class_names(place)?;
        self.feed.take_mark(Mark::Colon)?;
        self.feed.take_indented(Depth::OUTSIDE)?;
        let none = store(&mut self.arena, Node::NoDeclarations);
        let members = self.class_members(none)?;
        Ok(store(
            &mut self.arena,
            Node::ClassDefinition {
                place,
                name,
                superclass,
                members,
            },
        ))
    }
}
