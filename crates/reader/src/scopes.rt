// Whose body it is that is read: what its declarations are, and what ends it.
ghost use Rattle.std.specs.Prelude.{◌≡◌, Some};
ghost use Rattle.reader.specs.Bodies.{ItemTold};
ghost use Rattle.reader.specs.Feeds.{NextTold, coming, feed_source};
ghost use Rattle.reader.specs.Kinds.{mark_of};
ghost use Rattle.reader.specs.Owners.{Owner, body_mark};
ghost use Rattle.reader.specs.Parsers.{Between};

use crate::depths::Depth;
use crate::items::Item;
use crate::kinds::{Kind, Mark, Next};
use crate::parsers::Parser;
use crate::refusals::Stop;

pub(crate) trait Scope {
    ghost owns: { Owner → Type 0 };

    // The mark that ends a body.
    fn close() -> Mark
        ensures { (x : Owner) → owns x → body_mark x ≡ mark_of result };

    // A declaration or the first statement of a body, where a mark comes.
    fn marked_item(
        parser: &mut Parser<'_, '_>,
        next: Next,
        mark: Mark,
        depth: Depth,
    ) -> Result<Item, Stop>
        requires facing { NextTold (feed_source parser.old.feed) (coming parser.old.feed) (Some next) }
        requires kind { next.kind ≡ Kind.Mark mark }
        ensures { Between (ItemTold owns depth.levels) parser.old parser.new result };
}
