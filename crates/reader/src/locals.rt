// The body of a function.
ghost use Rattle.reader.specs.Owners.{IsFunction};

use crate::depths::Depth;
use crate::items::Item;
use crate::kinds::{Mark, Next};
use crate::parsers::Parser;
use crate::refusals::Stop;
use crate::scopes::Scope;
use crate::taking::nested;

pub(crate) struct Local;

impl Scope for Local {
    ghost owns = { IsFunction };

    fn close() -> Mark {
        Mark::Dedent
    }

    fn marked_item(
        parser: &mut Parser<'_, '_>,
        next: Next,
        mark: Mark,
        depth: Depth,
    ) -> Result<Item, Stop> {
        match mark {
            Mark::Def | Mark::Nonlocal => Err(nested(next)),
            Mark::Global => {
                parser.feed.advance();
                Ok(Item::Declaration(parser.global(next.place, depth)?))
            }
            _ => Ok(Item::Statement(parser.worded(next, mark, depth)?)),
        }
    }
}
