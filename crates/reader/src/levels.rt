// Opening a level.
ghost use Rattle.std.specs.Prelude.{◌≡◌, ◌+◌, IfOk};
ghost use Rattle.reader.specs.Levels.{DeeperTold, IndentTold, IndentedTold, RoundTold};

use crate::depths::Depth;
use crate::feeds::Feed;
use crate::kinds::{Kind, Mark, Next};
use crate::refusals::Stop;
use crate::taking::{is_mark, stop_at, too_deep};

// How many levels may be open at once.
const MOST_LEVELS: usize = 64;

impl Depth {
    // Outside of all levels.
    pub(crate) const OUTSIDE: Depth = Depth { levels: 0 };

    // In a class.
    pub(crate) const IN_CLASS: Depth = Depth { levels: 1 };

    // One level more, which the token here opens.
    pub(crate) fn deeper(self, next: Next) -> Result<Depth, Stop>
        ensures { DeeperTold self.levels next.place result }
    {
        if self.levels == MOST_LEVELS {
            return Err(too_deep(next));
        }
        Ok(Depth {
            levels: self.levels + 1,
        })
    }
}

impl Feed<'_, '_> {
    // Takes an INDENT that must come, which opens a level.
    fn take_indent(&mut self, depth: Depth) -> Result<Depth, Stop>
        ensures told { IndentTold depth.levels self.old self.new result }
        ensures deeper { IfOk result (λ e. e.levels ≡ depth.levels + 1) }
    {
        let next = self.next().ok_or(Stop::Unfinished)?;
        if !is_mark(next, Mark::Indent) {
            return Err(stop_at(next));
        }
        let inner = depth.deeper(next)?;
        self.advance();
        Ok(inner)
    }

    // Takes the end of a line and the INDENT after it.
    pub(crate) fn take_indented(&mut self, depth: Depth) -> Result<Depth, Stop>
        ensures told { IndentedTold depth.levels self.old self.new result }
        ensures deeper { IfOk result (λ e. e.levels ≡ depth.levels + 1) }
    {
        self.take_mark(Mark::Newline)?;
        self.take_indent(depth)
    }

    // Takes a parenthesis that must come, which opens a level: a function beside that of an INDENT, since a parenthesis is no mark,
    // and the states before the two are others.
    pub(crate) fn take_round(&mut self, depth: Depth) -> Result<Depth, Stop>
        ensures told { RoundTold depth.levels self.old self.new result }
        ensures deeper { IfOk result (λ e. e.levels ≡ depth.levels + 1) }
    {
        let next = self.next().ok_or(Stop::Unfinished)?;
        if !matches!(next.kind, Kind::LeftRound) {
            return Err(stop_at(next));
        }
        let inner = depth.deeper(next)?;
        self.advance();
        Ok(inner)
    }
}
