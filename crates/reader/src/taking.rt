// Taking what must come, and storing nodes.
ghost use Rattle.std.specs.Prelude.{◌≡◌, ℕ, ◌<◌, true, List, [], ◌∷◌, ◌++◌, length, IsTrue, ◌↔◌};
ghost use Rattle.arena.specs.Order.{before};
ghost use Rattle.arena.specs.Tables.{arena_limit, arena_nodes};
ghost use Rattle.grammar.specs.Verdict.{refused};
ghost use Rattle.reader.specs.Feeds.{coming, feed_source};
ghost use Rattle.reader.specs.Kinds.{next_token};
ghost use Rattle.reader.specs.Taking.{Bars, CameTold, MarkTold, NameTold, PassTold};
ghost use Rattle.reader.specs.Reasons.{reason_number};
ghost use Rattle.reader.specs.Stops.{stop_of};

use crate::answers::Refusal;
use crate::feeds::Feed;
use crate::kinds::{Kind, Mark, Next};
use crate::reasons::Reason;
use crate::refusals::Stop;
use arena::arenas::Arena;
use arena::nodes::{Node, Stretch};

// Stores a node that has room and stands after its children: facts of the node and the table, which a type of one could not have.
pub(crate) fn store(arena: &mut Arena, node: Node) -> usize
    requires room { length (arena_nodes arena.old) < arena_limit arena.old }
    requires placed { before (length (arena_nodes arena.old)) node ≡ true }
    ensures index { result ≡ length (arena_nodes arena.old) }
    ensures nodes { arena_nodes arena.new ≡ arena_nodes arena.old ++ (node ∷ []) }
    ensures limit { arena_limit arena.new ≡ arena_limit arena.old }
{
    arena.push(node).unwrap()
}

// The token is refused for this reason.
fn refuse(next: Next, reason: Reason) -> Stop
    ensures { stop_of result ≡ refused (reason_number reason) next.place }
{
    Stop::Refused(Refusal {
        reason,
        place: next.place,
    })
}

// The token fits nowhere here, or is a fault.
pub(crate) fn stop_at(next: Next) -> Stop
    ensures { (src : List ℕ) → Bars (next_token src next) result }
{
    match next.kind {
        Kind::Fault(fault) => refuse(next, Reason::Lexical(fault)),
        _ => refuse(next, Reason::Misplaced),
    }
}

// The token opens a level too many.
pub(crate) fn too_deep(next: Next) -> Stop
    ensures { stop_of result ≡ refused 7 next.place }
{
    refuse(next, Reason::TooDeep)
}

// The token heads a definition in a function body.
pub(crate) fn nested(next: Next) -> Stop
    ensures { stop_of result ≡ refused 8 next.place }
{
    refuse(next, Reason::Nested)
}

// Whether the next token is this mark.
pub(crate) fn is_mark(next: Next, mark: Mark) -> bool
    ensures { IsTrue result ↔ (next.kind ≡ Kind.Mark mark) }
{
    matches!(next.kind, Kind::Mark(found) if found == mark)
}

impl Feed<'_, '_> {
    // Takes a mark that must come. Here and below, that the source is the same is an equation of two feeds, which a type of one
    // could not have.
    pub(crate) fn take_mark(&mut self, mark: Mark) -> Result<(), Stop>
        ensures told { MarkTold mark (coming self.old) (coming self.new) result }
        ensures source { feed_source self.new ≡ feed_source self.old }
    {
        let next = self.next().ok_or(Stop::Unfinished)?;
        if is_mark(next, mark) {
            self.advance();
            Ok(())
        } else {
            Err(stop_at(next))
        }
    }

    // Takes a name that must come.
    pub(crate) fn take_name(&mut self) -> Result<Stretch, Stop>
        ensures told { NameTold (feed_source self.old) (coming self.old) (coming self.new) result }
        ensures source { feed_source self.new ≡ feed_source self.old }
    {
        let next = self.next().ok_or(Stop::Unfinished)?;
        let Kind::Name(len) = next.kind else {
            return Err(stop_at(next));
        };
        self.advance();
        Ok(Stretch {
            at: next.place,
            len,
        })
    }

    // Takes a mark that may come, and tells its place.
    pub(crate) fn take_if(&mut self, mark: Mark) -> Option<usize>
        ensures told { CameTold mark (coming self.old) (coming self.new) result }
        ensures source { feed_source self.new ≡ feed_source self.old }
    {
        let next = self.next()?;
        if is_mark(next, mark) {
            self.advance();
            Some(next.place)
        } else {
            None
        }
    }

    // Takes a mark that may come, and tells whether it came: an answer, not a failure.
    pub(crate) fn passes(&mut self, mark: Mark) -> bool
        ensures told { PassTold mark (coming self.old) (coming self.new) result }
        ensures source { feed_source self.new ≡ feed_source self.old }
    {
        self.take_if(mark).is_some()
    }
}
