// What a routine is read from, and what it is read into.
ghost use Rattle.reader.specs.Keeping.{Room};

use crate::feeds::Feed;
use arena::arenas::Arena;

// The tokens still to be read, and the table for their nodes, which has room for all that they may cost. It owns the table: of
// one that it borrowed, each function would have to say that it is still the same.
#[derive(Drop)]
pub(crate) struct Parser<'a, 's> {
    pub(crate) feed: Feed<'a, 's>,
    pub(crate) arena: Arena,
    ghost room: { Room feed arena },
}
