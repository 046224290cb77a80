// What a reader holds between one source and the next.
ghost use Rattle.std.specs.Prelude.{◌≡◌, vec_len};
ghost use Rattle.arena.specs.Tables.{arena_limit};

use arena::arenas::Arena;

// The tables for sources of at most 4,096 bytes: nodes, and slots for the levels of indentation. A source has at most
// three tokens for each byte and two more, a token costs at most four nodes, and two lists are empty at first. No more
// levels are open than the source has bytes.
#[derive(Drop)]
pub struct Reader {
    pub(crate) arena: Arena,
    pub(crate) slots: Vec<usize>,
    ghost nodes: { arena_limit arena ≡ 49162 },
    ghost levels: { vec_len slots ≡ 4096 },
}
