// How many levels are open: of brackets, blocks and operators before their operand.
ghost use Rattle.std.specs.Prelude.{◌≤◌};

// No more than 64 are open at once.
#[derive(Clone, Copy)]
pub(crate) struct Depth {
    pub(crate) levels: usize,
    ghost most: { levels ≤ 64 },
}
