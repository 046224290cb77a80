// The table's parts.
ghost use Rattle.std.specs.Prelude.{◌≡◌, ◌≤◌, true, vec_len, vec_capacity};
ghost use Rattle.arena.specs.Order.{ordered};

use crate::nodes::Node;

// Nodes, at most `limit` of them, each after its children; all memory is taken when the table is made. What it shares with a
// print buffer is two fields and how they are made: a type for those would hand on each call of a `Vec`.
#[derive(Drop)]
pub struct Arena {
    pub(crate) nodes: Vec<Node>,
    // The room of `nodes` may be more than was asked for; the limit is exact.
    pub(crate) limit: usize,
    ghost fits: { (vec_len nodes ≤ limit) × (limit ≤ vec_capacity nodes) },
    ghost sorted: { ordered 0 nodes.items ≡ true },
}
