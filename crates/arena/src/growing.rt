// How the table grows, and what it holds.
ghost use Rattle.std.specs.Prelude.{◌≡◌, [], IfOk, slice_get};
ghost use Rattle.arena.specs.Tables.{arena_limit, arena_nodes, pushed};

use crate::arenas::Arena;
use crate::nodes::Node;
use std::alloc::{AllocError, Global};
use std::mem;

// Why a node is not stored; the table is then as it was.
#[derive(Clone, Copy, PartialEq, Eq, Debug)]
pub enum ArenaError {
    // It has as many nodes as it takes.
    Full,
    // A child of the node does not stand before it.
    LaterChild,
}

impl Arena {
    // An empty table that takes `limit` nodes. The one place where want of memory is an answer.
    pub fn new(heap: Global, limit: usize) -> Result<Arena, AllocError>
        ensures { IfOk result (λ a. (arena_nodes a ≡ []) × (arena_limit a ≡ limit)) }
    {
        let nodes = Vec::with_capacity(heap, limit)?;
        Ok(Arena { nodes, limit })
    }

    // Empties the table; it keeps its room.
    pub fn clear(&mut self)
        ensures nodes { arena_nodes self.new ≡ [] }
        ensures limit { arena_limit self.new ≡ arena_limit self.old }
    {
        self.nodes.clear();
    }

    // Takes the table out, and leaves one that takes no node.
    pub fn take(&mut self) -> Arena
        ensures nodes { arena_nodes result ≡ arena_nodes self.old }
        ensures limit { arena_limit result ≡ arena_limit self.old }
        ensures left { (arena_nodes self.new ≡ []) × (arena_limit self.new ≡ 0) }
    {
        let heap = *self.nodes.allocator();
        let none = Arena {
            nodes: Vec::new(heap),
            limit: 0,
        };
        mem::replace(self, none)
    }

    // Stores a node behind all others, and tells its index.
    pub fn push(&mut self, node: Node) -> Result<usize, ArenaError>
        ensures result { result ≡ (pushed self.old node).result }
        ensures nodes { arena_nodes self.new ≡ (pushed self.old node).nodes }
        ensures limit { arena_limit self.new ≡ arena_limit self.old }
    {
        let index = self.nodes.len();
        if index >= self.limit {
            return Err(ArenaError::Full);
        }
        if !node.is_before(index) {
            return Err(ArenaError::LaterChild);
        }
        self.nodes.push_reserved(node);
        Ok(index)
    }

    // The node at an index.
    pub fn node(&self, index: usize) -> Option<Node>
        ensures { result ≡ slice_get (arena_nodes self.now) index }
    {
        self.nodes.get(index).copied()
    }
}
