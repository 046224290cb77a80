// The buffer's parts, and what its contracts see of them.
ghost use Rattle.std.specs.Prelude.{◌≤◌, vec_items, vec_len, vec_capacity};
ghost use Rattle.print_buffer.specs.Buffers.{Held};

use std::marker::Model;

// Bytes printed, at most `limit` of them; all its memory is taken when it is made.
#[derive(Drop)]
pub struct PrintBuffer {
    pub(crate) bytes: Vec<u8>,
    // beside the bytes' capacity, of which `extend_from_slice` promises only that it never shrinks
    pub(crate) limit: usize,
}

impl Model for PrintBuffer {
    ghost Value = { Held };

    ghost view = { λ b. record { bytes = vec_items b.bytes; limit = b.limit } };

    ghost invariant = { λ b. (vec_len b.bytes ≤ b.limit) × (b.limit ≤ vec_capacity b.bytes) };
}
