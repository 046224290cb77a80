// What can be asked of a print buffer, and how it grows.
ghost use Rattle.std.specs.Prelude.{◌≡◌, ◌+◌, [], length, IfOk};
ghost use Rattle.print_buffer.specs.Buffers.{appended, buffer_bytes, buffer_limit, buffer_room};

use crate::buffers::PrintBuffer;
use std::alloc::{AllocError, Global};

// The room left is too small; nothing was appended.
#[derive(Clone, Copy, PartialEq, Eq, Debug)]
pub struct NoRoom;

impl PrintBuffer {
    // An empty buffer that takes `limit` bytes in all. The one place where want of memory is an answer.
    pub fn new(heap: Global, limit: usize) -> Result<PrintBuffer, AllocError>
        ensures { IfOk result (λ b. (buffer_bytes b ≡ []) × (buffer_limit b ≡ limit)) }
    {
        let bytes = Vec::with_capacity(heap, limit)?;
        Ok(PrintBuffer { bytes, limit })
    }

    pub fn bytes(&self) -> &[u8]
        ensures { result.now ≡ buffer_bytes self.now }
    {
        self.bytes.as_slice()
    }

    // How many bytes it still takes: with those that it holds, its limit.
    pub fn room(&self) -> usize
        ensures room { result ≡ buffer_room self.now }
        ensures whole { length (buffer_bytes self.now) + result ≡ buffer_limit self.now }
    {
        self.limit - self.bytes.len()
    }

    // Appends two parts, one after the other, or neither.
    pub fn append(&mut self, first: &[u8], second: &[u8]) -> Result<(), NoRoom>
        ensures result { result ≡ (appended self.old first.now second.now).result }
        ensures after { self.new ≡ record self.old { bytes = (appended self.old first.now second.now).bytes } }
    {
        let room = self.room();
        if room < first.len() || room - first.len() < second.len() {
            return Err(NoRoom);
        }
        self.bytes.extend_from_slice(first).unwrap();
        self.bytes.extend_from_slice(second).unwrap();
        Ok(())
    }
}
