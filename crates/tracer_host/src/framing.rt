// What can be asked of a frame buffer, and how it grows.
ghost use Rattle.std.specs.Prelude.{◌≡◌, [], ◌++◌, is_ok, IfOk, if◌then◌else◌};
ghost use Rattle.host.specs.Calls.{put_line};
ghost use Rattle.tracer_host.specs.Frames.{framed};
ghost use Rattle.tracer_host.specs.HostMeaning.{frame_bytes, frame_room, frames_meaning};

use crate::frame_buffers::FrameBuffer;
use host::admission::admit;
use host::refusals::Refusal;
use print_buffer::buffers::PrintBuffer;
use std::alloc::{AllocError, Global};

impl FrameBuffer {
    // A buffer without lines that takes `limit` bytes in all. The one place where want of memory is an answer.
    pub fn new(heap: Global, limit: usize) -> Result<FrameBuffer, AllocError>
        ensures { IfOk result (λ b. (frame_bytes b ≡ []) × (frame_room b ≡ limit)) }
    {
        let buffer = PrintBuffer::new(heap, limit)?;
        Ok(FrameBuffer { buffer })
    }

    pub fn bytes(&self) -> &[u8]
        ensures { result.now ≡ frame_bytes self.now }
    {
        self.buffer.bytes()
    }

    // How many bytes it still takes: a line takes its length and one.
    pub fn room(&self) -> usize
        ensures { result ≡ frame_room self.now }
    {
        self.buffer.room()
    }

    // Prints a line: appends its length and its text.
    pub fn put_line(&mut self, line: &[u8]) -> Result<(), Refusal>
        ensures result { result ≡ (put_line (frames_meaning self.old) line.now).result }
        ensures after { frames_meaning self.new ≡ (put_line (frames_meaning self.old) line.now).after }
        ensures bytes { frame_bytes self.new ≡ (if is_ok result then frame_bytes self.old ++ framed line.now else frame_bytes self.old) }
    {
        admit(self.buffer.room(), line)?;
        // a line that is admitted has at most 255 bytes
        self.buffer.append(&[line.len() as u8], line).unwrap();
        Ok(())
    }
}
