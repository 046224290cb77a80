// The print buffer of the tracer host.
ghost use Rattle.std.specs.Prelude.{◌≡◌};
ghost use Rattle.print_buffer.specs.Buffers.{buffer_bytes};
ghost use Rattle.tracer_host.specs.Frames.{pending};

use print_buffer::buffers::PrintBuffer;

// Printed lines, each as a byte that is its length and then its text; no line is unfinished.
#[derive(Drop)]
pub struct FrameBuffer {
    pub(crate) buffer: PrintBuffer,
    ghost whole: { pending 0 (buffer_bytes buffer) ≡ 0 },
}
