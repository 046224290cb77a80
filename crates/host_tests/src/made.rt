// Hosts for tests.
use print_buffer::buffers::PrintBuffer;
use std::test::Fail;
use text_host::checked::CheckedText;
use text_host::hosts::TextHost;

// A text host over `text`, which takes `room` bytes.
pub fn text_host(rt: &HostRuntime, text: &[u8], room: usize) -> Result<TextHost, Fail> {
    let text = CheckedText::check(rt.alloc(), text)?;
    Ok(TextHost::new(text, PrintBuffer::new(rt.alloc(), room)?))
}
