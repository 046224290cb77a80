// The text host.
ghost use Rattle.std.specs.Prelude.{◌≡◌};
ghost use Rattle.print_buffer.specs.Buffers.{buffer_bytes, buffer_room};
ghost use Rattle.text_host.specs.HostMeaning.{text_meaning};
ghost use Rattle.text_host.specs.Lines.{lines_of};

use crate::checked::{CheckedText, Text};
use crate::lines::first_line;
use host::admission::admit;
use host::hosts::Host;
use host::refusals::Refusal;
use host::unread::Unread;
use print_buffer::buffers::PrintBuffer;

// A host whose lines are those of a checked text, and which prints text.
#[derive(Drop)]
pub struct TextHost {
    // the lines that wait
    text: Unread<Text>,
    out: PrintBuffer,
}

impl TextHost {
    pub fn new(text: CheckedText, out: PrintBuffer) -> TextHost
        ensures { text_meaning result ≡ record { lines = lines_of text; printed = buffer_bytes out; spare = buffer_room out } }
    {
        TextHost {
            text: Unread::new(text),
            out,
        }
    }

    // What was printed.
    pub fn printed(&self) -> &[u8]
        ensures { result.now ≡ (text_meaning self.now).printed }
    {
        self.out.bytes()
    }
}

impl Host for TextHost {
    ghost meaning = { text_meaning };

    fn waits(&self) -> Option<usize> {
        first_line(self.text.bytes()).map(|line| line.len())
    }

    fn spare(&self) -> usize {
        self.out.room()
    }

    fn take(&mut self, place: &mut [u8]) -> Result<usize, Refusal> {
        let line = first_line(self.text.bytes()).ok_or(Refusal::NoLine)?;
        let length = line.len();
        if place.len() < length {
            return Err(Refusal::TooLong);
        }
        place[..length].copy_from_slice(line);
        self.text.skip(length + 1);
        Ok(length)
    }

    fn put(&mut self, line: &[u8]) -> Result<(), Refusal> {
        admit(self.out.room(), line)?;
        self.out.append(line, b"\n").unwrap();
        Ok(())
    }
}
