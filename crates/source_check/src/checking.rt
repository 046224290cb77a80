// From the bytes of a source to the line that tells the verdict on it.
ghost use Rattle.std.specs.Prelude.{◌≡◌, IfOk};
ghost use Rattle.print_buffer.specs.Buffers.{buffer_bytes};
ghost use Rattle.source_check.specs.Lines.{verdict_line};

use number_output::appending::{LONGEST_PAIR, append_pair};
use print_buffer::buffers::PrintBuffer;
use reader::answers::Refusal;
use reader::tables::Reader;
use std::alloc::{AllocError, Global};

// The line for a source: the number and place of its refusal, or 0 and 0 if it reads. All memory is taken before
// anything is read; want of it is the one error.
#[tactic(auto, using(number_output::proofs::PairFacts::length_pair_text))]
pub fn check_source(heap: Global, input: &[u8]) -> Result<PrintBuffer, AllocError>
    ensures { IfOk result (λ b. buffer_bytes b ≡ verdict_line input.now) }
{
    let mut out = PrintBuffer::new(heap, LONGEST_PAIR)?;
    let mut reader = Reader::new(heap)?;
    match reader.read(input) {
        Ok(_) => append_pair(&mut out, 0, 0).unwrap(),
        Err(Refusal { reason, place }) => {
            // a place is at most the length of the longest source
            append_pair(&mut out, u32::from(reason.number()), place as u32).unwrap();
        }
    }
    Ok(out)
}
