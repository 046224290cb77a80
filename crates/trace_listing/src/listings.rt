// From the bytes of a trace to the bytes of its listing.
ghost use Rattle.std.specs.Prelude.{◌≡◌, ◌≤◌, [], drop, IfOk, None};
ghost use Rattle.copying.specs.Copies.{copied};
ghost use Rattle.print_buffer.specs.Buffers.{buffer_bytes, buffer_room};
ghost use Rattle.text_host.specs.HostMeaning.{text_meaning};
ghost use Rattle.tracer_host.specs.HostMeaning.{tracer_meaning};
ghost use Rattle.tracer_host.specs.Traces.{radii_of, trace_flaw};
ghost use Rattle.trace_listing.specs.Listings.{AsManyAsFit, copied_listing, listing, pile_start};

use copying::copies::copy_lines;
use host::checks::CheckError;
use host::quotas::Quota;
use number_output::appending::{LONGEST_PAIR, append_pair};
use print_buffer::buffers::PrintBuffer;
use std::alloc::{AllocError, Global};
use text_host::checked::CheckedText;
use text_host::hosts::TextHost;
use tracer_host::checked::CheckedTrace;
use tracer_host::frame_buffers::FrameBuffer;
use tracer_host::hosts::TracerHost;

// How many bytes of lines a listing has at most.
const QUOTA: usize = 4_096;

// The room of the text host under the quota.
const ROOM: usize = 8_192;

// How many bytes a listing has at most: its lines, and the summary.
const LONGEST_LISTING: usize = QUOTA + LONGEST_PAIR;

// Lists the tracer's lines, copied through a quota to the text host, and the summary.
fn list_lines(mut tracer: TracerHost, text: TextHost, out: &mut PrintBuffer)
    requires fresh { text_meaning text ≡ record { lines = []; printed = []; spare = 8192 } }
    requires empty { buffer_bytes out.old ≡ [] }
    requires room { 4118 ≤ buffer_room out.old }
    ensures { buffer_bytes out.new ≡ copied_listing (copied (tracer_meaning tracer) pile_start) }
{
    let mut pile = Quota {
        allowance: QUOTA,
        below: text,
    };
    let copied = copy_lines(&mut tracer, &mut pile);
    out.append(pile.below.printed(), b"").unwrap();
    // as many lines as the quota has bytes at most, so the count fits
    append_pair(out, u32::from(copied.ending.number()), copied.count as u32).unwrap();
}

// The listing of a trace. All memory is taken before the first line is copied; want of it is the one error.
#[tactic(auto, using(number_output::proofs::PairFacts::length_pair_text))]
pub fn list_trace(heap: Global, input: &[u8]) -> Result<PrintBuffer, AllocError>
    ensures bytes { IfOk result (λ b. buffer_bytes b ≡ listing input.now) }
    ensures fits { IfOk result (λ b. trace_flaw input.now ≡ None → AsManyAsFit (radii_of (drop 7 input.now)) (buffer_bytes b)) }
{
    let mut out = PrintBuffer::new(heap, LONGEST_LISTING)?;
    let lines = PrintBuffer::new(heap, ROOM)?;
    let frames = FrameBuffer::new(heap, 0)?;
    match CheckedTrace::check(heap, input) {
        Ok(trace) => {
            let text = TextHost::new(CheckedText::empty(heap), lines);
            list_lines(TracerHost::new(trace, frames), text, &mut out);
        }
        Err(CheckError::Flawed(flaw)) => {
            append_pair(&mut out, u32::from(flaw.number()), 0).unwrap();
        }
        Err(CheckError::NoMemory) => return Err(AllocError),
    }
    Ok(out)
}
