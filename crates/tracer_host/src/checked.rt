// A checked trace: a trace file without a flaw, or no bytes.
ghost use Rattle.tracer_host.specs.Traces.{trace_flaw};

use crate::flaws::TraceFlaw;
use crate::words::word;
use host::formats::{Checked, Format};

const VERSION: u16 = 1;

// The format of a trace file: `RAD`, the version, the count, and that many radii, each of these two bytes.
#[derive(Drop)]
pub struct Trace;

// A trace file without a flaw, or no bytes at all: the empty trace, which has no radii either.
pub type CheckedTrace = Checked<Trace>;

impl Format for Trace {
    type Flaw = TraceFlaw;

    ghost flaw = { trace_flaw };

    fn flaw_of(bytes: &[u8]) -> Option<TraceFlaw> {
        let [
            b'R',
            b'A',
            b'D',
            version_high,
            version_low,
            count_high,
            count_low,
            radii @ ..,
        ] = bytes
        else {
            return Some(TraceFlaw::Mark);
        };
        if word(*version_high, *version_low) != VERSION {
            return Some(TraceFlaw::Version);
        }
        if radii.len() != 2 * usize::from(word(*count_high, *count_low)) {
            return Some(TraceFlaw::Length);
        }
        None
    }
}
