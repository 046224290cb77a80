// The tracer host.
ghost use Rattle.std.specs.Prelude.{◌≡◌, drop};
ghost use Rattle.tracer_host.specs.HostMeaning.{frame_room, lines_printed, tracer_frames, tracer_meaning};
ghost use Rattle.tracer_host.specs.Traces.{radius_lines};

use crate::checked::{CheckedTrace, Trace};
use crate::frame_buffers::FrameBuffer;
use crate::words::first_radius;
use host::hosts::Host;
use host::refusals::Refusal;
use host::unread::Unread;
use numeral::writer::{LONGEST_NUMERAL, write_numeral};

// Where the radii begin in a trace file.
const FIRST_RADIUS: usize = 7;

// A host whose lines are the numerals of a checked trace's radii, and which prints frames: the length of each line
// as a byte, and its text.
#[derive(Drop)]
pub struct TracerHost {
    // the radii that wait
    trace: Unread<Trace>,
    out: FrameBuffer,
}

impl TracerHost {
    pub fn new(trace: CheckedTrace, out: FrameBuffer) -> TracerHost
        ensures { tracer_meaning result ≡ record { lines = radius_lines (drop 7 trace); printed = lines_printed out; spare = frame_room out } }
    {
        let mut trace = Unread::new(trace);
        trace.skip(FIRST_RADIUS);
        TracerHost { trace, out }
    }

    // The frames that were printed.
    pub fn frames(&self) -> &[u8]
        ensures { result.now ≡ tracer_frames self.now }
    {
        self.out.bytes()
    }
}

impl Host for TracerHost {
    ghost meaning = { tracer_meaning };

    fn waits(&self) -> Option<usize> {
        let radius = first_radius(self.trace.bytes())?;
        let mut place = [0; LONGEST_NUMERAL];
        write_numeral(u32::from(radius), &mut place).ok()
    }

    fn spare(&self) -> usize {
        self.out.room()
    }

    fn take(&mut self, place: &mut [u8]) -> Result<usize, Refusal> {
        let radius = first_radius(self.trace.bytes()).ok_or(Refusal::NoLine)?;
        let length = write_numeral(u32::from(radius), place).map_err(|_| Refusal::TooLong)?;
        self.trace.skip(2);
        Ok(length)
    }

    fn put(&mut self, line: &[u8]) -> Result<(), Refusal> {
        self.out.put_line(line)
    }
}
