// What can be wrong with a trace.
ghost use Rattle.std.specs.Prelude.{◌≡◌};
ghost use Rattle.tracer_host.specs.Traces.{flaw_number};

#[derive(Clone, Copy, PartialEq, Eq, Debug)]
pub enum TraceFlaw {
    // It is under 7 bytes, or does not begin with the mark `RAD`.
    Mark = 61,
    // It is of another version than 1.
    Version = 62,
    // It is not as long as its count says.
    Length = 63,
}

impl TraceFlaw {
    // The number that the panel shows.
    pub fn number(self) -> u8
        ensures { result ≡ flaw_number self }
    {
        self as u8
    }
}
