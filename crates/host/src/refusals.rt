// Why a host refuses a call.
ghost use Rattle.std.specs.Prelude.{◌≡◌};
ghost use Rattle.host.specs.Calls.{refusal_number};

// The reason; a refused call has changed nothing, neither the host nor the place given to it.
#[derive(Clone, Copy, PartialEq, Eq, Debug)]
pub enum Refusal {
    // No line waits.
    NoLine = 31,
    // The spare is under the line's length and one.
    NoSpare = 32,
    // The line is over 255 bytes, or longer than the place for it.
    TooLong = 33,
}

impl Refusal {
    // The number that the panel shows.
    pub fn number(self) -> u8
        ensures { result ≡ refusal_number self }
    {
        self as u8
    }
}
