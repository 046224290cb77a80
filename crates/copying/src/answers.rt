// What copying answers.
ghost use Rattle.std.specs.Prelude.{◌≡◌};
ghost use Rattle.copying.specs.Endings.{ending_number};

// Why copying ended.
#[derive(Clone, Copy, PartialEq, Eq, Debug)]
pub enum Ending {
    // No line waits any more.
    AllCopied = 0,
    // The next line, which still waits, is too long for what is spare.
    NoSpare = 32,
}

impl Ending {
    // The number that the panel shows.
    pub fn number(self) -> u8
        ensures { result ≡ ending_number self }
    {
        self as u8
    }
}

// How many lines went over, and why no more did.
#[derive(Clone, Copy, PartialEq, Eq, Debug)]
pub struct Copied {
    pub count: usize,
    pub ending: Ending,
}
