// Why a source is no routine.
ghost use Rattle.std.specs.Prelude.{◌≡◌};
ghost use Rattle.reader.specs.Reasons.{reason_number};

use lexis::faults::Fault;

#[derive(Clone, Copy, PartialEq, Eq, Debug)]
pub enum Reason {
    // The source is longer than a reader takes.
    TooLong,
    // Its bytes make no token here.
    Lexical(Fault),
    // No routine has the token here.
    Misplaced,
    // The token opens a level too many.
    TooDeep,
    // The token heads a definition in a function body.
    Nested,
}

impl Reason {
    // The number by which a verdict tells the reason. It is no discriminant, since that of a fault is the fault's own.
    pub fn number(self) -> u8
        ensures { result ≡ reason_number self }
    {
        match self {
            Reason::TooLong => 1,
            Reason::Lexical(fault) => fault.number(),
            Reason::Misplaced => 6,
            Reason::TooDeep => 7,
            Reason::Nested => 8,
        }
    }
}
