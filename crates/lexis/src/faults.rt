// What can be wrong with the bytes of a source.
ghost use Rattle.std.specs.Prelude.{◌≡◌};
ghost use Rattle.lexis.specs.Faults.{fault_number};

// A byte that begins no token, a number, a string, or an indentation.
#[derive(Clone, Copy, PartialEq, Eq, Debug)]
pub enum Fault {
    Byte = 2,
    Number = 3,
    Text = 4,
    Indentation = 5,
}

impl Fault {
    pub fn number(self) -> u8
        ensures { result ≡ fault_number self }
    {
        self as u8
    }
}
