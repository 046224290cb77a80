// What can be wrong with a text.
ghost use Rattle.std.specs.Prelude.{◌≡◌};
ghost use Rattle.text_host.specs.Texts.{flaw_number};

#[derive(Clone, Copy, PartialEq, Eq, Debug)]
pub enum TextFlaw {
    // A line is over 255 bytes.
    LongLine = 64,
}

impl TextFlaw {
    // The number that the panel shows.
    pub fn number(self) -> u8
        ensures { result ≡ flaw_number self }
    {
        self as u8
    }
}
