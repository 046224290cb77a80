// The test that every host with a print buffer makes before it prints.
ghost use Rattle.std.specs.Prelude.{◌≡◌, length};
ghost use Rattle.host.specs.Calls.{admitted};

use crate::refusals::Refusal;

// The longest line that a host takes or gives.
pub const LONGEST_LINE: usize = 255;

// Whether a line may be printed where this much is spare: the spare is judged before the line's length.
pub fn admit(spare: usize, line: &[u8]) -> Result<(), Refusal>
    ensures { result ≡ admitted spare (length line.now) }
{
    if spare <= line.len() {
        return Err(Refusal::NoSpare);
    }
    if line.len() > LONGEST_LINE {
        return Err(Refusal::TooLong);
    }
    Ok(())
}
