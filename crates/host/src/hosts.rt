// The four calls of a host.
ghost use Rattle.std.specs.Prelude.{◌≡◌};
ghost use Rattle.host.specs.Calls.{first_length, put_line, taken};
ghost use Rattle.host.specs.Meaning.{Bounded, Meaning};

use crate::refusals::Refusal;

// What a routine takes its lines from and prints its lines to. All that a caller can tell of a host is its meaning:
// the lines waiting, the bytes printed and the spare.
pub trait Host {
    ghost meaning: { Self → Meaning };

    // The length of the first line waiting, if one waits. Each waiting line has at most 255 bytes: the promise stands
    // on this call and not in a law, which could not read that a host's text was checked.
    fn waits(&self) -> Option<usize>
        ensures first { result ≡ first_length (meaning self.now).lines }
        ensures bounded { Bounded (meaning self.now).lines };

    // How many bytes can still be printed, line feeds included.
    fn spare(&self) -> usize
        ensures { result ≡ (meaning self.now).spare };

    // Removes the first line, fills the front of `place` with it and tells its length.
    fn take(&mut self, place: &mut [u8]) -> Result<usize, Refusal>
        ensures result { result ≡ (taken (meaning self.old) place.old).result }
        ensures after { meaning self.new ≡ (taken (meaning self.old) place.old).after }
        ensures filled { place.new ≡ (taken (meaning self.old) place.old).place };

    // Prints the line and a line feed.
    fn put(&mut self, line: &[u8]) -> Result<(), Refusal>
        ensures result { result ≡ (put_line (meaning self.old) line.now).result }
        ensures after { meaning self.new ≡ (put_line (meaning self.old) line.now).after };
}
