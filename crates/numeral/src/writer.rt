// The one writer of numerals.
ghost use Rattle.std.specs.Prelude.{◌≡◌};
ghost use Rattle.numeral.specs.Numerals.{written};

use crate::errors::NumeralError;
use itoa::Buffer;

// The largest number that is written: the magnitude of the least 32-bit signed integer.
const LARGEST: u32 = 2_147_483_648;

// How many digits the longest numeral has.
pub const LONGEST_NUMERAL: usize = 10;

// Writes the numeral of `n` at the front of `place`, and tells how many digits it has; the rest of the place is
// as it was, and all of it where the call refuses. The place is the caller's, since nothing is allocated here.
// Inlined, since the call itself costs a small number as much as its digits do.
#[inline]
#[tactic(auto, using(crate::proofs::NumeralFacts::numeral_standard))]
pub fn write_numeral(n: u32, place: &mut [u8]) -> Result<usize, NumeralError>
    ensures result { result ≡ (written n place.old).result }
    ensures filled { place.new ≡ (written n place.old).place }
{
    if n > LARGEST {
        return Err(NumeralError::OverBound);
    }
    let mut row = Buffer::new();
    let digits = row.format(n).as_bytes();
    let count = digits.len();
    if place.len() < count {
        return Err(NumeralError::PlaceTooShort);
    }
    place[..count].copy_from_slice(digits);
    Ok(count)
}
