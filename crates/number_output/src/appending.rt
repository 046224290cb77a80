// A number and the byte after it, and a line of two numbers.
ghost use Rattle.std.specs.Prelude.{◌≡◌, ◌<◌, ◌≤◌, MatchResult};
ghost use Rattle.number_output.specs.Numbers.{number_text, numbered, paired};

use crate::errors::NumberError;
use numeral::writer::{LONGEST_NUMERAL, write_numeral};
use print_buffer::buffers::PrintBuffer;

// How many bytes a number and the byte after it take at most.
const LONGEST_NUMBER: usize = LONGEST_NUMERAL + 1;

// How many bytes a line of two numbers takes at most.
pub const LONGEST_PAIR: usize = 2 * LONGEST_NUMBER;

// The numeral of `n` and one byte more, put at the front of `place`.
#[tactic(auto, using(numeral::proofs::NumeralFacts::length_numeral))]
fn number_bytes(n: u32, end: u8, place: &mut [u8; LONGEST_NUMBER]) -> Result<&[u8], NumberError>
    ensures { MatchResult result
        (λ text. (n ≤ 2147483648) × (text.now ≡ number_text n end))
        (λ e. (2147483648 < n) × (e ≡ NumberError.OverBound)) }
{
    let count = write_numeral(n, place)?;
    place[count] = end;
    Ok(&place[..=count])
}

// Appends the numeral of `n` and one byte more, or neither.
pub fn append_number(out: &mut PrintBuffer, n: u32, end: u8) -> Result<(), NumberError>
    ensures result { result ≡ (numbered out.old n end).result }
    ensures after { out.new ≡ record out.old { bytes = (numbered out.old n end).bytes } }
{
    let mut place = [0; LONGEST_NUMBER];
    out.append(number_bytes(n, end, &mut place)?, b"")?;
    Ok(())
}

// Appends two numbers in a line, a blank after the first and a line feed after the second, or nothing.
pub fn append_pair(out: &mut PrintBuffer, first: u32, second: u32) -> Result<(), NumberError>
    ensures result { result ≡ (paired out.old first second).result }
    ensures after { out.new ≡ record out.old { bytes = (paired out.old first second).bytes } }
{
    let mut front = [0; LONGEST_NUMBER];
    let mut back = [0; LONGEST_NUMBER];
    out.append(
        number_bytes(first, b' ', &mut front)?,
        number_bytes(second, b'\n', &mut back)?,
    )?;
    Ok(())
}
