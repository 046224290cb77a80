// The value of an integer literal.
ghost use Rattle.std.specs.Prelude.{◌≡◌};
ghost use Rattle.lexis.specs.Numbers.{number_of, zero_led};
ghost use Rattle.lexer.specs.Capped.{capped};

const LIMIT: u32 = 2147483647;

fn zero_led(digits: &[u8]) -> bool
    ensures { result ≡ zero_led digits.now }
{
    matches!(digits, [b'0', _, ..])
}

// A number with one more digit, if it is at most 2147483647.
fn with_digit(value: u32, d: u8) -> Option<u32>
    ensures { result ≡ capped value d }
{
    let value = value
        .checked_mul(10)?
        .checked_add(u32::from(d.saturating_sub(b'0')))?;
    (value <= LIMIT).then_some(value)
}

// The value of a run of digits, if it is at most 2147483647 and has no leading zero.
pub fn number_of(digits: &[u8]) -> Option<u32>
    ensures { result ≡ number_of digits.now }
{
    if zero_led(digits) {
        return None;
    }
    digits.iter().try_fold(0, |value, d| with_digit(value, *d))
}
