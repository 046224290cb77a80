// Why a number is not appended; the buffer is then as it was.
ghost use Rattle.std.specs.Prelude.{◌≡◌};
ghost use Rattle.number_output.specs.Errors.{number_error};
ghost use Rattle.number_output.specs.declared.errors.NumberError.TheVariants as variant;

use numeral::errors::NumeralError;
use print_buffer::appending::NoRoom;

#[derive(Clone, Copy, PartialEq, Eq, Debug)]
pub enum NumberError {
    // The number is over 2,147,483,648, the largest that has a numeral.
    OverBound,
    // The room left is too small.
    NoRoom,
}

impl From<NumeralError> for NumberError {
    ghost from_gives = { λ e r. r ≡ number_error e };

    fn from(e: NumeralError) -> NumberError {
        match e {
            NumeralError::OverBound => NumberError::OverBound,
            NumeralError::PlaceTooShort => NumberError::NoRoom,
        }
    }
}

impl From<NoRoom> for NumberError {
    ghost from_gives = { λ _ r. r ≡ variant.NoRoom };

    fn from(_e: NoRoom) -> NumberError {
        NumberError::NoRoom
    }
}
