// Why a numeral is not written; the place is then as it was.
#[derive(Clone, Copy, PartialEq, Eq, Debug)]
pub enum NumeralError {
    // The number is over 2,147,483,648, the largest magnitude of a 32-bit signed integer.
    OverBound,
    // The numeral has more digits than the place has bytes.
    PlaceTooShort,
}
