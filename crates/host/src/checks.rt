// Why no checked value is made of some bytes.
ghost use Rattle.std.specs.Prelude.{◌≡◌};
ghost use Rattle.host.specs.declared.checks.CheckError.TheVariants.{NoMemory};

use std::alloc::AllocError;

// Bytes with a flaw are refused for it; bytes without one for want of memory alone.
#[derive(Clone, Copy, PartialEq, Eq, Debug)]
pub enum CheckError<F> {
    Flawed(F),
    NoMemory,
}

impl<F> From<AllocError> for CheckError<F> {
    ghost from_gives = { λ _ e. e ≡ NoMemory };

    fn from(_e: AllocError) -> CheckError<F> {
        CheckError::NoMemory
    }
}
