// Bytes of a format: the fact that they were checked is part of their type.
ghost use Rattle.std.specs.Prelude.{◌≡◌, ℕ, true, List, [], Option};
ghost use Rattle.host.specs.Checks.{Checks};
ghost use Rattle.host.specs.Sound.{empty_or_sound};

use crate::checks::CheckError;
use std::alloc::Global;
use std::marker::{Model, PhantomData};

// A format of bytes: what is wrong with bytes that are not of it.
pub trait Format {
    type Flaw;

    ghost flaw: { List ℕ → Option Self.Flaw };

    // The flaw of some bytes, if they have one.
    fn flaw_of(bytes: &[u8]) -> Option<Self::Flaw>
        ensures { result ≡ flaw bytes.now };
}

// Bytes of a format, or no bytes at all.
#[derive(Drop)]
pub struct Checked<K: Format> {
    bytes: Vec<u8>,
    format: PhantomData<K>,
}

impl<K: Format> Model for Checked<K> {
    ghost Value = { List ℕ };

    ghost view = { λ c. c.bytes.items };

    ghost invariant = { λ c. empty_or_sound K.flaw c.bytes.items ≡ true };
}

impl<K: Format> Checked<K> {
    // No bytes, which need no check.
    pub fn empty(heap: Global) -> Checked<K>
        ensures { result ≡ [] }
    {
        Checked {
            bytes: Vec::new(heap),
            format: PhantomData,
        }
    }

    // A checked copy of `bytes`, unless they have a flaw.
    pub fn check(heap: Global, bytes: &[u8]) -> Result<Checked<K>, CheckError<K::Flaw>>
        ensures { Checks (λ c. c) bytes.now (K.flaw bytes.now) result }
    {
        if let Some(flaw) = K::flaw_of(bytes) {
            return Err(CheckError::Flawed(flaw));
        }
        let bytes = Vec::from_slice(heap, bytes)?;
        Ok(Checked {
            bytes,
            format: PhantomData,
        })
    }

    pub fn bytes(&self) -> &[u8]
        ensures same { result.now ≡ self.now }
        ensures sound { empty_or_sound K.flaw self.now ≡ true }
    {
        self.bytes.as_slice()
    }
}
