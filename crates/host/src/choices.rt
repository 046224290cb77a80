// A host chosen at run time.
ghost use Rattle.host.specs.declared.choices.EitherHost.TheVariants.{First, Second};

use crate::hosts::Host;
use crate::refusals::Refusal;

// One of two hosts; nested, one of any number. An enum, since a boxed `dyn Host` would need the heap and could not be
// handed out with its promises. Each call goes to the host that is there: the arms say of four calls what a `dyn` would.
#[derive(Drop)]
pub enum EitherHost<A, B> {
    First(A),
    Second(B),
}

impl<A: Host, B: Host> Host for EitherHost<A, B> {
    ghost meaning = { λ h. elim h [ First a ↦ A.Host.meaning a | Second b ↦ B.Host.meaning b ] };

    fn waits(&self) -> Option<usize> {
        match self {
            EitherHost::First(host) => host.waits(),
            EitherHost::Second(host) => host.waits(),
        }
    }

    fn spare(&self) -> usize {
        match self {
            EitherHost::First(host) => host.spare(),
            EitherHost::Second(host) => host.spare(),
        }
    }

    fn take(&mut self, place: &mut [u8]) -> Result<usize, Refusal> {
        match self {
            EitherHost::First(host) => host.take(place),
            EitherHost::Second(host) => host.take(place),
        }
    }

    fn put(&mut self, line: &[u8]) -> Result<(), Refusal> {
        match self {
            EitherHost::First(host) => host.put(line),
            EitherHost::Second(host) => host.put(line),
        }
    }
}
