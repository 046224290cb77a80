// The quota layer.
ghost use Rattle.host.specs.Meaning.{under_quota};

use crate::hosts::Host;
use crate::refusals::Refusal;

// A host that prints no more bytes than its allowance, over any host below.
#[derive(Drop)]
pub struct Quota<H> {
    pub allowance: usize,
    pub below: H,
}

impl<H: Host> Host for Quota<H> {
    ghost meaning = { λ q. under_quota q.allowance (H.Host.meaning q.below) };

    fn waits(&self) -> Option<usize> {
        self.below.waits()
    }

    fn spare(&self) -> usize {
        self.allowance.min(self.below.spare())
    }

    fn take(&mut self, place: &mut [u8]) -> Result<usize, Refusal> {
        self.below.take(place)
    }

    fn put(&mut self, line: &[u8]) -> Result<(), Refusal> {
        if self.allowance <= line.len() {
            return Err(Refusal::NoSpare);
        }
        self.below.put(line)?;
        self.allowance -= line.len() + 1;
        Ok(())
    }
}
