// Checked bytes that are read from the front.
ghost use Rattle.std.specs.Prelude.{◌≡◌, ℕ, ◌≤◌, List, length, drop};
ghost use Rattle.host.specs.Sound.{LeftOfSound};

use crate::formats::{Checked, Format};
use std::marker::Model;

// What is left of checked bytes, which it owns: so a place stands beside them, and not the slice from there on.
#[derive(Drop)]
pub struct Unread<K: Format> {
    whole: Checked<K>,
    at: usize,
}

impl<K: Format> Model for Unread<K> {
    ghost Value = { List ℕ };

    ghost view = { λ u. drop u.at u.whole };

    ghost invariant = { λ u. u.at ≤ length u.whole };
}

impl<K: Format> Unread<K> {
    // All of the bytes, none of them read.
    pub fn new(whole: Checked<K>) -> Unread<K>
        ensures { result ≡ whole }
    {
        Unread { whole, at: 0 }
    }

    // The bytes that are left.
    pub fn bytes(&self) -> &[u8]
        ensures same { result.now ≡ self.now }
        ensures sound { LeftOfSound K.flaw self.now }
    {
        &self.whole.bytes()[self.at..]
    }

    // Takes this many bytes off the front, or all where there are fewer.
    pub fn skip(&mut self, count: usize)
        ensures { self.new ≡ drop count self.old }
    {
        self.at += count.min(self.whole.bytes().len() - self.at);
    }
}
