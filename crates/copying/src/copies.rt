// Copying between any two hosts.
ghost use Rattle.std.specs.Prelude.{◌≡◌, ◌^◌, ◌<◌, true, is_ok};
ghost use Rattle.copying.specs.Copies.{Moved, copied, copied_one};

use crate::answers::{Copied, Ending};
use host::admission::LONGEST_LINE;
use host::hosts::Host;

// Moves one line from `from` to `to`, or changes neither. No line is taken that cannot be put.
fn copy_one<A: Host, B: Host>(from: &mut A, to: &mut B) -> Result<(), Ending>
    ensures result { result ≡ (copied_one (A.Host.meaning from.old) (B.Host.meaning to.old)).result }
    ensures source { A.Host.meaning from.new ≡ (copied_one (A.Host.meaning from.old) (B.Host.meaning to.old)).source }
    ensures target { B.Host.meaning to.new ≡ (copied_one (A.Host.meaning from.old) (B.Host.meaning to.old)).target }
    ensures countable { is_ok result ≡ true → (B.Host.meaning to.old).spare < 2 ^ 64 }
{
    let length = from.waits().ok_or(Ending::AllCopied)?;
    if to.spare() <= length {
        return Err(Ending::NoSpare);
    }
    let mut line = [0; LONGEST_LINE];
    let taken = from.take(&mut line).unwrap();
    to.put(&line[..taken]).unwrap();
    Ok(())
}

// Copies lines until none waits or the spare is too small for the next one, which then still waits.
pub fn copy_lines<A: Host, B: Host>(from: &mut A, to: &mut B) -> Copied
    ensures answer { result ≡ (copied (A.Host.meaning from.old) (B.Host.meaning to.old)).answer }
    ensures source { A.Host.meaning from.new ≡ (copied (A.Host.meaning from.old) (B.Host.meaning to.old)).source }
    ensures target { B.Host.meaning to.new ≡ (copied (A.Host.meaning from.old) (B.Host.meaning to.old)).target }
    ensures moved { Moved (A.Host.meaning from.old) (B.Host.meaning to.old) result (A.Host.meaning from.new) (B.Host.meaning to.new) }
{
    let mut count = 0;
    // a loop: an endless chain with `try_fold` would also have an `Ok` answer, which never comes
    loop {
        match copy_one(from, to) {
            Ok(()) => count += 1,
            Err(ending) => return Copied { count, ending },
        }
    }
}
