// Sources one after the other.
ghost use Rattle.std.specs.Prelude.{◌<◌, length, IfSome};

// The first source, and the bytes after it.
pub(crate) fn next_source(input: &[u8]) -> Option<(&[u8], &[u8])>
    ensures { IfSome result (λ p. length p.1.now < length input.now) }
{
    let [high, low, rest @ ..] = input else {
        return None;
    };
    rest.split_at_checked(usize::from(u16::from_be_bytes([*high, *low])))
}
