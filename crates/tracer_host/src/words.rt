// The 16-bit numbers of a trace.
ghost use Rattle.std.specs.Prelude.{◌≡◌, ◌+◌, ◌*◌, [], ◌∷◌, drop, MatchOption};
ghost use Rattle.tracer_host.specs.Traces.{radii_of};

// The number with these two bytes, the high one first.
pub(crate) fn word(high: u8, low: u8) -> u16
    ensures { result ≡ high * 256 + low }
{
    u16::from_be_bytes([high, low])
}

// The first of some radii.
pub(crate) fn first_radius(bytes: &[u8]) -> Option<u16>
    ensures { MatchOption result (radii_of bytes.now ≡ []) (λ n. radii_of bytes.now ≡ n ∷ radii_of (drop 2 bytes.now)) }
{
    let [high, low, ..] = bytes else {
        return None;
    };
    Some(word(*high, *low))
}
