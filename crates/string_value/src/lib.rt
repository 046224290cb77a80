// The value of a string: the bytes between its quotes, with its escapes applied.
#![tactic(auto)]

ghost use Rattle.std.specs.Prelude.{◌≡◌};
ghost use Rattle.std.specs.Iterator.{YieldsFirst, item_count};
ghost use Rattle.lexis.specs.Texts.{escape_of, unescaped, string_value};
ghost use Rattle.string_value.specs.Left.{value_left};

// The byte that a backslash and `c` stand for.
pub fn escape_of(c: char) -> Option<u8>
    ensures { result ≡ escape_of c }
{
    match c {
        '"' => Some(b'"'),
        'n' => Some(b'\n'),
        't' => Some(b'\t'),
        '\\' => Some(b'\\'),
        _ => None,
    }
}

fn unescape(b: u8) -> u8
    ensures { result ≡ unescaped b }
{
    escape_of(b as char).unwrap_or(b)
}

// A string's value, byte by byte.
#[derive(Clone, Copy)]
pub struct StringValue<'a> {
    raw: &'a [u8],
}

impl<'a> StringValue<'a> {
    // The value of the string that has the bytes `raw` between its quotes.
    pub fn new(raw: &'a [u8]) -> StringValue<'a>
        ensures { value_left result ≡ string_value raw.now }
    {
        StringValue { raw }
    }
}

impl Iterator for StringValue<'_> {
    type Item = u8;

    ghost next_gives = { YieldsFirst value_left };

    ghost remaining = { item_count value_left };

    // The next byte of the value, or nothing at its end. A backslash with no byte after it gives nothing.
    #[tactic(auto, using(crate::proofs::Values::steps))]
    fn next(&mut self) -> Option<u8> {
        match self.raw {
            [] | [b'\\'] => None,
            [b'\\', c, rest @ ..] => {
                self.raw = rest;
                Some(unescape(*c))
            }
            [b, rest @ ..] => {
                self.raw = rest;
                Some(*b)
            }
        }
    }
}
