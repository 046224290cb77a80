// Finding the lines of a text.
ghost use Rattle.std.specs.Prelude.{◌≡◌, ◌+◌, ◌<◌, ◌≤◌, [], ◌∷◌, length, take, drop, MatchOption};
ghost use Rattle.std.specs.List.{position};
ghost use Rattle.host.specs.Meaning.{short_lines};
ghost use Rattle.text_host.specs.Lines.{is_feed, lines_of};

use host::admission::LONGEST_LINE;

const FEED: u8 = b'\n';

// Where the first line feed stands.
fn feed_at(bytes: &[u8]) -> Option<usize>
    ensures { result ≡ position is_feed bytes.now }
{
    bytes.iter().position(|b| *b == FEED)
}

// The first 256 bytes of a text, which have a line feed if its first line is short; nothing of fewer bytes, whose lines are.
fn window(text: &[u8]) -> Option<&[u8]>
    ensures { MatchOption result (length text.now ≤ 255) (λ f. (255 < length text.now) × (f.now ≡ take 256 text.now)) }
{
    text.get(..=LONGEST_LINE)
}

// Whether no line is over 255 bytes. A line that is too long is not read to its end.
pub(crate) fn has_short_lines(bytes: &[u8]) -> bool
    ensures { result ≡ short_lines (lines_of bytes.now) }
{
    let mut rest = bytes;
    while let Some(front) = window(rest) {
        let Some(end) = feed_at(front) else {
            return false;
        };
        rest = &rest[end + 1..];
    }
    true
}

// The first line of a text.
pub(crate) fn first_line(text: &[u8]) -> Option<&[u8]>
    ensures { MatchOption result (lines_of text.now ≡ []) (λ l. lines_of text.now ≡ l.now ∷ lines_of (drop (length l.now + 1) text.now)) }
{
    if text.is_empty() {
        return None;
    }
    let end = feed_at(text).unwrap_or(text.len());
    Some(&text[..end])
}
