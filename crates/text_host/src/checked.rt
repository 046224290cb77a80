// A checked text: none of its lines is over 255 bytes.
ghost use Rattle.text_host.specs.Texts.{text_flaw};

use crate::flaws::TextFlaw;
use crate::lines::has_short_lines;
use host::formats::{Checked, Format};

// The format of a text: no line is over 255 bytes.
#[derive(Drop)]
pub struct Text;

// A text none of whose lines is over 255 bytes.
pub type CheckedText = Checked<Text>;

impl Format for Text {
    type Flaw = TextFlaw;

    ghost flaw = { text_flaw };

    fn flaw_of(bytes: &[u8]) -> Option<TextFlaw> {
        (!has_short_lines(bytes)).then_some(TextFlaw::LongLine)
    }
}
