// Where a reader is in its source, and how a line stands to the open levels of indentation.

// How far a line has come: in its leading blanks, up to a column; past its first token; or past all tokens.
// `Over` is a state that the rules go through like the others, and no missing value: an `Option` around the rest would only be longer.
#[derive(Clone, Copy)]
pub enum Mode {
    Fresh(usize),
    Inside,
    Over,
}

#[derive(Clone, Copy)]
pub struct Spot {
    pub pos: usize,
    pub mode: Mode,
}

// `Nowhere` is one of four ways to stand, and no variant holds a value: an `Option` around the rest would only be longer.
#[derive(Clone, Copy)]
pub enum Level {
    Same,
    Deeper,
    Shallower,
    Nowhere,
}
