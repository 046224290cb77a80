// What a byte outside comments and strings can begin.

#[derive(Clone, Copy)]
pub enum Class {
    Blank,
    LineEnd,
    Hash,
    Letter,
    Digit,
    Quote,
    Mark,
    Other,
}
