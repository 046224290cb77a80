// What reading a source answers.
use crate::reasons::Reason;

// A routine that was read, or the body of a function in it: the nodes of its declarations and of its statements.
#[derive(Clone, Copy, PartialEq, Eq, Debug)]
pub struct Routine {
    pub declarations: usize,
    pub statements: usize,
}

// Why a source is no routine, and the place of the token that is refused.
#[derive(Clone, Copy, PartialEq, Eq, Debug)]
pub struct Refusal {
    pub reason: Reason,
    pub place: usize,
}
