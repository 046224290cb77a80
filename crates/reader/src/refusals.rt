// Why reading comes to no routine.
use crate::answers::Refusal;

// An `Option` of a refusal would say less: it is an error in both cases, and `None` would not say which.
#[derive(Clone, Copy)]
pub enum Stop {
    // a token is refused
    Refused(Refusal),
    // the tokens end too soon
    Unfinished,
}
