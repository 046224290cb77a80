// The tokens still to be read, with the next one at hand. Not a `Peekable`: its `peek` wants the feed to change, and then each
// look at a token would have to say what it leaves.
use crate::kinds::Next;
use lexer::state::Lexer;

#[derive(Drop)]
pub struct Feed<'a, 's> {
    pub(crate) lexer: Lexer<'a, 's>,
    pub(crate) next: Option<Next>,
}
