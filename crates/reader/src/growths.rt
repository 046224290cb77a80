// What the next token adds to an expression.
use arena::nodes::BinaryOperator;

// What a token adds to an expression before it: an enum and no closure, since the contract of what goes on names the case.
#[derive(Clone, Copy)]
pub enum Growth {
    Member,
    Call,
    Index,
    Operator(BinaryOperator),
}
