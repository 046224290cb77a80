// Whether a node's children stand before it.
ghost use Rattle.std.specs.Prelude.{◌≡◌};
ghost use Rattle.arena.specs.Order.{before};

use crate::nodes::Node;

impl Node {
    // Whether the node's children stand below the index `end`.
    pub(crate) fn is_before(self, end: usize) -> bool
        ensures { result ≡ before end self }
    {
        match self {
            Node::Variable { .. }
            | Node::Constant { .. }
            | Node::NoExpressions
            | Node::ClassType { .. }
            | Node::QuotedType { .. }
            | Node::NoParameters
            | Node::Pass { .. }
            | Node::BareReturn { .. }
            | Node::NoStatements
            | Node::NoArms
            | Node::Global { .. }
            | Node::Nonlocal { .. }
            | Node::NoDeclarations => true,
            Node::Prefix { operand, .. } => operand < end,
            Node::Member { object, .. } => object < end,
            Node::Display { elements, .. } => elements < end,
            Node::ListType { element, .. } => element < end,
            Node::Return { value, .. } => value < end,
            Node::VariableDefinition { annotation, .. } => annotation < end,
            Node::ClassDefinition { members, .. } => members < end,
            Node::Binary { left, right, .. } => left < end && right < end,
            Node::Index { object, index, .. } => object < end && index < end,
            Node::Call {
                callee,
                arguments,
                ..
            } => callee < end && arguments < end,
            Node::MoreExpressions { before, last }
            | Node::MoreStatements { before, last }
            | Node::MoreDeclarations { before, last } => before < end && last < end,
            Node::MoreParameters {
                before,
                annotation,
                ..
            } => before < end && annotation < end,
            Node::Assign { targets, value, .. } => targets < end && value < end,
            Node::If { arms, otherwise } => arms < end && otherwise < end,
            Node::While {
                condition,
                body,
                ..
            } => condition < end && body < end,
            Node::For { sequence, body, .. } => sequence < end && body < end,
            Node::MoreArms {
                before,
                condition,
                body,
                ..
            } => before < end && condition < end && body < end,
            Node::FunctionDefinition {
                parameters,
                result,
                declarations,
                body,
                ..
            } => { parameters < end && result < end && declarations < end && body < end }
        }
    }
}
