// The nodes of a routine. A child is named by its index in the table, not owned by a box: the memory is fixed, and none is
// taken while a source is read.

// A stretch of the source: a name. By place and length, since the table outlives the bytes that it was read from.
#[derive(Clone, Copy)]
pub struct Stretch {
    pub at: usize,
    pub len: usize,
}

// A string of the source: the place of its opening quote, and how many bytes stand between its quotes. The same fields as
// of a `Stretch` mean another stretch here, so the two stay apart.
#[derive(Clone, Copy)]
pub struct Quotation {
    pub at: usize,
    pub len: usize,
}

#[derive(Clone, Copy)]
pub enum Literal {
    None,
    True,
    False,
    Integer(u32),
    Text(Quotation),
}

#[derive(Clone, Copy)]
pub enum BinaryOperator {
    Or,
    And,
    Equal,
    Unequal,
    Less,
    Greater,
    AtMost,
    AtLeast,
    Is,
    Plus,
    Minus,
    Times,
    Divide,
    Remainder,
}

#[derive(Clone, Copy)]
pub enum PrefixOperator {
    Not,
    Negate,
}

// `place` is the offset of the first token of the node's own text. A list is empty, or one element more than a list
// before it; its elements are of one sort, which its two nodes tell, so each sort has its own two.
#[derive(Clone, Copy)]
pub enum Node {
    // expressions
    Variable {
        name: Stretch,
    },
    Constant {
        place: usize,
        literal: Literal,
    },
    Binary {
        place: usize,
        operator: BinaryOperator,
        left: usize,
        right: usize,
    },
    Prefix {
        place: usize,
        operator: PrefixOperator,
        operand: usize,
    },
    Member {
        place: usize,
        object: usize,
        name: Stretch,
    },
    Index {
        place: usize,
        object: usize,
        index: usize,
    },
    Call {
        place: usize,
        callee: usize,
        arguments: usize,
    },
    Display {
        place: usize,
        elements: usize,
    },
    NoExpressions,
    MoreExpressions {
        before: usize,
        last: usize,
    },
    // annotations and parameters
    ClassType {
        name: Stretch,
    },
    QuotedType {
        name: Quotation,
    },
    ListType {
        place: usize,
        element: usize,
    },
    NoParameters,
    MoreParameters {
        before: usize,
        name: Stretch,
        annotation: usize,
    },
    // statements; an `if` has its arms, one for `if` and each `elif`, and the block after `else`, which may be empty
    Pass {
        place: usize,
    },
    BareReturn {
        place: usize,
    },
    Return {
        place: usize,
        value: usize,
    },
    Assign {
        place: usize,
        targets: usize,
        value: usize,
    },
    If {
        arms: usize,
        otherwise: usize,
    },
    While {
        place: usize,
        condition: usize,
        body: usize,
    },
    For {
        place: usize,
        variable: Stretch,
        sequence: usize,
        body: usize,
    },
    NoStatements,
    MoreStatements {
        before: usize,
        last: usize,
    },
    NoArms,
    MoreArms {
        before: usize,
        place: usize,
        condition: usize,
        body: usize,
    },
    // declarations
    VariableDefinition {
        name: Stretch,
        annotation: usize,
        place: usize,
        literal: Literal,
    },
    FunctionDefinition {
        place: usize,
        name: Stretch,
        parameters: usize,
        result: usize,
        declarations: usize,
        body: usize,
    },
    ClassDefinition {
        place: usize,
        name: Stretch,
        superclass: Stretch,
        members: usize,
    },
    Global {
        place: usize,
        name: Stretch,
    },
    Nonlocal {
        place: usize,
        name: Stretch,
    },
    NoDeclarations,
    MoreDeclarations {
        before: usize,
        last: usize,
    },
}
