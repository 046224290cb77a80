// What an expression is at the outside, and how tightly its parts hold.
ghost use Rattle.std.specs.Prelude.{◌≡◌, ◌≤◌};
ghost use Rattle.arena.specs.Trees.{binary_of};
ghost use Rattle.grammar.specs.Tree.{rank};
ghost use Rattle.grammar.specs.Tree as tree;
ghost use Rattle.reader.specs.Forms.{is_callable, is_target, rank_of, tight_of};

use arena::nodes::{BinaryOperator, PrefixOperator};

// The levels of operators between two operands, the loosest first: a higher one binds tighter.
#[derive(Clone, Copy)]
pub enum Rank {
    Disjunction = 1,
    Conjunction = 2,
    Comparison = 4,
    Sum = 5,
    Product = 6,
}

// The outside of an expression, parentheses included.
#[derive(Clone, Copy)]
pub enum Form {
    Named,
    Member,
    Indexed,
    Closed,
    Binary(Rank),
    Prefix(PrefixOperator),
}

// An expression that was read: the place of its first token, its form and its node. That a node is in the table, here
// or by its index alone, is a fact about both, which no type of a node could have: the functions that take one ask for it.
#[derive(Clone, Copy)]
pub struct Read {
    pub place: usize,
    pub form: Form,
    pub node: usize,
}

impl From<BinaryOperator> for Rank {
    ghost from_gives = { λ operator level. rank_of level ≡ rank (binary_of operator) };

    fn from(operator: BinaryOperator) -> Rank {
        match operator {
            BinaryOperator::Or => Rank::Disjunction,
            BinaryOperator::And => Rank::Conjunction,
            BinaryOperator::Equal
            | BinaryOperator::Unequal
            | BinaryOperator::Less
            | BinaryOperator::Greater
            | BinaryOperator::AtMost
            | BinaryOperator::AtLeast
            | BinaryOperator::Is => Rank::Comparison,
            BinaryOperator::Plus | BinaryOperator::Minus => Rank::Sum,
            BinaryOperator::Times | BinaryOperator::Divide | BinaryOperator::Remainder =>
                Rank::Product,
        }
    }
}

impl Rank {
    pub(crate) fn level(self) -> usize
        ensures value { result ≡ tree.level (rank_of self) }
        ensures most { result ≤ 6 }
    {
        self as usize
    }

    // How tight the left operand must be: comparisons do not associate.
    pub(crate) fn left(self) -> usize
        ensures { result ≡ tree.left (rank_of self) }
    {
        match self {
            Rank::Comparison => self.level() + 1,
            Rank::Disjunction | Rank::Conjunction | Rank::Sum | Rank::Product => self.level(),
        }
    }
}

impl Form {
    // How tightly the expression holds: a number from 1 to 8, as the grammar has it, since the right operand asks for one more
    // than its operator's, which an enum could not add.
    pub(crate) fn tight(self) -> usize
        ensures { result ≡ tight_of self }
    {
        match self {
            Form::Named | Form::Member | Form::Indexed | Form::Closed => 8,
            Form::Binary(rank) => rank.level(),
            Form::Prefix(PrefixOperator::Not) => 3,
            Form::Prefix(PrefixOperator::Negate) => 7,
        }
    }

    // Whether it may be called.
    pub(crate) fn is_callable(self) -> bool
        ensures { result ≡ is_callable self }
    {
        matches!(self, Form::Named | Form::Member)
    }

    // Whether it may be assigned to.
    pub(crate) fn is_target(self) -> bool
        ensures { result ≡ is_target self }
    {
        matches!(self, Form::Named | Form::Member | Form::Indexed)
    }
}
