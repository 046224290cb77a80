// What goes on with an expression, and expressions as they are stored.
ghost use Rattle.std.specs.Prelude.{◌≡◌, ℕ, ◌<◌, true, ◌&&◌, List, length, None, nat_le};
ghost use Rattle.arena.specs.Order.{before};
ghost use Rattle.arena.specs.Trees.{binary_of, literal_of};
ghost use Rattle.grammar.specs.Tree as tree;
ghost use Rattle.reader.specs.Forms.{tight_of};
ghost use Rattle.reader.specs.Kinds.{constant_of};
ghost use Rattle.arena.specs.Tables.{arena_limit, arena_nodes};
ghost use Rattle.reader.specs.Growing.{growth_of};
ghost use Rattle.reader.specs.Told.{Made};

use crate::forms::{Form, Rank, Read};
use crate::growths::Growth;
use crate::kinds::{Constant, Kind};
use crate::taking::store;
use arena::arenas::Arena;
use arena::nodes::{BinaryOperator, Literal, Node};

impl From<Constant> for Literal {
    ghost from_gives = { λ constant literal. (src : List ℕ) → literal_of src literal ≡ constant_of constant };

    fn from(constant: Constant) -> Literal {
        match constant {
            Constant::None => Literal::None,
            Constant::True => Literal::True,
            Constant::False => Literal::False,
            Constant::Integer(value) => Literal::Integer(value),
        }
    }
}

// Whether an operator goes on with an expression of this form, where one must be as tight as `asks`.
fn is_operated(operator: BinaryOperator, form: Form, asks: usize) -> bool
    ensures { result ≡ (nat_le asks (tree.level (tree.rank (binary_of operator))) && nat_le (tree.left (tree.rank (binary_of operator))) (tight_of form)) }
{
    let rank = Rank::from(operator);
    asks <= rank.level() && rank.left() <= form.tight()
}

// What a token of this kind adds to an expression of this form, where one must be as tight as `asks`.
pub(crate) fn growth_of(kind: Kind, form: Form, asks: usize) -> Option<Growth>
    ensures { result ≡ growth_of kind form asks }
{
    match kind {
        Kind::Dot => (8 <= form.tight()).then_some(Growth::Member),
        Kind::LeftRound => form.is_callable().then_some(Growth::Call),
        Kind::LeftSquare => (8 <= form.tight()).then_some(Growth::Index),
        Kind::Operator(operator) => is_operated(operator, form, asks).then_some(Growth::Operator(
            operator,
        )),
        Kind::Name(_)
        | Kind::Text(_)
        | Kind::Constant(_)
        | Kind::Not
        | Kind::Mark(_)
        | Kind::Fault(_) => None,
    }
}

// Stores the node of an expression.
pub(crate) fn made(arena: &mut Arena, place: usize, form: Form, node: Node) -> Read
    requires room { length (arena_nodes arena.old) < arena_limit arena.old }
    requires placed { before (length (arena_nodes arena.old)) node ≡ true }
    ensures { Made arena.old arena.new place form node result }
{
    let index = store(arena, node);
    Read {
        place,
        form,
        node: index,
    }
}
