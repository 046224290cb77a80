// How the start of a line stands to the open levels of indentation.
ghost use Rattle.std.specs.Prelude.{◌≡◌};
ghost use Rattle.lexis.specs.Lines.{is_open, level_of};
ghost use Rattle.stack.specs.Held.{held};

use lexis::lines::Level;
use stack::Stack;

#[tactic(auto, using(crate::proofs::Among::among_reverse))]
fn is_open(levels: &Stack<'_, usize>, column: usize) -> bool
    ensures { result ≡ is_open column (held levels.now) }
{
    column == 0 || levels.items().contains(&column)
}

pub fn level_of(levels: &Stack<'_, usize>, column: usize) -> Level
    ensures { result ≡ level_of column (held levels.now) }
{
    let top = levels.top().unwrap_or(0);
    if top < column {
        Level::Deeper
    } else if top == column {
        Level::Same
    } else if is_open(levels, column) {
        Level::Shallower
    } else {
        Level::Nowhere
    }
}
