// What holds of the trees that a table stands for: theorems, with no work to do.
ghost use Rattle.arena.specs.Laws.{TreesStand};

// A tree stays as the table grows, and is made of the trees of its node's children.
pub fn trees_stand()
    ensures { TreesStand }
{}
