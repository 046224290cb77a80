// What is promised of reading: theorems, with no work to do.
ghost use Rattle.syntax.specs.Cases.{WorkedCases};
ghost use Rattle.syntax.specs.Laws.{ReadsExactly};

// A source reads exactly as the grammar says, within the limits; the worked cases have their answers.
pub fn reading_stands()
    ensures exactly { ReadsExactly }
    ensures cases { WorkedCases }
{}
