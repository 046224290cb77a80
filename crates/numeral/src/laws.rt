// What holds of the definition of numerals: theorems, with no work to do.
ghost use Rattle.numeral.specs.Numerals.{Standard};

// The numeral is the one that `{n}` writes.
#[tactic(auto, using(crate::proofs::NumeralFacts::numeral_standard))]
pub fn numerals_stand()
    ensures { Standard }
{}
