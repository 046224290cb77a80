// The laws of tokens, as theorems.
ghost use Rattle.lexis.specs.Count.{TokensFew};
ghost use Rattle.lexis.specs.Laws.{TokensStand, TokensOnly, ValuesShort};

// The tokens of a source keep the laws.
pub fn tokens_stand()
    ensures { TokensStand }
{}

// No other list of tokens keeps them.
pub fn tokens_alone()
    ensures { TokensOnly }
{}

// A string's value is short.
pub fn values_stand()
    ensures { ValuesShort }
{}

// A source has at most three tokens for each byte, and two more.
pub fn tokens_few()
    ensures { TokensFew }
{}
