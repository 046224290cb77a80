// The theory of reading: what is proved of the readers that specs/Reader.antt and specs/Limits.antt define.
#![tactic(auto)]

ghost use Rattle.grammar.specs.Theorems.{Sound, Complete, Unique, First, Short, Exact};
ghost use Rattle.grammar.specs.Exactly.{Profiled, AcceptedExactly, SixExactly, SevenExactly, EightExactly, UnfinishedExactly};
ghost use Rattle.grammar.specs.Last.{Foreign, Decided};
ghost use Rattle.grammar.specs.Verdict.{Accepts, Refuses, Judges};
ghost use Rattle.grammar.specs.Cases.{Worked};

pub fn grammar_stands()
    ensures sound { Sound }
    ensures complete { Complete }
    ensures unique { Unique }
    ensures first { First }
    ensures short { Short }
    ensures exact { Exact }
    ensures profiled { Profiled }
    ensures accepted { AcceptedExactly }
    ensures six { SixExactly }
    ensures seven { SevenExactly }
    ensures eight { EightExactly }
    ensures unfinished { UnfinishedExactly }
    ensures foreign { Foreign }
    ensures decided { Decided }
    ensures accepts { Accepts }
    ensures refuses { Refuses }
    ensures judges { Judges }
    ensures worked { Worked }
{}
