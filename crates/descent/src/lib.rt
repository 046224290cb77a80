// Reading by functions that call each other, as code does it: the same reading as the limited reader's, whatever is open around.
#![tactic(auto)]

ghost use Rattle.descent.specs.Theorems.{DescendsExpr, DescendsAfter, DescendsItems, DescendsList, DescendsType, DescendsParams, DescendsVar, DescendsBody, DescendsFunc, DescendsMembers, DescendsClass};
ghost use Rattle.descent.specs.Theorems.{DescendsLine, DescendsStmt, DescendsIf, DescendsMore, DescendsLines, DescendsBlock, DescendsCommand, DescendsReturn, DescendsHeadline, DescendsLead, DescendsProgram, DescendsWhole};
ghost use Rattle.descent.specs.Calls.{Enough};

pub fn descent_stands()
    ensures exprs { DescendsExpr }
    ensures grown { DescendsAfter }
    ensures items { DescendsItems }
    ensures lists { DescendsList }
    ensures types { DescendsType }
    ensures params { DescendsParams }
    ensures definitions { DescendsVar }
    ensures bodies { DescendsBody }
    ensures functions { DescendsFunc }
    ensures members { DescendsMembers }
    ensures classes { DescendsClass }
    ensures assignments { DescendsLine }
    ensures commands { DescendsCommand }
    ensures results { DescendsReturn }
    ensures headlines { DescendsHeadline }
    ensures leads { DescendsLead }
    ensures statements { DescendsStmt }
    ensures arms { DescendsIf }
    ensures more { DescendsMore }
    ensures lines { DescendsLines }
    ensures blocks { DescendsBlock }
    ensures programs { DescendsProgram }
    ensures whole { DescendsWhole }
    ensures enough { Enough }
{}
