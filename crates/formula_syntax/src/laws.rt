ghost use Rattle.formula_syntax.specs.Spelling.{SpellsOneTree, PlainSpells};
ghost use Rattle.formula_syntax.specs.Shifting.{StaysByNothing, EndsMove, BringsNoNodes};
ghost use Rattle.formula_syntax.specs.Shifting.{BringsNoReferences, BringsNoDepth};
ghost use Rattle.formula_syntax.specs.Shifting.{StaysFitting, ShiftsAdd};
ghost use Rattle.formula_syntax.specs.Shifting.{StaysWithin};
ghost use Rattle.formula_syntax.specs.Spelling.{PlainIsShortest, PlainIsShallowest, PlainIsRead};
ghost use Rattle.formula_syntax.specs.Spelling.{EditionsGrow};

/// What holds of the grammar: no text spells two trees, and the plain text of a tree that is spelt spells
/// the same tree. It is no longer than any text that spells the tree, and too deep only where each of
/// these is: so it is read wherever one of them is.
pub fn formula_laws()
    ensures spells_one_tree { SpellsOneTree }
    ensures plain_spells { PlainSpells }
    ensures plain_shortest { PlainIsShortest }
    ensures plain_shallowest { PlainIsShallowest }
    ensures plain_read { PlainIsRead }
    ensures editions { EditionsGrow }
{}

/// What holds of shifted formulas: by nothing a formula stays as it is; an end of a reference goes just as far as it
/// should, or leaves the names; no shift brings nodes, references or parentheses that are open, and each call keeps
/// parameters that fit, and the formula its edition; and two shifts one after the other give the ranges of their sum,
/// where neither leaves the names.
pub fn shift_laws()
    ensures nothing { StaysByNothing }
    ensures ends { EndsMove }
    ensures nodes { BringsNoNodes }
    ensures references { BringsNoReferences }
    ensures depth { BringsNoDepth }
    ensures fitting { StaysFitting }
    ensures within { StaysWithin }
    ensures sums { ShiftsAdd }
{}
