ghost use Rattle.py_phrases.specs.Laws.{OnePhrase, Grouped, GroupedAlone, LeftGrouped, LiteralsFit};

/// At most one phrase stands at a front and ends where such a phrase may end.
pub fn one_phrase()
    ensures { OnePhrase }
{}

/// Grouping parentheses add nothing to the tree.
pub fn parentheses_add_nothing()
    ensures anywhere { Grouped }
    ensures alone { GroupedAlone }
{}

/// Products, sums, conjunctions and disjunctions group to the left, however long they are.
pub fn chains_group_left()
    ensures { LeftGrouped }
{}

/// No literal of a phrase is above the greatest `int` where no integer among its tokens is.
pub fn literals_fit()
    ensures { LiteralsFit }
{}
