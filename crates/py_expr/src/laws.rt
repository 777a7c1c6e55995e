ghost use Rattle.py_expr.specs.EveryLine.{EveryLine};

/// Each line has a form, none, or one that is too deep, as `one_form` says that it has no two.
pub fn every_line()
    ensures { EveryLine }
{}
