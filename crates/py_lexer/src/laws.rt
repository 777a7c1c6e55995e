ghost use Rattle.py_lexer.specs.EveryText.{EveryText};

/// Each text has a reading or a fault, as `one_reading` says that it has no two.
pub fn every_text()
    ensures { EveryText }
{}
