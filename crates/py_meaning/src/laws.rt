ghost use Rattle.py_meaning.specs.Laws.{FuelNeverRises, OutputOnlyGrows, ChecksNeverFall, ObjectsStay};
ghost use Rattle.py_meaning.specs.Laws.{OthersUnchanged, OutputUnchanged, ImportsKeepIn, EntriesKeepIn};
ghost use Rattle.py_meaning.specs.Laws.{SameBuiltins, TicksLowerFuel, CallsEndWithFuel, BodiesEndWithFuel, LoopsEndWithFuel, PiecesJoin};

/// No run has more fuel at its end than at its start, whatever it ends in.
pub fn fuel_never_rises()
    ensures { FuelNeverRises }
{}

/// What was written before a run stays in front of what the run writes.
pub fn output_only_grows()
    ensures { OutputOnlyGrows }
{}

/// The count of checks never falls, and a word of 64 bits holds it.
pub fn checks_never_fall()
    ensures { ChecksNeverFall }
{}

/// No object that was made is taken away.
pub fn objects_stay()
    ensures { ObjectsStay }
{}

/// A run changes what other runs made, and the output, only where its rules let it: an import neither, and an entry not what
/// modules made.
pub fn outside_unchanged()
    ensures objects { OthersUnchanged }
    ensures output { OutputUnchanged }
    ensures imports { ImportsKeepIn }
    ensures entries { EntriesKeepIn }
{}

/// Behind a fuel of 1 there is less fuel. Each statement, call and turn of a loop begins with one, so that evaluation ends.
pub fn ticks_lower_fuel()
    ensures { TicksLowerFuel }
{}

/// More calls than there is fuel change nothing: what a run means is no matter of how many calls are allowed for.
pub fn calls_end_with_fuel()
    ensures functions { CallsEndWithFuel }
    ensures bodies { BodiesEndWithFuel }
{}

/// More turns of a loop than there is fuel change nothing.
pub fn loops_end_with_fuel()
    ensures { LoopsEndWithFuel }
{}

/// What `split` takes a text apart into is the text again once `join` has put the separator between the pieces.
pub fn pieces_join()
    ensures { PiecesJoin }
{}

/// The names of builtins that no module binds, as names are resolved, are those of the builtins that evaluation reads.
pub fn same_builtins()
    ensures { SameBuiltins }
{}
