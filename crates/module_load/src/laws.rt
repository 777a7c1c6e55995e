ghost use Rattle.module_load.specs.EveryFile.{EveryFile};
ghost use Rattle.module_load.specs.Markers.{OnePlace};
ghost use Rattle.module_load.specs.Preparing.{AtMostOneState};
ghost use Rattle.module_load.specs.Right.{KnownExactly, RightIsRight, RightOfFiles};
ghost use Rattle.module_load.specs.RightDecisions.{OneDecision};

/// Bytes prepare to at most one state.
pub fn one_state()
    ensures { AtMostOneState }
{}

/// The other half of it: bytes prepare to a state.
pub fn every_file()
    ensures { EveryFile }
{}

/// A module is marked by the test exactly where a marker stands in its place.
pub fn one_place()
    ensures { OnePlace }
{}

/// One decision of a module is right.
pub fn one_decision()
    ensures { OneDecision }
{}

/// What is right of a tree by the function is what is right by the relation.
pub fn right_is_right()
    ensures { RightIsRight }
{}

/// What is right depends on the files alone.
pub fn right_of_files()
    ensures { RightOfFiles }
{}

/// What is decided of a module that the top part names is known, so that a missing verdict is never read as a missing module.
pub fn known_exactly()
    ensures { KnownExactly }
{}
