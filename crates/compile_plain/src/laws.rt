ghost use Rattle.compile_plain.specs.Standing.{CodeStands, BodiesForward};

/// The code of each module stands for its trees, whatever the other modules are that agree with what it was resolved against: its
/// body and its functions do what evaluation of their trees gives, with the same fuel left, the same line and the same exceptions.
pub fn code_stands()
    ensures { CodeStands }
{}

/// The code of each body leads forward: the place of a jump or of a handler is behind the cell that has it, but for the two jumps that
/// take a loop's turn, and fuel with it.
pub fn bodies_forward()
    ensures { BodiesForward }
{}
