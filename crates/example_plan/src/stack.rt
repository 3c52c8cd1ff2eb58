//! Where the frames of a run stand on the stack.

ghost use Rattle.example_plan.specs.StackPositions.{ComputesPositions};

/// Two functions that call each other across compartments, until no eighth of the stack is left.
pub fn positions()
    ensures { ComputesPositions }
{}
