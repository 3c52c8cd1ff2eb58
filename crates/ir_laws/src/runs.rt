//! Runs of the source of typed firmwares.

ghost use Rattle.ir_laws.specs.Moves.{FramesMove};
ghost use Rattle.ir_laws.specs.Runs.{ValuesStayInSets, ValuesFitTypes, StepsKeepValues, NumbersAreWords, PointersAreOfObjects, ElementsAreSmall, ContentsAreWhole, ReturnsAgreeWithCalls, AccessesAreInSets};

/// Each value fits its type in every state of a run, and each frame stands at a place of the program, and a waiting one at
/// a call; the same holds by sets of objects for each register, object and result, where no step leaves them.
pub fn values()
    ensures types { ValuesFitTypes }
    ensures sets { ValuesStayInSets }
    ensures steps { StepsKeepValues }
{}

/// What the registers of a frame hold.
pub fn registers()
    ensures numbers { NumbersAreWords }
    ensures pointers { PointersAreOfObjects }
    ensures elements { ElementsAreSmall }
{}

/// Locals and globals have as many values as cells.
pub fn contents()
    ensures { ContentsAreWhole }
{}

/// A waiting frame stands at an instruction of its block, and a return agrees with the call that waits for it.
pub fn returns()
    ensures { ReturnsAgreeWithCalls }
{}

/// What the running frame is about to load, store or call is in the set of the register that it goes by.
pub fn accesses()
    ensures { AccessesAreInSets }
{}

/// A step moves the running frame on inside its function, or calls, or returns to the frame below.
pub fn moves()
    ensures { FramesMove }
{}
