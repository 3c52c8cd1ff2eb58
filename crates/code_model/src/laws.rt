//! Laws of the definitions: functions that do nothing, whose contract is the law.

ghost use Rattle.code_model.specs.Laws.{FramesAgree, SizesHold, SizesAreEven, PiecesStand, CompartmentsHold, SitesAgree};

/// The frame of a function by numbers is its frame by names.
pub fn frames()
    ensures { FramesAgree }
{}

/// The code of each instruction, block's end, entry and function has the size that is told without addresses.
pub fn sizes()
    ensures hold { SizesHold }
    ensures even { SizesAreEven }
{}

/// The code of a place stands in the function's code at the place's offset.
pub fn pieces()
    ensures { PiecesStand }
{}

/// The code of a compartment has its size, and entries stand at multiples of four.
pub fn compartments()
    ensures { CompartmentsHold }
{}

/// A call's site in a function's code is the crossing site that stands there.
pub fn sites()
    ensures { SitesAgree }
{}
