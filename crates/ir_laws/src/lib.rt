//! Laws of the firmware language: functions that do nothing, whose contract is the law.
#![tactic(auto)]

ghost use Rattle.ir_laws.specs.Laws.{CellsOfTypes, CellsOfFirmwares, FramesStayOrdered, EventsAreDeclared};
ghost use Rattle.ir_laws.specs.Cells.{CellsAreAligned, CellsAreFound};

pub mod limits;
pub mod runs;
pub mod typing;

/// The cells of a type lie apart and inside it, and the cells of each global and each local of a firmware lie apart and
/// inside it too.
pub fn cells()
    ensures types { CellsOfTypes }
    ensures firmwares { CellsOfFirmwares }
{}

/// Each cell of a global or a local stands at a multiple of its width, and the cell that is found at an offset stands there.
pub fn alignment()
    ensures aligned { CellsAreAligned }
    ensures found { CellsAreFound }
{}

/// The frames of a source run stand in the order in which they were made.
pub fn frames()
    ensures { FramesStayOrdered }
{}

/// Each event of a source run is an access inside the window of a declared peripheral.
pub fn events()
    ensures { EventsAreDeclared }
{}
