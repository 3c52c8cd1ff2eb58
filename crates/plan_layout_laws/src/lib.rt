//! Laws of where blocks lie: functions that do nothing, whose contract is the law.
#![tactic(auto)]

ghost use Rattle.plan_layout_laws.specs.FlashLaws.{FlashIsLaid};
ghost use Rattle.plan_layout_laws.specs.GlobalLaws.{GlobalsAreLaid, GlobalsAreHeld};
ghost use Rattle.plan_layout_laws.specs.RamLaws.{RamIsApart};
ghost use Rattle.plan_layout_laws.specs.RamPlaces.{RamIsInside, RamIsThere};
ghost use Rattle.plan_layout_laws.specs.StackLowest.{StackIsLowest};

/// On a board whose flash has room for them, the blocks of flash lie in flash, each at a multiple of its size, and no two share
/// an address; the tables' block stands where flash begins.
pub fn flash()
    ensures { FlashIsLaid }
{}

/// No two blocks of RAM hold the same address: the stack and the monitor's block hold all of theirs, blocks of globals the
/// eighths that are not taken out.
pub fn ram()
    ensures { RamIsApart }
{}

/// A plan has a block for each use of RAM, of the size that it has to have. On a board whose RAM has room for the blocks
/// outside tails, each lies in RAM, at a multiple of its size.
pub fn places()
    ensures there { RamIsThere }
    ensures inside { RamIsInside }
{}

/// The stack stands where RAM begins, if the board asks for it or no block of RAM is larger.
pub fn stack()
    ensures { StackIsLowest }
{}

/// The globals of a region stand at multiples of their alignments, among the region's bytes, and no two share a byte. In a plan
/// each of their bytes stands at an address that the region's block holds.
pub fn globals()
    ensures laid { GlobalsAreLaid }
    ensures held { GlobalsAreHeld }
{}
