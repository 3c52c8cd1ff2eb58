//! Laws of the linked image: functions that do nothing, whose contract is the law.

ghost use Rattle.image_promises.specs.Parts.{CodeIsPlaced, KindsAgree, LoansAreKept, MemoryIsLaid, WindowsArePromised};

use ir_laws::limits::windows as apart;
use machine_protection::laws::{regions_give_their_rights, regions_hold_their_blocks};
use plan_graph::laws::final_graph_fits_slots;
use plan_layout_laws::{flash, places, ram};

/// A lent local has its bytes in the tables, and is in the masks of each compartment that needs it.
pub fn loans()
    ensures { LoansAreKept }
{}

/// The needs are those for the image's kind of board.
pub fn kind()
    ensures { KindsAgree }
{}

/// The stack and the monitor's block lie in RAM and apart, the stack and its eighths at multiples of 8.
pub fn memory()
    ensures { MemoryIsLaid }
{
    flash();
    ram();
    places();
}

/// The windows lie where the firmware says, addresses of a window lead to it, and a compartment may load from and store into the
/// window of each peripheral that one of its functions needs, after joins too.
pub fn windows()
    ensures { WindowsArePromised }
{
    flash();
    ram();
    places();
    regions_hold_their_blocks();
    regions_give_their_rights();
    apart();
    final_graph_fits_slots();
}

/// Each function stands in a compartment, whose block of code is its own, at a multiple of 4; and `main` is where the tables say.
pub fn code()
    ensures { CodeIsPlaced }
{
    flash();
    ram();
    places();
    regions_hold_their_blocks();
}
