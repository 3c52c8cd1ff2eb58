//! Laws of the linked image's globals: functions that do nothing, whose contract is the law.

ghost use Rattle.image_promises.specs.Globals.{GlobalsArePlaced};

use crate::promises::loans;
use machine_protection::laws::{
    open_eighths_are_held, regions_give_their_rights, regions_hold_their_blocks,
};
use plan_graph::laws::final_graph_fits_slots;
use plan_layout_laws::{flash, globals as globals_in_blocks, places, ram};

/// Each global lies in RAM and each of its cells at a multiple of its width; all cells lie apart, and off the stack and the monitor's
/// block; and a compartment may load and store the globals that one of its functions needs.
pub fn globals()
    ensures { GlobalsArePlaced }
{
    flash();
    ram();
    places();
    globals_in_blocks();
    regions_hold_their_blocks();
    open_eighths_are_held();
    regions_give_their_rights();
    final_graph_fits_slots();
    loans();
}
