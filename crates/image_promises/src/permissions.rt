//! The law of what the slots in the tables of a planned image hold: a function that does nothing, whose contract is the law.

ghost use Rattle.image_promises.specs.Permissions.{SlotsHoldPermissions};

use ir_laws::limits::windows;
use machine_protection::laws::{
    open_eighths_are_held, regions_give_their_rights, regions_hold_their_blocks,
};
use plan_graph::laws::final_graph_fits_slots;
use plan_layout_laws::{flash, globals as globals_in_blocks, places, ram};

/// Each address that a writable slot of a compartment holds, in the tables of a planned image, is that of a range of peripherals, of which
/// every declared peripheral there lies inside it and is one that the compartment may write; or it lies in RAM, in the block of a data
/// region and in no other one, and if it is a byte of a global, the compartment may write that global. The same holds of all slots and
/// of what the compartment may read.
pub fn permissions()
    ensures { SlotsHoldPermissions }
{
    flash();
    ram();
    places();
    windows();
    globals_in_blocks();
    regions_hold_their_blocks();
    open_eighths_are_held();
    regions_give_their_rights();
    final_graph_fits_slots();
}
