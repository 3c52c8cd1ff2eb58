//! What protection lets a thread reach. The function is a law and does nothing.

ghost use Rattle.monitor_confined.specs.Reaches.{ThreadsReach};

use machine_protection::laws::{
    kept_lists_decide, open_eighths_are_held, regions_give_their_rights, regions_hold_their_blocks,
};

/// A thread may store to a slot of its compartment with AP 011 and to the stack below TOP alone, where the invariant holds, whatever
/// code it executes; on a closed board it may load from a slot, from the stack below TOP and from the mebibyte of flash
/// alone; and it may fetch from flash alone.
pub fn threads_reach()
    ensures { ThreadsReach }
{
    kept_lists_decide();
    open_eighths_are_held();
    regions_give_their_rights();
    regions_hold_their_blocks();
}
