//! A thread that runs out of stack. Each function is a law and does nothing.

ghost use Rattle.refine.specs.Guard.{GuardsRefuse, GuardsServe};
ghost use Rattle.refine.specs.Entries.{EntriesWithoutRoomStop, CallsWithoutRoomStop};
ghost use Rattle.refine.specs.Entered.{EntriesEnterOrEnd};
ghost use Rattle.refine.specs.Called.{CallsServe};

use machine_protection::laws::{
    kept_lists_decide, open_eighths_are_held, regions_give_their_rights, regions_hold_their_blocks,
};
use monitor_confined::protection::threads_reach;
use monitor_sound::calls::calls_run_short;

/// The unit refuses each store to the guard below the stack, where no home that a compartment may write lies in it.
pub fn guards_refuse()
    ensures { GuardsRefuse }
{
    threads_reach();
}

/// The law of the stack holds of a guarded stack.
pub fn guards_serve()
    ensures { GuardsServe }
{
    kept_lists_decide();
    open_eighths_are_held();
    regions_give_their_rights();
    regions_hold_their_blocks();
    calls_run_short();
}

/// The entry of a function whose frame does not fit on the stack ends the machine, without an event.
pub fn entries_without_room_stop()
    ensures { EntriesWithoutRoomStop }
{}

/// An SVC below which no exception's frame fits ends the machine too.
pub fn calls_without_room_stop()
    ensures { CallsWithoutRoomStop }
{}

/// The entry of a function whose frame fits comes to its first block, with its locals lent; or there is no room for an exception
/// below the frame, or for its loans, and where the law of the stack holds the machine ends.
pub fn entries_enter_or_end()
    ensures { EntriesEnterOrEnd }
{}

/// A call enters its callee; or the callee lacks room, and where the law of the stack holds the machine ends.
pub fn calls_enter_or_end()
    ensures { CallsServe }
{}
