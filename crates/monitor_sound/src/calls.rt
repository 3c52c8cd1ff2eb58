//! What the monitor comes to for a simulation. The function is a law and does nothing.

ghost use Rattle.monitor_sound.specs.Simulation.{PlacedLawsServeSimulation};
ghost use Rattle.monitor_sound.specs.HaltingCalls.{PlacedCallsRunShort};

use machine_model::any_step::{performed_accesses, unprivileged_steps};
use machine_model::laws::access_law;
use machine_model::running::{frames, instructions, shapes, templates};
use machine_protection::laws::{
    kept_lists_decide, open_eighths_are_held, regions_give_their_rights, regions_hold_their_blocks,
};
use monitor_confined::runs::changes_keep_order;
use monitor_confined::threads::steps_lead;

/// The monitor's law and start-up give all that a simulation takes of the monitor, where the tables are placed: what the unit
/// permits, accesses by a loan, lend and unlend, enter to the callee's first instruction with the call's frame waiting, leave that
/// undoes it, the end of `main`, and `main`'s first instruction from reset with the initial words in place.
pub fn laws_serve_simulation()
    ensures { PlacedLawsServeSimulation }
{
    kept_lists_decide();
    open_eighths_are_held();
    regions_give_their_rights();
    regions_hold_their_blocks();
    frames();
    instructions();
    access_law();
    unprivileged_steps();
    performed_accesses();
    shapes();
    templates();
    steps_lead();
    changes_keep_order();
}

/// A lend while as many loans live as the monitor keeps halts with 6, and a call across below which no whole eighth of the stack is
/// left halts with 5, without an event.
pub fn calls_run_short()
    ensures { PlacedCallsRunShort }
{
    kept_lists_decide();
    open_eighths_are_held();
    regions_give_their_rights();
    regions_hold_their_blocks();
    frames();
    instructions();
    access_law();
    unprivileged_steps();
    performed_accesses();
    shapes();
    templates();
    steps_lead();
    changes_keep_order();
}
