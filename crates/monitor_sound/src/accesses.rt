//! The access law. The function is a law and does nothing.

ghost use Rattle.monitor_sound.specs.Accesses.{PlacedAccessesHaveTheirEffect};

use machine_model::any_step::{performed_accesses, unprivileged_steps};
use machine_model::laws::access_law;
use machine_model::running::{frames, instructions, shapes, templates};
use machine_protection::laws::{
    kept_lists_decide, open_eighths_are_held, regions_give_their_rights, regions_hold_their_blocks,
};
use monitor_confined::runs::changes_keep_order;
use monitor_confined::threads::steps_lead;

/// The accesses of a compartment's code that are in its reach have the effect that they have without protection, where the tables
/// are placed and the monitor's law holds: in one step where they need no loan, and else behind the handler of MemManage. An SVC
/// whose stack has room enters its handler, and no handler's return stops because its frame may not be read.
pub fn accesses_have_their_effect()
    ensures { PlacedAccessesHaveTheirEffect }
{
    kept_lists_decide();
    open_eighths_are_held();
    regions_give_their_rights();
    regions_hold_their_blocks();
    frames();
    instructions();
    access_law();
    unprivileged_steps();
    performed_accesses();
    shapes();
    templates();
    steps_lead();
    changes_keep_order();
}
