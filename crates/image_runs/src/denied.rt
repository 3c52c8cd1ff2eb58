//! The laws. Each function is a law and does nothing.

ghost use Rattle.monitor_model.specs.Promises.{OfSoundImages};
ghost use Rattle.monitor_program.specs.TheCode.{monitor_code};
ghost use Rattle.machine_model.specs.Reset.{EachRun};
ghost use Rattle.image_runs.specs.Denied.{DevicesAreInSlots, PlannedRunsKeepOff};

use crate::other_code::stay_sound;
use image_promises::images::sound;
use image_promises::regions::images;
use ir_laws::limits::windows;
use machine_model::any_step::unprivileged_accesses;
use machine_protection::laws::{
    kept_lists_decide, open_eighths_are_held, regions_give_their_rights, regions_hold_their_blocks,
};
use monitor_laws::images::sound_images_are_placed;
use monitor_runs::stays::runs_keep_memory;
use plan_layout_laws::{flash, globals, places, ram};

/// Each byte of devices that a compartment's instruction loads or stores lies in one of the compartment's slots, on both kinds of board.
pub fn devices()
    ensures { OfSoundImages monitor_code (λ i t. EachRun i (DevicesAreInSlots i t)) }
{
    runs_keep_memory();
    sound_images_are_placed();
    unprivileged_accesses();
    kept_lists_decide();
    regions_hold_their_blocks();
}

/// No denied address is loaded or stored for a compartment in any run of the image of a planned firmware that asks for none, whatever bytes
/// stand in flash behind the tables.
pub fn planned_runs_keep_off()
    ensures { PlannedRunsKeepOff }
{
    flash();
    ram();
    places();
    windows();
    globals();
    regions_hold_their_blocks();
    open_eighths_are_held();
    regions_give_their_rights();
    stay_sound();
    sound();
    images();
    devices();
}
