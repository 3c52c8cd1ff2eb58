//! What stays in memory, and who accesses peripherals, in each run of a sound image. Each function is a law and does nothing.

ghost use Rattle.monitor_model.specs.Promises.{OfSoundImages};
ghost use Rattle.monitor_program.specs.TheCode.{monitor_code};
ghost use Rattle.monitor_runs.specs.Stays.{KeepsMemory};
ghost use Rattle.machine_model.specs.Reset.{EachRun};

use crate::moves::{calls_come_back, who_runs};
use machine_model::any_step::{listed_stores, unprivileged_accesses, unprivileged_steps};
use machine_model::laws::listed_accesses;
use machine_model::running::{frames, shapes};
use machine_protection::laws::{kept_lists_decide, regions_hold_their_blocks};
use monitor_confined::protection::threads_reach;
use monitor_confined::runs::changes_keep_order;
use monitor_confined::threads::steps_lead;
use monitor_laws::images::{images_start, sound_images_are_placed};
use monitor_sound::promises::handlers_keep_the_law;

/// A byte of RAM outside the monitor's block stays in each run of a sound image, whatever code its compartments execute, while no
/// compartment that may change it acts. Off the stack these are the compartments that have it in a slot that they may write. On the
/// stack it stays while TOP is not above it and it is not lent to the compartment that acts, but for the word that a return hands back.
/// And each access of a peripheral is the running compartment's own, in one of its slots.
pub fn runs_keep_memory()
    ensures { OfSoundImages monitor_code (λ i t. EachRun i (KeepsMemory i t)) }
{
    handlers_keep_the_law();
    sound_images_are_placed();
    images_start();
    changes_keep_order();
    shapes();
    unprivileged_accesses();
    unprivileged_steps();
    threads_reach();
    steps_lead();
    listed_stores();
    listed_accesses();
    frames();
    kept_lists_decide();
    regions_hold_their_blocks();
    who_runs();
    calls_come_back();
}
