//! The laws, of the image of every planned firmware. Each function is a law and does nothing.

ghost use Rattle.image_runs.specs.Isolated.{KeptRunsAreIsolated, PlannedRunsAreIsolated};
ghost use Rattle.image_runs.specs.Own.{PlannedSlotsAreOwn};
ghost use Rattle.image_runs.specs.Whole.{
  PlannedImagesKeepTheInvariant,
  PlannedImagesKeepTheLaw,
  PlannedImagesStart,
  PlannedImagesTellWhoRuns,
};

use image_promises::images::{for_boards, sound};
use image_promises::needed::masks_are_needed;
use image_promises::permissions::permissions;
use image_promises::regions::images;
use ir_laws::limits::windows;
use machine_protection::laws::{
    open_eighths_are_held, regions_give_their_rights, regions_hold_their_blocks,
};
use monitor_laws::images::images_start;
use monitor_runs::moves::sound_runs;
use monitor_runs::stays::runs_keep_memory;
use monitor_sound::promises::handlers_keep_the_law;
use plan_layout_laws::{flash, globals as globals_in_blocks, places, ram};

/// The handlers keep the monitor's law.
pub fn law()
    ensures { PlannedImagesKeepTheLaw }
{
    sound();
    images();
    handlers_keep_the_law();
}

/// Start-up leads to `main`.
pub fn starts()
    ensures { PlannedImagesStart }
{
    sound();
    images();
    images_start();
}

/// The invariant holds whenever a compartment's instruction comes next.
pub fn invariant()
    ensures { PlannedImagesKeepTheInvariant }
{
    sound();
    images();
    runs_keep_memory();
}

/// Whose code runs, up to where its stack is open, which calls wait and what is lent changes in seven ways alone; calls come back to what
/// was before; and on a closed board bytes that a compartment may not load have no effect on its next step.
pub fn planned_runs()
    ensures { PlannedImagesTellWhoRuns }
{
    sound();
    images();
    sound_runs();
}

/// Each byte of RAM in a compartment's slots, padding too, is of the block of one of its data regions.
pub fn slots_are_own()
    ensures { PlannedSlotsAreOwn }
{
    flash();
    ram();
    places();
    windows();
    globals_in_blocks();
    regions_hold_their_blocks();
    open_eighths_are_held();
    regions_give_their_rights();
}

/// A run of any image for the board that has the planned tables, whatever its code, is isolated where memory is kept (`KeepsMemory` of
/// `monitor_runs`).
pub fn kept_runs_are_isolated()
    ensures { KeptRunsAreIsolated }
{
    flash();
    ram();
    places();
    globals_in_blocks();
    permissions();
    slots_are_own();
    masks_are_needed();
}

/// Each run is isolated, from whatever a reset leaves: the bytes of a global, and of a data region's block, stay while no compartment that
/// may write it acts; the stack stays while it is closed to each compartment that acts; one of its functions needs what is lent to a
/// compartment; and each access of a peripheral is the acting compartment's own, and of a peripheral that it may use.
pub fn planned_runs_are_isolated()
    ensures { PlannedRunsAreIsolated }
{
    sound();
    images();
    for_boards();
    runs_keep_memory();
    kept_runs_are_isolated();
}
