//! Laws of images with other code. Each function is a law and does nothing.

ghost use Rattle.image_runs.specs.ReplacedCode.{
  CodeKeepsTables,
  PlannedImagesKeepPromises,
  PlannedImagesStayIsolated,
  SoundImagesKeepPromises,
};

use crate::other_code::{rules, stay_sound};
use crate::stays::kept_runs_are_isolated;
use code_model::laws::compartments;
use image_model::laws::counts;
use image_promises::images::{for_boards, sound};
use image_promises::regions::images;
use ir_laws::typing::places as typed_places;
use monitor_program::code_size::page_is_full;
use monitor_runs::moves::sound_runs;
use monitor_runs::stays::runs_keep_memory;
use monitor_sound::promises::sound_images_are_confined;
use plan_layout_laws::{flash, places, ram};

/// The tables of a planned image end in front of the code of each compartment.
pub fn code_keeps_tables()
    ensures { CodeKeepsTables }
{
    flash();
    ram();
    places();
    typed_places();
    counts();
    compartments();
    page_is_full();
}

/// A sound image is confined, tells who runs, and keeps memory, by its tables, whatever bytes stand in flash behind them.
pub fn sound_images_keep_promises()
    ensures { SoundImagesKeepPromises }
{
    stay_sound();
    sound_images_are_confined();
    sound_runs();
    runs_keep_memory();
}

/// A planned image keeps these promises too, by the tables that it was linked with.
pub fn planned_images_keep_promises()
    ensures { PlannedImagesKeepPromises }
{
    sound();
    images();
    sound_images_keep_promises();
}

/// The bytes of globals, of regions and of the stack are changed, and peripherals accessed, only by compartments that may, in each run of
/// a planned image, whatever bytes stand in flash behind its tables.
pub fn planned_images_stay_isolated()
    ensures { PlannedImagesStayIsolated }
{
    rules();
    images();
    for_boards();
    planned_images_keep_promises();
    kept_runs_are_isolated();
}
