//! The two halves of what is promised of an image, for every planned firmware: functions that do nothing, whose contract is the law.

ghost use Rattle.image_promises.specs.Whole.{PlannedImagesAreForBoards, PlannedImagesAreSound, PlannedImagesAreConfined, PlannedImagesAreLinked, PlannedImagesRefine, PlannedImagesRefineOrStop};

use crate::code::{code as code_stands, main_words, page, stub};
use crate::flash::{header, ranges, tables as tables_have_room};
use crate::globals::globals;
use crate::initial::{globals_begin, inits};
use crate::promises::{code as functions_are_placed, kind, loans, windows};
use crate::regions::{images, memory, regions};
use crate::sites::{lends, sites, targets};
use crate::tables::tables as tables_read_back;
use monitor_sound::promises::{sound_images_are_confined, sound_images_serve_simulation};
use plan_layout_laws::{flash, places, ram};
use refine::laws::{refinement, refinement_or_stop};

/// The windows of the image of a planned firmware are the firmware's peripherals in order, and its memories, its stack's size and the
/// kind of its protection are the board's.
pub fn for_boards()
    ensures { PlannedImagesAreForBoards }
{
    flash();
    ram();
    places();
}

/// The image of a planned firmware is sound: its flash has its tables, and none of the seven checks of an image fails.
pub fn sound()
    ensures { PlannedImagesAreSound }
{
    header();
    tables_have_room();
    page();
    regions();
    sites();
    lends();
    inits();
    main_words();
    tables_read_back();
}

/// The image of a planned firmware is confined: from whatever a reset leaves, for every recorded input.
pub fn confined_images()
    ensures { PlannedImagesAreConfined }
{
    sound();
    images();
    sound_images_are_confined();
}

/// The image of a planned firmware keeps what the linker promises the simulation of its runs.
pub fn linked_images()
    ensures { PlannedImagesAreLinked }
{
    images();
    memory();
    functions_are_placed();
    code_stands();
    targets();
    stub();
    globals();
    globals_begin();
    windows();
    loans();
    kind();
}

/// The image of a planned firmware refines its firmware.
pub fn refined_images()
    ensures { PlannedImagesRefine }
{
    flash();
    ram();
    places();
    sound();
    images();
    linked_images();
    ranges();
    kind();
    sound_images_serve_simulation();
    refinement();
}

/// The image of a planned firmware refines its firmware or stops for want of stack, however much stack its frames take, where the law
/// of the stack holds.
pub fn refined_or_stopped_images()
    ensures { PlannedImagesRefineOrStop }
{
    sound();
    images();
    linked_images();
    ranges();
    kind();
    sound_images_serve_simulation();
    refinement_or_stop();
}
