//! Laws of the definitions: functions that do nothing, whose contract is the law.

ghost use Rattle.image_promises.specs.TablesInFlash.{TablesReadBack, WordsFit, WordsStand};

use crate::flash::flash_has;
use code_model::laws::compartments;
use image_model::laws::counts;
use ir_laws::limits::{sizes, windows};
use ir_laws::typing::places as typed_places;
use monitor_program::code_size::page_is_full;
use plan_layout_laws::{flash, places, ram};

/// Each word of the tables of a planned image has 32 bits, so behind the page its flash has them as they are.
pub fn words()
    ensures fit { WordsFit }
    ensures stand { WordsStand }
{
    flash();
    ram();
    places();
    typed_places();
    sizes();
    windows();
    counts();
    compartments();
    page_is_full();
    flash_has();
}

/// The tables that are read from the flash of a planned image are those that it was linked with, where start-up's code in the page has
/// the entry and the compartment of `main`.
pub fn tables()
    ensures { TablesReadBack }
{
    flash();
    ram();
    places();
    typed_places();
    sizes();
    windows();
    counts();
    compartments();
    page_is_full();
    flash_has();
}
