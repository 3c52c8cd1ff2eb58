//! Laws of the definitions: functions that do nothing, whose contract is the law.

ghost use Rattle.image_promises.specs.InitialWords.{GlobalsBegin, InitsPass};

use crate::flash::flash_has;
use code_model::laws::compartments;
use image_model::laws::counts;
use ir_laws::typing::places as typed_places;
use monitor_program::code_size::page_is_full;
use plan_layout_laws::{flash, globals, places, ram};

/// The check of the blocks that start-up fills passes: each begins and ends at a multiple of 4, is not empty, and lies in RAM apart
/// from the stack and the monitor's block; and its words stand where its record says, one block's behind the other's.
pub fn inits()
    ensures { InitsPass }
{
    flash();
    ram();
    places();
    globals();
    typed_places();
    counts();
    compartments();
    page_is_full();
}

/// Each cell of each global has a record of a block that start-up fills: the cell is in the block, and the words of the block in flash
/// have there the word of the cell's first value.
pub fn globals_begin()
    ensures { GlobalsBegin }
{
    flash();
    ram();
    places();
    globals();
    typed_places();
    counts();
    flash_has();
}
