//! Start-up. Each function is a law and does nothing.

ghost use Rattle.monitor_laws.specs.StartUp.{OtherUnitsHalt, ReadyImagesStart};

use base_words::laws::comparisons;
use machine_model::running::{shapes, templates};
use machine_protection::laws::{
    regions_are_kept, regions_give_their_rights, regions_hold_their_blocks,
};
use monitor_program::code_size::page_is_full;

/// A machine that is started on an image whose tables are placed comes to the first instruction of `main`: within the steps that
/// are counted, of which each stores only to the monitor's block, to system registers and to the ranges with initial words,
/// and three further steps.
pub fn ready_images_start()
    ensures { ReadyImagesStart }
{
    shapes();
    templates();
    comparisons();
    page_is_full();
    regions_are_kept();
    regions_give_their_rights();
    regions_hold_their_blocks();
}

/// Start-up halts with 10 on a processor whose protection unit has another number of regions than the tables are for, or that
/// has none: it has written no register of the unit and no byte of RAM.
pub fn other_units_halt()
    ensures { OtherUnitsHalt }
{}
