//! Laws of the definitions: functions that do nothing, whose contract is the law.

ghost use Rattle.image_promises.specs.Laws.{FlashReadsBack, HeadersPass, PlannedRangesAreApart, TablesPass};

use code_model::laws::compartments;
use image_model::laws::counts;
use ir_laws::typing::places as typed_places;
use monitor_program::code_size::page_is_full;
use plan_layout_laws::{flash, places, ram};

/// No two ranges that start-up fills share an address.
pub fn ranges()
    ensures { PlannedRangesAreApart }
{
    flash();
    ram();
    places();
}

/// The check of the header of a planned image passes: the monitor's block and the stack are there and apart, and flash has room for
/// the page and the words behind it.
pub fn header()
    ensures { HeadersPass }
{
    flash();
    ram();
    places();
}

/// The check of the tables of a planned image passes: their counts are within the limits, the stack and the monitor's block are the
/// image's, and they have room in their block, which is no smaller than any code region and lies in flash.
pub fn tables()
    ensures { TablesPass }
{
    flash();
    ram();
    places();
    typed_places();
    counts();
    compartments();
    page_is_full();
}

/// The flash of a planned image has the page of its tables, the words of its tables, and the code of each compartment in its block.
pub fn flash_has()
    ensures { FlashReadsBack }
{
    flash();
    ram();
    places();
    counts();
    compartments();
    page_is_full();
}
