//! Laws of the definitions: functions that do nothing, whose contract is the law.

ghost use Rattle.image_promises.specs.Regions.{ImagesObeyRules, MemoryObeysRules, RegionsPass};

use crate::promises::memory as memory_is_laid;
use ir_laws::limits::windows;
use plan_layout_laws::{flash, places, ram};

/// The image of a planned firmware obeys the rules of images: its flash and its RAM are the board's, the monitor's block and the
/// stack are aligned and lie in RAM, and its windows are the firmware's, of different names and apart.
pub fn images()
    ensures { ImagesObeyRules }
{
    flash();
    ram();
    places();
    windows();
}

/// The memory of what is linked obeys the rules: those of the image, and where the stack and the monitor's block lie.
pub fn memory()
    ensures { MemoryObeysRules }
{
    images();
    memory_is_laid();
}

/// The check of regions passes for the tables of a planned image: each compartment's code region, its slots and its masks have the
/// forms that they may have, and what a slot of data holds is data alone.
pub fn regions()
    ensures { RegionsPass }
{
    flash();
    ram();
    places();
    windows();
}
