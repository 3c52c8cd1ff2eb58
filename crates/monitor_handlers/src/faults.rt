//! MemManage. The function is a law and does nothing.

ghost use Rattle.monitor_handlers.specs.FaultLaw.{FaultLaw};
ghost use Rattle.monitor_model.specs.Promises.{OfSoundImages};
ghost use Rattle.monitor_program.specs.TheCode.{monitor_code};

use base_words::laws::comparisons;
use machine_model::running::{frames, instructions, shapes};
use machine_protection::laws::{
    kept_lists_decide, open_eighths_are_held, regions_are_kept, regions_give_their_rights,
    regions_hold_their_blocks,
};
use monitor_confined::protection::threads_reach;
use monitor_program::code_size::page_is_full;

/// The handler of MemManage does what the outcome of a fault says, on every sound image: it halts by the number of the test that
/// fails, it stops at an address that is no multiple of the width, or the thread goes on behind the instruction, whose access is made.
pub fn faults_keep_the_law()
    ensures { OfSoundImages monitor_code FaultLaw }
{
    comparisons();
    frames();
    instructions();
    kept_lists_decide();
    open_eighths_are_held();
    page_is_full();
    regions_are_kept();
    regions_give_their_rights();
    regions_hold_their_blocks();
    shapes();
    threads_reach();
}
