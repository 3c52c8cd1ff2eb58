//! SVC. The function is a law and does nothing.

ghost use Rattle.monitor_model.specs.Promises.{OfSoundImages};
ghost use Rattle.monitor_program.specs.TheCode.{monitor_code};
ghost use Rattle.monitor_handlers.specs.SvcLaw.{SvcLaw};

use base_words::laws::comparisons;
use machine_model::running::{accesses, frames, instructions, shapes};
use machine_protection::laws::{
    kept_lists_decide, open_eighths_are_held, regions_are_kept, regions_give_their_rights,
    regions_hold_their_blocks,
};
use monitor_confined::protection::threads_reach;
use monitor_program::code_size::page_is_full;

/// The handler of SVC does what its outcome says, on every sound image: it halts by the number of the test that fails, it stops where
/// the halfword behind the instruction lies outside flash, or the thread goes on by enter, leave, lend or unlend.
pub fn svc_keeps_the_law()
    ensures { OfSoundImages monitor_code (λ i t. SvcLaw i t (monitor_code.stub t)) }
{
    accesses();
    comparisons();
    frames();
    instructions();
    kept_lists_decide();
    open_eighths_are_held();
    page_is_full();
    regions_are_kept();
    regions_give_their_rights();
    regions_hold_their_blocks();
    shapes();
    threads_reach();
}
