//! What a good request can end with, and what `stack` and `compile` say together: functions that do nothing, whose contract is the law.

ghost use Rattle.aces_cli.specs.Bounded.{BoundedCallsAreFollowed};
ghost use Rattle.aces_cli.specs.Complete.{GoodRequestsAreDone};

use aces_stack::laws::limits_exclude;
use ir_reader::laws::{faults, texts};
use machine_image::laws::{faults as image_faults, texts as image_texts};
use plan_board::laws::boards_are_one;
use plan_firmwares::laws::refusals_and_plans_exclude;

/// Where the files of a request hold what it takes, its only outcome is the one that says that all was done.
pub fn good_requests()
    ensures { GoodRequestsAreDone }
{
    texts();
    faults();
    image_texts();
    image_faults();
    boards_are_one();
    refusals_and_plans_exclude();
    limits_exclude();
}

/// Where a call was asked to compile and ended with 0, and `stack` has an answer with status 0 to the same files, the image that it wrote refines the
/// firmware with no premise on the stack.
pub fn bounded_calls()
    ensures { BoundedCallsAreFollowed }
{
    texts();
    boards_are_one();
}
