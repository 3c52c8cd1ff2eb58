//! What holds of the images of a firmware whose bound on the stack fits: a function that does nothing, whose contract is the law.

ghost use Rattle.aces_stack.specs.ImageLaws.{BoundedImagesRefineWhole, BoundsAreKept};

use crate::run_laws::{bounded_firmwares, bounded_runs};
use plan_compartments::laws::needs_are_one;

/// Where the bound is at most the board's stack, no run leaves the stack's limit, and every image by the policy refines the firmware whole.
pub fn bounded_images()
    ensures images { BoundedImagesRefineWhole }
    ensures bounds { BoundsAreKept }
{
    needs_are_one();
    bounded_runs();
    bounded_firmwares();
}
