//! What is promised of images: a function that does nothing, whose contract is the law.

ghost use Rattle.aces_compiler.specs.Promises.{Promises};

use crate::printed_runs::runs_are_alike;
use image_promises::guards::{images_are_never_wrong, largest};
use image_promises::images::{confined_images, for_boards, refined_images};
use image_promises::needed::{masks_are_needed, permissions_are_bounded, runs_stay_in_policy};
use image_promises::permissions::permissions;
use image_promises::regions::images;
use image_runs::denied::planned_runs_keep_off;
use image_runs::other_code::rules;
use image_runs::replaced_code::{
    code_keeps_tables, planned_images_keep_promises, planned_images_stay_isolated,
};
use image_runs::stays::{
    invariant, law, planned_runs, planned_runs_are_isolated, slots_are_own, starts,
};
use need_laws::least_sets;

/// All that is promised of the image of each firmware that is planned for a board.
pub(crate) fn all_promises()
    ensures { Promises }
{
    least_sets();
    images();
    for_boards();
    planned_runs();
    planned_runs_are_isolated();
    confined_images();
    rules();
    code_keeps_tables();
    planned_images_keep_promises();
    planned_images_stay_isolated();
    planned_runs_keep_off();
    permissions();
    slots_are_own();
    masks_are_needed();
    permissions_are_bounded();
    runs_stay_in_policy();
    law();
    starts();
    invariant();
    refined_images();
    images_are_never_wrong();
    largest();
    runs_are_alike();
}
