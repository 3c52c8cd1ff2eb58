//! Each function is a law and does nothing.

ghost use Rattle.image_promises.specs.FromGuards.{GuardedPlansGuard, LowestStacksAreGuarded, LargestStacksAreGuarded, StacksBehindMonitorsAreGuarded, GuardedStacksServe, GuardedImagesAreNeverWrong};

use crate::images::{refined_or_stopped_images, sound};
use crate::permissions::permissions;
use crate::regions::{images, memory};
use monitor_laws::images::sound_images_are_placed;
use monitor_sound::promises::{handlers_keep_the_law, stubs_stand};
use plan_layout_laws::{ram, stack};
use refine::never_wrong::never_wrong;
use refine::overruns::guards_serve;

/// No compartment may store in the guard below the stack, where no data region has a byte in it.
pub fn guarded_plans()
    ensures { GuardedPlansGuard }
{
    permissions();
    images();
    memory();
}

/// A stack is guarded as the lowest block of RAM.
pub fn lowest()
    ensures { LowestStacksAreGuarded }
{}

/// A stack is guarded where the board asks for it lowest, and where no other block of RAM is larger.
pub fn largest()
    ensures { LargestStacksAreGuarded }
{
    lowest();
    stack();
}

/// A stack is guarded right behind the monitor's block.
pub fn behind()
    ensures { StacksBehindMonitorsAreGuarded }
{
    ram();
}

/// The law of a guarded stack holds of planned images.
pub fn stacks()
    ensures { GuardedStacksServe }
{
    guarded_plans();
    sound();
    images();
    sound_images_are_placed();
    guards_serve();
    handlers_keep_the_law();
    stubs_stand();
}

/// The image of a planned firmware whose stack is guarded is never wrong, only stopped.
pub fn images_are_never_wrong()
    ensures { GuardedImagesAreNeverWrong }
{
    stacks();
    refined_or_stopped_images();
    never_wrong();
}
