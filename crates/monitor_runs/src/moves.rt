//! Each function is a law and does nothing.

ghost use Rattle.monitor_model.specs.Promises.{OfSoundImages};
ghost use Rattle.monitor_program.specs.TheCode.{monitor_code};
ghost use Rattle.monitor_runs.specs.Runs.{TellsWhoRuns};
ghost use Rattle.monitor_runs.specs.Unread.{SoundImagesIgnoreUnreadBytes};
ghost use Rattle.monitor_runs.specs.WhoRuns.{BlocksAreOne, SoundImagesTellWhoRuns, WhoRunsComesBack};

use machine_model::any_step::unprivileged_steps;
use machine_model::laws::listed_reads;
use machine_model::running::{frames, shapes};
use monitor_confined::protection::threads_reach;
use monitor_confined::runs::changes_keep_order;
use monitor_confined::threads::{steps_are_confined, steps_lead};
use monitor_laws::images::{images_start, sound_images_are_placed};
use monitor_sound::promises::handlers_keep_the_law;

/// The words of a block in RAM have one block.
pub fn monitor_blocks()
    ensures { BlocksAreOne }
{}

/// Whose code runs, up to where its stack is open, which calls wait and what is lent changes in seven ways alone on every sound image, from
/// whatever a reset leaves, and each tells where the thread goes on. Handlers come back or end the machine.
pub fn who_runs()
    ensures { SoundImagesTellWhoRuns }
{
    handlers_keep_the_law();
    sound_images_are_placed();
    images_start();
    frames();
    changes_keep_order();
    shapes();
    steps_lead();
    unprivileged_steps();
}

/// A call that crosses compartments, and has come back, leaves all as it was before the call: whose code runs, how much of the stack is
/// open, which calls wait and what is lent. The caller goes on as the frame that waited for it says.
pub fn calls_come_back()
    ensures { WhoRunsComesBack }
{}

/// What the running compartment may not read has no effect on its next step, on a closed board: over another RAM that holds the same
/// wherever it may load, and in the monitor's block, the step makes the same accesses and the same event, and leaves the same state but for
/// the bytes that it did not store.
pub fn unread_bytes()
    ensures { SoundImagesIgnoreUnreadBytes }
{
    listed_reads();
    threads_reach();
    steps_are_confined();
    handlers_keep_the_law();
    sound_images_are_placed();
    images_start();
    frames();
    changes_keep_order();
    shapes();
    steps_lead();
    unprivileged_steps();
}

/// The three laws hold of every sound image.
pub fn sound_runs()
    ensures { OfSoundImages monitor_code TellsWhoRuns }
{
    who_runs();
    calls_come_back();
    unread_bytes();
}
