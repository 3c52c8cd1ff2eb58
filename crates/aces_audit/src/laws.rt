//! What a yes tells: a function that does nothing, whose contract is the law.

ghost use Rattle.aces_audit.specs.Guarded.{SoundImagesAreGuarded};

use monitor_runs::moves::sound_runs;
use monitor_runs::stays::runs_keep_memory;
use monitor_sound::promises::sound_images_are_confined;

/// Every sound image is held to the tables in its flash, whoever made it and whatever code its compartments execute.
pub fn sound_images_are_guarded()
    ensures { SoundImagesAreGuarded }
{
    sound_images_are_confined();
    sound_runs();
    runs_keep_memory();
}
