//! The image of a firmware that lends a local, with the monitor's own code. The function is a law and does nothing.

ghost use Rattle.example_monitor.specs.LentImageLaws.{IsSound, HasStart, IsConfined, HasLaw};

use crate::tables::sound_image;
use monitor_laws::images::images_start;
use monitor_sound::promises::{sound_images_are_confined, sound_images_serve_simulation};

/// The image obeys the rules and is sound. So it starts: from reset there is a run to the first instruction of `main`, whose state
/// meets the invariant. It is confined, and it has the law that a simulation takes.
pub fn the_laws_hold()
    ensures sound { IsSound }
    ensures start { HasStart }
    ensures confined { IsConfined }
    ensures law { HasLaw }
{
    sound_image();
    images_start();
    sound_images_are_confined();
    sound_images_serve_simulation();
}
