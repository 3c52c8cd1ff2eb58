//! Sound images. Each function is a law and does nothing.

ghost use Rattle.monitor_model.specs.Placed.{SoundImagesArePlaced};
ghost use Rattle.monitor_model.specs.Promises.{ImagesStart};
ghost use Rattle.monitor_program.specs.TheCode.{monitor_code};

use crate::start_up::ready_images_start;

/// The tables of an image of which no check fails are placed and in form, and its flash has their words, whatever the monitor's
/// code is.
pub fn sound_images_are_placed()
    ensures { SoundImagesArePlaced }
{}

/// A machine that is started on a sound image comes to the first unprivileged step within 4,096 steps and 64 for each initial
/// word, all of them without an event, each storing only to the monitor's block, to system registers and to the ranges with
/// initial words; and three steps later to the first instruction of `main`, with the initial words in place.
pub fn images_start()
    ensures { ImagesStart monitor_code }
{
    ready_images_start();
}
