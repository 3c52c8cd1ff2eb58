//! Laws of images whose flash has other bytes behind the tables. Each function is a law and does nothing.

ghost use Rattle.image_runs.specs.Laws.{RulesStay, SoundnessStays, SoundImagesStaySound};

use monitor_program::code_size::page_is_full;

/// An image that obeys the rules obeys them with as many other bytes in flash.
pub fn rules()
    ensures { RulesStay }
{}

/// A sound image stays sound, with the same tables, whatever bytes stand in flash behind its tables.
pub fn sound()
    ensures { SoundnessStays }
{}

/// A sound image with the monitor's own code has all that every sound image has, whatever bytes stand in flash behind its tables, where
/// all code of compartments stands.
pub fn stay_sound()
    ensures { SoundImagesStaySound }
{
    rules();
    sound();
    page_is_full();
}
