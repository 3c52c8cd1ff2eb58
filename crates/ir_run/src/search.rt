//! The search for a frame by its number.

ghost use Rattle.std.specs.Prelude.{map, reverse};
ghost use Rattle.ir_run.specs.Acts.{frame_of};
ghost use Rattle.ir_run.specs.Found.{AreOrdered, Finds};

use crate::frame::Frame;

/// The place of the frame of a number, where it is one of this function. The frames stand in the order in which they
/// were made.
pub fn place_of(frames: &[Frame], func: u16, number: u64) -> Option<usize>
    requires { AreOrdered (map frame_of (reverse frames.now)) }
    ensures { Finds frames.now func number result }
{
    let Ok(place) = frames.binary_search_by_key(&number, |frame| frame.number) else {
        return None;
    };
    if frames[place].func == func {
        Some(place)
    } else {
        None
    }
}
