//! What is read of a run.

ghost use Rattle.std.specs.Prelude.{◌≡◌, map, IfOk};
ghost use Rattle.ir_run.specs.Acts.{frame_of};
ghost use Rattle.ir_run.specs.Reads.{spot_of, frames_of};
ghost use Rattle.ir_run.specs.States.{running_of};

use crate::frame::Frame;
use crate::parts::Parts;
use std::alloc::{AllocError, Global};

/// Where a frame stands.
#[derive(Clone, Copy)]
pub struct FramePlace {
    /// The function.
    pub func: u16,
    /// The block of that function.
    pub block: usize,
    /// The instruction of that block, or behind them its end.
    pub place: usize,
}

/// Where a frame stands.
pub(crate) fn standing(frame: &Frame) -> FramePlace
    ensures { result ≡ spot_of (frame_of frame.now) }
{
    FramePlace {
        func: frame.func,
        block: frame.block,
        place: frame.place,
    }
}

/// Where each frame of a run that goes on stands, the running one first.
///
/// # Errors
///
/// There is no memory for it.
pub(crate) fn spots(alloc: Global, parts: &Parts) -> Result<Vec<FramePlace>, AllocError>
    ensures { IfOk result (λ spots. spots.items ≡ map spot_of (frames_of (running_of parts.now))) }
{
    let mut spots = Vec::new(alloc);
    spots.push(standing(&parts.top))?;
    parts.below.put_spots(&mut spots)?;
    Ok(spots)
}
