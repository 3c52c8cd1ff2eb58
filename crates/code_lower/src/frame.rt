//! The locals of a function's frame.

ghost use Rattle.std.specs.Prelude.{◌≡◌, ◌<◌, ◌≤◌, [], IfOk};
ghost use Rattle.std.specs.List.{All};
ghost use Rattle.ir_program.specs.Parts.{routine_of};
ghost use Rattle.code_model.specs.FrameShape as frames;
ghost use Rattle.ir_model.specs.Typing.{frame_limit};

use code_offsets::frame::local_size;
use ir_program::program::Routine;
use std::alloc::{AllocError, Global};

/// How many bytes behind the stack pointer each local begins.
pub(crate) fn local_starts(alloc: Global, routine: &Routine) -> Result<Vec<u32>, AllocError>
    requires { frames.frame_size (routine_of [] routine.now) ≤ frame_limit }
    ensures exact { IfOk result (λ starts. starts.items ≡ frames.local_starts (routine_of [] routine.now)) }
    ensures near { IfOk result (λ starts. All (λ s. s < 1024) starts.items) }
{
    let mut starts = Vec::new(alloc);
    let mut next = 4 * routine.registers.len() as u32;
    for local in routine.locals.as_slice() {
        starts.push(next)?;
        let Some(size) = local_size(local) else {
            return Err(AllocError);
        };
        next += size;
    }
    Ok(starts)
}
