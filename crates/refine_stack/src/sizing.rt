//! The bytes of frames.

ghost use Rattle.std.specs.Prelude.{IfOk};
ghost use Rattle.ir_program.specs.Seen.{program_of};
ghost use Rattle.refine_stack.specs.Listed.{AreFrames};

use code_offsets::frame::frame_size;
use ir_program::program::Program;
use std::alloc::{AllocError, Global};

/// The bytes of the frame of each function.
pub(crate) fn frame_sizes(alloc: Global, program: &Program) -> Result<Vec<u32>, AllocError>
    ensures { IfOk result (λ sizes. AreFrames (program_of program.now) sizes.items) }
{
    let mut sizes = Vec::new(alloc);
    for i in 0..program.funcs.len() {
        match frame_size(program, i) {
            Some(size) => sizes.push(size)?,
            None => return Err(AllocError),
        }
    }
    Ok(sizes)
}
