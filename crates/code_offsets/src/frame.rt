//! The frame of a function.

ghost use Rattle.std.specs.Prelude.{◌≡◌, ◌^◌, ◌≤◌, ◌⊎◌, [], length, map, IfNone, IfSome};
ghost use Rattle.ir_model.specs.Resolved.{func_at};
ghost use Rattle.ir_program.specs.Storages.{shape_of};
ghost use Rattle.ir_program.specs.Parts.{routine_of};
ghost use Rattle.ir_program.specs.Seen.{program_of};
ghost use Rattle.code_model.specs.FrameShape as frames;

use crate::routines::routine_at;
use ir_model::rounding::rounded_up;
use ir_program::program::{Program, Routine, Storage};

/// The bytes of a local, rounded up to whole words; `None` if they pass 32 bits.
pub fn local_size(local: &Storage) -> Option<u32>
    ensures value { IfSome result (λ n. n ≡ frames.local_size (shape_of [] local.now)) }
    ensures none { IfNone result (2 ^ 32 ≤ frames.local_size (shape_of [] local.now)) }
{
    rounded_up(local.size, 4)
}

/// The bytes of locals, each of whole words; `None` if they pass 32 bits.
fn locals_size(locals: &[Storage]) -> Option<u32>
    ensures value { IfSome result (λ n. n ≡ frames.locals_size (map (shape_of []) locals.now)) }
    ensures none { IfNone result (2 ^ 32 ≤ frames.locals_size (map (shape_of []) locals.now)) }
{
    let mut total: u32 = 0;
    for local in locals {
        total = total.checked_add(local_size(local)?)?;
    }
    Some(total)
}

/// The bytes of a function's frame; `None` if they pass 32 bits.
fn routine_frame(routine: &Routine) -> Option<u32>
    ensures value { IfSome result (λ n. n ≡ frames.frame_size (routine_of [] routine.now)) }
    ensures none { IfNone result (2 ^ 32 ≤ frames.frame_size (routine_of [] routine.now)) }
{
    let Ok(registers) = u32::try_from(routine.registers.len()) else {
        return None;
    };
    let kept = registers.checked_mul(4)?;
    let filled = kept.checked_add(locals_size(routine.locals.as_slice())?)?;
    rounded_up(filled.checked_add(4)?, 8)
}

/// The words of a function's frame that lie below the return address; `None` if the bytes of the frame pass 32 bits.
pub fn frame_words(routine: &Routine) -> Option<u32>
    ensures value { IfSome result (λ n. n ≡ (frames.frame_shape (routine_of [] routine.now)).words) }
    ensures none { IfNone result (2 ^ 32 ≤ frames.frame_size (routine_of [] routine.now)) }
{
    let size = routine_frame(routine)?;
    Some(size.saturating_sub(4) / 4)
}

/// The bytes of the frame of the function of a number; `None` if there is no such function, or they pass 32 bits.
pub fn frame_size(program: &Program, func: usize) -> Option<u32>
    ensures value { IfSome result (λ n. n ≡ frames.frame_size (func_at (program_of program.now) func)) }
    ensures none { IfNone result ((length program.now.funcs ≤ func) ⊎ (2 ^ 32 ≤ frames.frame_size (func_at (program_of program.now) func))) }
{
    let routine = routine_at(program, func)?;
    routine_frame(routine)
}
