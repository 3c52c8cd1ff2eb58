//! The locals of a program's functions.

ghost use Rattle.std.specs.Prelude.{◌≡◌, length};
ghost use Rattle.ir_model.specs.Resolved.{func_at};
ghost use Rattle.ir_program.specs.Seen.{program_of};

use crate::program::Program;

/// How many locals a function has; 0 for an absent one.
pub fn local_count(program: &Program, func: usize) -> usize
    ensures { result ≡ length (func_at (program_of program.now) func).locals }
{
    match program.funcs.as_slice().get(func) {
        Some(routine) => routine.locals.len(),
        None => 0,
    }
}
