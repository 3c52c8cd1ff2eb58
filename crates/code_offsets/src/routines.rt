//! The functions of a program.

ghost use Rattle.std.specs.Prelude.{◌≡◌, ◌<◌, ◌≤◌, length, IfNone, IfSome};
ghost use Rattle.ir_model.specs.Resolved.{func_at};
ghost use Rattle.ir_program.specs.Parts.{routine_of};
ghost use Rattle.ir_program.specs.Seen.{known_of, program_of};

use ir_program::program::{Program, Routine};

/// The function of a number; `None` if there is no such function.
pub(crate) fn routine_at<'a>(program: &'a Program<'a>, func: usize) -> Option<&'a Routine<'a>>
    ensures there { IfSome result (λ r. (func < length program.now.funcs) × (func_at (program_of program.now) func ≡ routine_of (known_of program.now) r.now)) }
    ensures none { IfNone result (length program.now.funcs ≤ func) }
{
    program.funcs.as_slice().get(func)
}
