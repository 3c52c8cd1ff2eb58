//! The frame of a function.

ghost use Rattle.std.specs.Prelude.{◌≡◌, ◌+◌, ◌*◌, ◌≤◌, length};
ghost use Rattle.ir_model.specs.Plain.{func_of, firmware_of};
ghost use Rattle.ir_model.specs.Layout.{known, rounded_up as rounded};
ghost use Rattle.ir_model.specs.Frames.{locals_size};
ghost use Rattle.ir_model.specs.TextLimits.{register_limit, local_limit};
ghost use Rattle.ir_model.specs.Typing.{object_limit};
ghost use Rattle.ir_check_scopes.specs.Found.{Finds};
ghost use Rattle.ir_check_functions.specs.BindingParts.{frame_part};

use ir_check_scopes::found::require;
use ir_check_scopes::{CheckFault, CheckPlaceRef, Scope};
use ir_model::check::CheckKind;
use ir_model::firmware::Func;
use ir_model::rounding::rounded_up;

/// The most bytes of a frame.
const FRAME_LIMIT: u32 = 992;

fn frame_bytes(registers: usize, locals: u64) -> u32
    requires registers { registers ≤ register_limit }
    requires locals { locals ≤ local_limit * object_limit }
    ensures { result ≡ rounded (4 * registers + locals + 4) 8 }
{
    let filled = 4 * registers as u32 + locals as u32 + 4;
    match rounded_up(filled, 8) {
        None => unreachable!(),
        Some(bytes) => bytes,
    }
}

/// Whether a function's frame is small enough, by the bytes of its locals.
pub fn frame(scope: &Scope, func: &Func, locals: u64) -> Result<(), CheckFault>
    requires locals { locals ≡ locals_size (known (firmware_of scope.now.firmware.now).structs) (func_of func.now).locals }
    requires most { locals ≤ local_limit * object_limit }
    requires few { length func.now.params + length func.now.regs ≤ register_limit }
    ensures { Finds (frame_part (firmware_of scope.now.firmware.now) (func_of func.now)) result }
{
    let bytes = frame_bytes(func.params.len() + func.regs.len(), locals);
    require(
        bytes <= FRAME_LIMIT,
        CheckKind::FrameTooLarge { bytes },
        CheckPlaceRef::Func(&func.name),
    )
}
