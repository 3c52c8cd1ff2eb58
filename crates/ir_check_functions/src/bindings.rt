//! The bindings of a function.

ghost use Rattle.std.specs.Prelude.{◌≡◌, ◌*◌, ◌≤◌, [], IfOk};
ghost use Rattle.ir_model.specs.Plain.{func_of, firmware_of};
ghost use Rattle.ir_model.specs.Layout.{known};
ghost use Rattle.ir_model.specs.Frames.{locals_size};
ghost use Rattle.ir_model.specs.TextLimits.{local_limit};
ghost use Rattle.ir_model.specs.FewItems.{HasFewLocals};
ghost use Rattle.ir_model.specs.Typing.{object_limit};
ghost use Rattle.ir_check_scopes.specs.Found.{Finds};
ghost use Rattle.ir_check_functions.specs.BindingParts.{bindings_part};

use crate::locals::locals;
use crate::registers::{outcome, registers};
use ir_check_scopes::{CheckFault, CheckPlaceRef, Scope};
use ir_model::firmware::Func;
use ir_names::Names;
use std::alloc::Global;

/// The checks of `bindings`, where no name is taken yet.
#[tactic(auto, using(ir_check_scopes::proofs::Order::checks_in_order))]
fn bindings_behind<'a>(
    scope: &Scope,
    seen: &mut Names<'a>,
    func: &'a Func,
) -> Result<u64, CheckFault>
    requires seen { seen.old ≡ [] }
    requires few { HasFewLocals func.now }
    ensures finds { Finds (bindings_part scope.now.structs (firmware_of scope.now.firmware.now) (func_of func.now)) result }
    ensures size { IfOk result (λ n. n ≡ locals_size (known (firmware_of scope.now.firmware.now).structs) (func_of func.now).locals) }
    ensures most { IfOk result (λ n. n ≤ local_limit * object_limit) }
{
    let spot = CheckPlaceRef::Func(&func.name);
    registers(&scope.structs, spot, seen, func.params.as_slice())?;
    outcome(&scope.structs, spot, &func.result)?;
    let size = locals(scope, spot, seen, func.locals.as_slice())?;
    registers(&scope.structs, spot, seen, func.regs.as_slice())?;
    Ok(size)
}

/// The checks of a function's parameters, result, locals and registers; and how many bytes the locals take.
pub fn bindings(alloc: Global, scope: &Scope, func: &Func) -> Result<u64, CheckFault>
    requires { HasFewLocals func.now }
    ensures finds { Finds (bindings_part scope.now.structs (firmware_of scope.now.firmware.now) (func_of func.now)) result }
    ensures size { IfOk result (λ n. n ≡ locals_size (known (firmware_of scope.now.firmware.now).structs) (func_of func.now).locals) }
    ensures most { IfOk result (λ n. n ≤ local_limit * object_limit) }
{
    let mut seen = Names::new(alloc);
    bindings_behind(scope, &mut seen, func)
}
