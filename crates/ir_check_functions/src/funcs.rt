//! Functions.

ghost use Rattle.std.specs.Prelude.{◌≤◌, length};
ghost use Rattle.std.specs.List.{All};
ghost use Rattle.ir_model.specs.declared.firmware.Block.{Block};
ghost use Rattle.ir_model.specs.Plain.{func_of, funcs_of, firmware_of};
ghost use Rattle.ir_model.specs.TextLimits.{instruction_limit};
ghost use Rattle.ir_model.specs.FewItems.{HasFewItems};
ghost use Rattle.ir_model.specs.Typing.{funcs_checks};
ghost use Rattle.ir_check_scopes.specs.Found.{Finds};
ghost use Rattle.ir_check_functions.specs.FunctionParts.{body_part, func_part};
ghost use Rattle.ir_check_scopes.specs.Scopes.{AreSmall};

use crate::bindings::bindings;
use crate::code::blocks;
use crate::frame::frame;
use crate::func_tables::func_scope;
use crate::labels::labels;
use ir_check_scopes::{CheckFault, CheckPlaceRef, Scope};
use ir_model::firmware::Func;
use std::alloc::Global;

#[tactic(auto, using(ir_check_scopes::proofs::Order::checks_of_both))]
fn body(alloc: Global, scope: &Scope, func: &Func) -> Result<(), CheckFault>
    requires { All (λ (b : Block). length b.insts ≤ instruction_limit) func.now.blocks }
    ensures { Finds (body_part (firmware_of scope.now.firmware.now) (func_of func.now)) result }
{
    let labels = labels(
        alloc,
        CheckPlaceRef::Func(&func.name),
        func.blocks.as_slice(),
    )?;
    let inner = func_scope(alloc, func, labels)?;
    blocks(scope, &inner, func.blocks.as_slice())?;
    Ok(())
}

#[tactic(auto, using(ir_check_scopes::proofs::Order::checks_in_order))]
fn func(alloc: Global, scope: &Scope, func: &Func) -> Result<(), CheckFault>
    requires { HasFewItems func.now }
    ensures { Finds (func_part scope.now.structs (firmware_of scope.now.firmware.now) (func_of func.now)) result }
{
    let locals = bindings(alloc, scope, func)?;
    frame(scope, func, locals)?;
    body(alloc, scope, func)?;
    Ok(())
}

/// The checks of all functions.
pub fn funcs(alloc: Global, scope: &Scope) -> Result<(), CheckFault>
    requires { AreSmall scope.now.bodies.items }
    ensures { Finds (funcs_checks (firmware_of scope.now.firmware.now) (funcs_of (firmware_of scope.now.firmware.now))) result }
{
    for body in &scope.bodies {
        func(alloc, scope, body)?;
    }
    Ok(())
}
