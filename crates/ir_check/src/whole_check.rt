//! All checks of a firmware.

ghost use Rattle.std.specs.Prelude.{◌≡◌, IfOk, IfErr, OnOk};
ghost use Rattle.ir_model.specs.Plain.{firmware_of};
ghost use Rattle.ir_model.specs.Canonical.{IsWithinLimits};
ghost use Rattle.ir_model.specs.Typing.{checks, IsTyped};
ghost use Rattle.ir_check_scopes.specs.Found.{Finds, IsFaultOf};
ghost use Rattle.ir_check.specs.Parts.{code_part};
ghost use Rattle.ir_check_scopes.specs.Scopes.{AreSmall};

use ir_check_declarations::declared::checked_scope;
use ir_check_declarations::files::files;
use ir_check_functions::funcs::funcs;
use ir_check_functions::main_function::main_there;
use ir_check_globals::globals::globals;
use ir_check_scopes::found::require;
use ir_check_scopes::{CheckFault, CheckPlaceRef, Scope};
use ir_model::check::CheckKind;
use ir_model::checked::Checked;
use ir_model::firmware::Firmware;
use std::alloc::Global;

#[tactic(auto, using(ir_check_scopes::proofs::Order::checks_in_order))]
fn code(alloc: Global, scope: &Scope) -> Result<(), CheckFault>
    requires { AreSmall scope.now.bodies.items }
    ensures { Finds (code_part (firmware_of scope.now.firmware.now)) result }
{
    globals(alloc, scope)?;
    files(alloc, scope.firmware)?;
    funcs(alloc, scope)?;
    require(main_there(scope), CheckKind::NoMain, CheckPlaceRef::Whole)?;
    Ok(())
}

fn all(alloc: Global, firmware: &Firmware) -> Result<(), CheckFault>
    requires { IsWithinLimits (firmware_of firmware.now) }
    ensures { Finds (checks (firmware_of firmware.now)) result }
{
    let scope = checked_scope(alloc, firmware)?;
    code(alloc, &scope)
}

/// The firmware as a checked one. Where a check fails, or memory runs out, the firmware comes back with the fault: the
/// first check that fails in the order in which they are made.
#[tactic(auto, unfolding(ir_model::specs::Typing::fault_of))]
pub fn check(alloc: Global, firmware: Firmware) -> Result<Checked, (Firmware, CheckFault)>
    requires { IsWithinLimits (firmware_of firmware) }
    ensures same { IfOk result (λ c. c ≡ firmware) }
    ensures typed { OnOk result (IsTyped (firmware_of firmware)) }
    ensures returned { IfErr result (λ e. e.0 ≡ firmware) }
    ensures fault { IfErr result (λ e. IsFaultOf (firmware_of firmware) e.1) }
{
    match all(alloc, &firmware) {
        Ok(()) => Ok(Checked::new(firmware)),
        Err(fault) => Err((firmware, fault)),
    }
}
