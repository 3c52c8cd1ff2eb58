//! The structs and peripherals of a firmware, and its tables.

ghost use Rattle.std.specs.Prelude.{◌≡◌, IfOk};
ghost use Rattle.ir_model.specs.Plain.{firmware_of};
ghost use Rattle.ir_model.specs.Typing.{declared_checks};
ghost use Rattle.ir_check_scopes.specs.Found.{Finds};

use crate::periphs::periphs;
use crate::structs::structs;
use crate::tables::scope;
use ir_check_scopes::{CheckFault, Scope};
use ir_model::firmware::Firmware;
use ir_names::firmware_names::struct_names;
use std::alloc::Global;

/// The checks of structs and peripherals, and the tables of the firmware.
#[tactic(auto, using(ir_check_scopes::proofs::Order::checks_in_order))]
pub fn checked_scope<'a>(alloc: Global, firmware: &'a Firmware) -> Result<Scope<'a>, CheckFault>
    ensures finds { Finds (declared_checks (firmware_of firmware.now)) result }
    ensures firmware { IfOk result (λ s. s.firmware.now ≡ firmware.now) }
{
    let names = struct_names(alloc, firmware.structs.as_slice())?;
    let layouts = structs(alloc, &names, firmware.structs.as_slice())?;
    let windows = periphs(alloc, firmware.periphs.as_slice())?;
    let tables = scope(alloc, firmware, names, layouts, windows)?;
    Ok(tables)
}
