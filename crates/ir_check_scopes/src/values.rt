//! Whether the cell of a type holds a first value.

ghost use Rattle.std.specs.Prelude.{◌≡◌, ◌&&◌, ◌^◌, ◌*◌, nat_lt};
ghost use Rattle.ir_model.specs.Types as types;
ghost use Rattle.ir_model.specs.Types.{type_of};
ghost use Rattle.ir_model.specs.Plain.{firmware_of};
ghost use Rattle.ir_check_scopes.specs.Parts.{address_fits};

use crate::kinds::{is_port, points_to};
use crate::lookup::global_named;
use crate::scope::Scope;
use base_names::Name;
use ir_model::types::Ty;

/// Whether a cell of a type holds a number: the type is an integer's, and has as many bits.
pub fn holds_number(ty: &Ty, number: u32) -> bool
    ensures { result ≡ (types.is_integer (type_of ty.now) && nat_lt number (2 ^ (8 * types.width_of (type_of ty.now)))) }
{
    match ty {
        Ty::U8 => number < 256,
        Ty::U16 => number < 65_536,
        Ty::U32 => true,
        Ty::Ptr(_) => false,
        Ty::Array(_, _) => false,
        Ty::Named(_) => false,
        Ty::Callee(_) => false,
    }
}

/// Whether a cell of a type holds the address of a peripheral, or else of a global.
pub fn holds_address(scope: &Scope, name: &Name, ty: &Ty) -> bool
    ensures { result ≡ address_fits (firmware_of scope.now.firmware.now) name.now (type_of ty.now) }
{
    if scope.periphs.has(name) {
        return is_port(ty);
    }
    match global_named(scope, name) {
        None => false,
        Some(target) => points_to(ty, target),
    }
}
