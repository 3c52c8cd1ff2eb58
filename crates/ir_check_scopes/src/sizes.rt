//! The sizes of objects.

ghost use Rattle.std.specs.Prelude.{◌≡◌, IfOk, ◌≤◌};
ghost use Rattle.ir_model.specs.Types.{type_of};
ghost use Rattle.ir_model.specs.Plain.{firmware_of};
ghost use Rattle.ir_model.specs.Layout.{known, shape};
ghost use Rattle.ir_model.specs.Typing.{object_limit};
ghost use Rattle.ir_check_scopes.specs.Found.{Finds};
ghost use Rattle.ir_check_scopes.specs.Spots.{place_of};
ghost use Rattle.ir_check_scopes.specs.Parts.{size_check};

use crate::found::require;
use crate::scope::Scope;
use crate::{CheckFault, CheckPlaceRef};
use ir_model::check::CheckKind;
use ir_model::extent::SIZE_LIMIT;
use ir_model::types::Ty;

/// Whether a type has a size that an object may have, and this size.
pub fn object_size(scope: &Scope, spot: CheckPlaceRef, ty: &Ty) -> Result<u32, CheckFault>
    ensures finds { Finds (size_check (firmware_of scope.now.firmware.now) (place_of spot.entry) (type_of ty.now)) result }
    ensures size { IfOk result (λ n. n ≡ (shape (known (firmware_of scope.now.firmware.now).structs) (type_of ty.now)).size) }
    ensures small { IfOk result (λ n. n ≤ object_limit) }
{
    let size = scope.layouts.measure(ty).size;
    require(
        size <= u64::from(SIZE_LIMIT),
        CheckKind::ObjectTooLarge,
        spot,
    )?;
    Ok(size as u32)
}
