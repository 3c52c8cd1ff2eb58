//! Single checks.

ghost use Rattle.std.specs.Prelude.{◌≡◌, [], ◌∷◌, IfOk};
ghost use Rattle.ir_model.specs.Typing.{check, is_known};
ghost use Rattle.ir_check_scopes.specs.Found.{Finds, IsFault};
ghost use Rattle.ir_check_scopes.specs.Spots.{place_of};

use crate::check_place_ref::CheckPlaceRef;
use crate::fault::CheckFault;
use base_names::Name;
use ir_model::check::{CheckKind, CheckPlace};
use std::alloc::AllocError;

fn place_at(spot: CheckPlaceRef) -> Result<CheckPlace, AllocError>
    ensures { IfOk result (λ p. p ≡ place_of spot.entry) }
{
    match spot {
        CheckPlaceRef::Struct(name) => Ok(CheckPlace::Struct(name.clone()?)),
        CheckPlaceRef::Periph(name) => Ok(CheckPlace::Periph(name.clone()?)),
        CheckPlaceRef::Global(name) => Ok(CheckPlace::Global(name.clone()?)),
        CheckPlaceRef::File(name) => Ok(CheckPlace::File(name.clone()?)),
        CheckPlaceRef::Func(name) => Ok(CheckPlace::Func(name.clone()?)),
        CheckPlaceRef::Inst(func, block, inst) => Ok(CheckPlace::Inst {
            func: func.clone()?,
            block: block.clone()?,
            inst,
        }),
        CheckPlaceRef::Whole => Ok(CheckPlace::Whole),
    }
}

/// A fault of a kind at a place.
pub fn fault(kind: CheckKind, spot: CheckPlaceRef) -> CheckFault
    ensures { IsFault result kind (place_of spot.entry) }
{
    match place_at(spot) {
        Ok(place) => CheckFault::At { kind, place },
        Err(_) => CheckFault::NoMemory,
    }
}

/// The fault of a missing name.
pub fn unknown(name: &Name, spot: CheckPlaceRef) -> CheckFault
    ensures { IsFault result (CheckKind.Unknown name.now) (place_of spot.entry) }
{
    match name.clone() {
        Ok(name) => fault(CheckKind::Unknown(name), spot),
        Err(_) => CheckFault::NoMemory,
    }
}

/// The fault of a repeated name.
pub fn twice(name: &Name, spot: CheckPlaceRef) -> CheckFault
    ensures { IsFault result (CheckKind.Twice name.now) (place_of spot.entry) }
{
    match name.clone() {
        Ok(name) => fault(CheckKind::Twice(name), spot),
        Err(_) => CheckFault::NoMemory,
    }
}

/// Whether something holds.
pub fn require(holds: bool, kind: CheckKind, spot: CheckPlaceRef) -> Result<(), CheckFault>
    ensures { Finds (check holds kind (place_of spot.entry) ∷ []) result }
{
    if holds {
        return Ok(());
    }
    Err(fault(kind, spot))
}

/// Whether a name is there.
pub fn require_known(known: bool, name: &Name, spot: CheckPlaceRef) -> Result<(), CheckFault>
    ensures { Finds (is_known known name.now (place_of spot.entry) ∷ []) result }
{
    if known {
        return Ok(());
    }
    Err(unknown(name, spot))
}
