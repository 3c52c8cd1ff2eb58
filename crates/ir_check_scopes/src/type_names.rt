//! The struct names of a type.

ghost use Rattle.std.specs.Prelude.{map};
ghost use Rattle.ir_model.specs.Types.{type_of, types_from, boxed_result_of};
ghost use Rattle.ir_model.specs.Typing.{type_checks, row_checks, result_checks};
ghost use Rattle.ir_check_scopes.specs.Found.{Finds};
ghost use Rattle.ir_check_scopes.specs.Spots.{place_of};

use crate::check_place_ref::CheckPlaceRef;
use crate::fault::CheckFault;
use crate::found::require_known;
use ir_model::types::Ty;
use ir_names::Names;

/// Whether each struct in a type is declared, and each that is behind no pointer and no `fn` earlier.
#[cycle(type_names)]
#[tactic(auto, using(crate::proofs::Order::checks_in_order))]
pub fn type_names<'n>(
    declared: &Names<'n>,
    earlier: &Names<'n>,
    spot: CheckPlaceRef,
    ty: &Ty,
) -> Result<(), CheckFault>
    ensures { Finds (type_checks declared.now earlier.now (place_of spot.entry) (type_of ty.now)) result }
{
    match ty {
        Ty::U8 => Ok(()),
        Ty::U16 => Ok(()),
        Ty::U32 => Ok(()),
        Ty::Ptr(target) => type_names(declared, declared, spot, target),
        Ty::Array(_, element) => type_names(declared, earlier, spot, element),
        Ty::Named(name) => require_known(earlier.has(name), name, spot),
        Ty::Callee(signature) => {
            row_names(declared, spot, signature.params.as_slice())?;
            result_names(declared, spot, &signature.result)?;
            Ok(())
        }
    }
}

#[cycle(type_names)]
fn row_names(declared: &Names, spot: CheckPlaceRef, types: &[Ty]) -> Result<(), CheckFault>
    ensures { Finds (row_checks declared.now (place_of spot.entry) (types_from (map type_of types.now))) result }
{
    for ty in types {
        type_names(declared, declared, spot, ty)?;
    }
    Ok(())
}

#[cycle(type_names)]
fn result_names(
    declared: &Names,
    spot: CheckPlaceRef,
    outcome: &Option<Box<Ty>>,
) -> Result<(), CheckFault>
    ensures { Finds (result_checks declared.now (place_of spot.entry) (boxed_result_of outcome.now)) result }
{
    match outcome {
        None => Ok(()),
        Some(ty) => type_names(declared, declared, spot, ty),
    }
}
