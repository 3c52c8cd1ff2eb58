//! Parameters and registers, and the result.

ghost use Rattle.std.specs.Prelude.{◌≡◌, ◌++◌, ◌∷◌, [], map, OnOk};
ghost use Rattle.ir_model.specs.Types.{result_of};
ghost use Rattle.ir_model.specs.Plain.{binding_of, names_of};
ghost use Rattle.ir_model.specs.Typing.{register_checks, outcome_checks};
ghost use Rattle.ir_check_scopes.specs.Found.{Finds};
ghost use Rattle.ir_check_scopes.specs.Spots.{place_of};
ghost use Rattle.ir_check_functions.specs.BindingParts.{register_check};

use ir_check_scopes::found::require;
use ir_check_scopes::kinds::is_register_type;
use ir_check_scopes::new_names::add_new;
use ir_check_scopes::type_names::type_names;
use ir_check_scopes::{CheckFault, CheckPlaceRef};
use ir_model::check::CheckKind;
use ir_model::firmware::Binding;
use ir_model::types::Ty;
use ir_names::Names;

#[tactic(auto, using(ir_check_scopes::proofs::Order::checks_of_both))]
fn register<'a>(
    declared: &Names,
    spot: CheckPlaceRef,
    seen: &mut Names<'a>,
    binding: &'a Binding,
) -> Result<(), CheckFault>
    ensures finds { Finds (register_check declared.now (place_of spot.entry) seen.old (binding_of binding.now)) result }
    ensures grows { OnOk result (seen.new ≡ seen.old ++ binding.now.name ∷ []) }
{
    add_new(seen, &binding.name, spot)?;
    type_names(declared, declared, spot, &binding.ty)?;
    require(is_register_type(&binding.ty), CheckKind::IllTyped, spot)?;
    Ok(())
}

/// Whether parameters or registers are new, of declared structs, and of types that a register has.
pub fn registers<'a>(
    declared: &Names,
    spot: CheckPlaceRef,
    seen: &mut Names<'a>,
    bindings: &'a [Binding],
) -> Result<(), CheckFault>
    ensures finds { Finds (register_checks declared.now (place_of spot.entry) seen.old (map binding_of bindings.now)) result }
    ensures grows { OnOk result (seen.new ≡ seen.old ++ names_of (map binding_of bindings.now)) }
{
    for binding in bindings {
        register(declared, spot, seen, binding)?;
    }
    Ok(())
}

/// Whether a result's type is of declared structs, and one that a register has.
#[tactic(auto, using(ir_check_scopes::proofs::Order::checks_in_order))]
pub fn outcome(
    declared: &Names,
    spot: CheckPlaceRef,
    outcome: &Option<Ty>,
) -> Result<(), CheckFault>
    ensures { Finds (outcome_checks declared.now (place_of spot.entry) (result_of outcome.now)) result }
{
    let Some(ty) = outcome else {
        return Ok(());
    };
    type_names(declared, declared, spot, ty)?;
    require(is_register_type(ty), CheckKind::IllTyped, spot)?;
    Ok(())
}
