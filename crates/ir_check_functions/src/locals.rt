//! Locals.

ghost use Rattle.std.specs.Prelude.{◌≡◌, ◌++◌, ◌∷◌, [], map, OnOk, IfOk, length, ◌≤◌, ◌+◌, ◌*◌};
ghost use Rattle.ir_model.specs.Types.{type_of};
ghost use Rattle.ir_model.specs.Plain.{binding_of, names_of, firmware_of};
ghost use Rattle.ir_model.specs.Layout.{known, shape, rounded_up as rounded};
ghost use Rattle.ir_model.specs.Frames.{locals_size};
ghost use Rattle.ir_model.specs.TextLimits.{local_limit};
ghost use Rattle.ir_model.specs.Typing.{object_limit, local_checks};
ghost use Rattle.ir_check_scopes.specs.Found.{Finds};
ghost use Rattle.ir_check_scopes.specs.Spots.{place_of};
ghost use Rattle.ir_check_functions.specs.BindingParts.{local_check, binding_check};

use ir_check_scopes::new_names::add_new;
use ir_check_scopes::sizes::object_size;
use ir_check_scopes::type_names::type_names;
use ir_check_scopes::{CheckFault, CheckPlaceRef, Scope};
use ir_model::firmware::Binding;
use ir_model::rounding::rounded_up;
use ir_names::Names;

#[tactic(auto, using(ir_check_scopes::proofs::Order::checks_of_both))]
fn named_binding<'a>(
    scope: &Scope,
    spot: CheckPlaceRef,
    seen: &mut Names<'a>,
    binding: &'a Binding,
) -> Result<(), CheckFault>
    ensures finds { Finds (binding_check scope.now.structs (place_of spot.entry) seen.old (binding_of binding.now)) result }
    ensures grows { OnOk result (seen.new ≡ seen.old ++ binding.now.name ∷ []) }
{
    add_new(seen, &binding.name, spot)?;
    type_names(&scope.structs, &scope.structs, spot, &binding.ty)?;
    Ok(())
}

#[tactic(auto, using(ir_check_scopes::proofs::Order::checks_in_order))]
fn local<'a>(
    scope: &Scope,
    spot: CheckPlaceRef,
    seen: &mut Names<'a>,
    binding: &'a Binding,
) -> Result<u32, CheckFault>
    ensures finds { Finds (local_check (firmware_of scope.now.firmware.now) scope.now.structs (place_of spot.entry) seen.old (binding_of binding.now)) result }
    ensures grows { OnOk result (seen.new ≡ seen.old ++ binding.now.name ∷ []) }
    ensures size { IfOk result (λ n. n ≡ (shape (known (firmware_of scope.now.firmware.now).structs) (type_of binding.now.ty)).size) }
    ensures small { IfOk result (λ n. n ≤ object_limit) }
{
    named_binding(scope, spot, seen, binding)?;
    let size = object_size(scope, spot, &binding.ty)?;
    Ok(size)
}

fn with_local(total: u64, size: u32) -> u64
    requires total { total ≤ local_limit * object_limit }
    requires size { size ≤ object_limit }
    ensures exact { result ≡ total + rounded size 4 }
    ensures most { result ≤ total + object_limit }
{
    match rounded_up(size, 4) {
        None => unreachable!(),
        Some(bytes) => total + u64::from(bytes),
    }
}

/// Whether locals are new, of declared structs, and not too large; and how many bytes they take.
pub fn locals<'a>(
    scope: &Scope,
    spot: CheckPlaceRef,
    seen: &mut Names<'a>,
    bindings: &'a [Binding],
) -> Result<u64, CheckFault>
    requires { length bindings.now ≤ local_limit }
    ensures finds { Finds (local_checks (firmware_of scope.now.firmware.now) scope.now.structs (place_of spot.entry) seen.old (map binding_of bindings.now)) result }
    ensures grows { OnOk result (seen.new ≡ seen.old ++ names_of (map binding_of bindings.now)) }
    ensures size { IfOk result (λ n. n ≡ locals_size (known (firmware_of scope.now.firmware.now).structs) (map binding_of bindings.now)) }
    ensures most { IfOk result (λ n. n ≤ local_limit * object_limit) }
{
    let mut total = 0;
    for binding in bindings {
        let size = local(scope, spot, seen, binding)?;
        total = with_local(total, size);
    }
    Ok(total)
}
