//! Structs.

ghost use Rattle.std.specs.Prelude.{◌≡◌, ◌++◌, ◌∷◌, [], map, OnOk, IfOk};
ghost use Rattle.ir_model.specs.Plain.{binding_of, struct_of};
ghost use Rattle.ir_model.specs.Typing.{field_checks, struct_checks, structs_checks};
ghost use Rattle.ir_check_scopes.specs.Found.{Finds};
ghost use Rattle.ir_check_scopes.specs.Spots.{place_of};
ghost use Rattle.ir_check_declarations.specs.StructParts.{field_check, fields_part};

use ir_check_scopes::found::fault;
use ir_check_scopes::new_names::{add_new, require_new};
use ir_check_scopes::type_names::type_names;
use ir_check_scopes::{CheckFault, CheckPlaceRef};
use ir_layouts::fault::LayoutFault;
use ir_layouts::table::Layouts;
use ir_model::check::CheckKind;
use ir_model::firmware::{Binding, StructDecl};
use ir_names::Names;
use std::alloc::Global;

#[tactic(auto, using(ir_check_scopes::proofs::Order::checks_of_both))]
fn field<'a, 'n>(
    declared: &Names<'n>,
    earlier: &Names<'n>,
    spot: CheckPlaceRef,
    seen: &mut Names<'a>,
    binding: &'a Binding,
) -> Result<(), CheckFault>
    ensures finds { Finds (field_check declared.now earlier.now (place_of spot.entry) seen.old (binding_of binding.now)) result }
    ensures grows { OnOk result (seen.new ≡ seen.old ++ binding.now.name ∷ []) }
{
    add_new(seen, &binding.name, spot)?;
    type_names(declared, earlier, spot, &binding.ty)?;
    Ok(())
}

fn fields<'n>(
    alloc: Global,
    declared: &Names<'n>,
    earlier: &Names<'n>,
    spot: CheckPlaceRef,
    bindings: &[Binding],
) -> Result<(), CheckFault>
    ensures { Finds (field_checks declared.now earlier.now (place_of spot.entry) [] (map binding_of bindings.now)) result }
{
    let mut seen = Names::new(alloc);
    for binding in bindings {
        field(declared, earlier, spot, &mut seen, binding)?;
    }
    Ok(())
}

#[tactic(auto, using(ir_check_scopes::proofs::Order::checks_of_both))]
fn named_fields<'n>(
    alloc: Global,
    declared: &Names<'n>,
    earlier: &Names<'n>,
    of: &StructDecl,
) -> Result<(), CheckFault>
    ensures { Finds (fields_part declared.now earlier.now (struct_of of.now)) result }
{
    let spot = CheckPlaceRef::Struct(&of.name);
    require_new(earlier, &of.name, spot)?;
    fields(alloc, declared, earlier, spot, of.fields.as_slice())?;
    Ok(())
}

fn structure<'n>(
    alloc: Global,
    declared: &Names<'n>,
    layouts: &mut Layouts<'n>,
    of: &'n StructDecl,
) -> Result<(), CheckFault>
    ensures finds { Finds (struct_checks declared.now (map struct_of layouts.old) (struct_of of.now)) result }
    ensures grows { OnOk result (layouts.new ≡ layouts.old ++ of.now ∷ []) }
{
    named_fields(alloc, declared, layouts.names(), of)?;
    match layouts.push(of) {
        Ok(()) => Ok(()),
        Err(LayoutFault::TooLarge) => Err(fault(
            CheckKind::ObjectTooLarge,
            CheckPlaceRef::Struct(&of.name),
        )),
        Err(LayoutFault::NoMemory) => Err(CheckFault::NoMemory),
    }
}

/// The checks of structs, and their layouts.
pub fn structs<'n>(
    alloc: Global,
    declared: &Names<'n>,
    structs: &'n [StructDecl],
) -> Result<Layouts<'n>, CheckFault>
    ensures finds { Finds (structs_checks declared.now [] (map struct_of structs.now)) result }
    ensures all { IfOk result (λ l. l ≡ structs.now) }
{
    let mut layouts = Layouts::new(alloc);
    for declaration in structs {
        structure(alloc, declared, &mut layouts, declaration)?;
    }
    Ok(layouts)
}
