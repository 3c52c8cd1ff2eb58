//! Globals.

ghost use Rattle.std.specs.Prelude.{◌≡◌, ◌++◌, ◌∷◌, [], ◌≤◌, map, length, OnOk};
ghost use Rattle.ir_model.specs.Types.{type_of};
ghost use Rattle.ir_model.specs.Plain.{global_of, firmware_of};
ghost use Rattle.ir_model.specs.Typing.{cell_checks, globals_checks};
ghost use Rattle.ir_check_scopes.specs.Found.{Finds};
ghost use Rattle.ir_check_scopes.specs.Spots.{place_of};
ghost use Rattle.ir_cells.specs.Cells.{lent_types};
ghost use Rattle.ir_check_globals.specs.Parts.{cells_part, values_checks, values_part, named_check, global_part};

use base_names::Name;
use ir_cells::put_cell_types;
use ir_check_scopes::found::{fault, require, require_known};
use ir_check_scopes::lookup::is_function;
use ir_check_scopes::new_names::add_new;
use ir_check_scopes::sizes::object_size;
use ir_check_scopes::type_names::type_names;
use ir_check_scopes::values::{holds_address, holds_number};
use ir_check_scopes::{CheckFault, CheckPlaceRef, Scope};
use ir_model::check::CheckKind;
use ir_model::firmware::{Cell, Global as GlobalDecl};
use ir_model::types::Ty;
use ir_names::Names;
use ir_names::firmware_names::periph_names;
use std::alloc::Global;

#[tactic(auto, using(ir_check_scopes::proofs::Order::checks_behind_one))]
fn function_cell(scope: &Scope, spot: CheckPlaceRef, name: &Name, ty: &Ty) -> Result<(), CheckFault>
    ensures { Finds (cell_checks (firmware_of scope.now.firmware.now) (place_of spot.entry) (Cell.Function name.now) (type_of ty.now)) result }
{
    require_known(scope.funcs.has(name), name, spot)?;
    require(is_function(scope, name, ty), CheckKind::BadInit, spot)?;
    Ok(())
}

#[tactic(auto, using(ir_check_scopes::proofs::Order::checks_behind_one))]
fn address_cell(scope: &Scope, spot: CheckPlaceRef, name: &Name, ty: &Ty) -> Result<(), CheckFault>
    ensures { Finds (cell_checks (firmware_of scope.now.firmware.now) (place_of spot.entry) (Cell.Address name.now) (type_of ty.now)) result }
{
    let known = scope.periphs.has(name) || scope.globals.has(name);
    require_known(known, name, spot)?;
    require(holds_address(scope, name, ty), CheckKind::BadInit, spot)?;
    Ok(())
}

fn value(scope: &Scope, spot: CheckPlaceRef, cell: &Cell, ty: &Ty) -> Result<(), CheckFault>
    ensures { Finds (cell_checks (firmware_of scope.now.firmware.now) (place_of spot.entry) cell.now (type_of ty.now)) result }
{
    match cell {
        Cell::Word(number) => require(holds_number(ty, *number), CheckKind::BadInit, spot),
        Cell::Function(name) => function_cell(scope, spot, name, ty),
        Cell::Address(name) => address_cell(scope, spot, name, ty),
    }
}

fn values(
    scope: &Scope,
    spot: CheckPlaceRef,
    cells: &[Cell],
    types: &[&Ty],
) -> Result<(), CheckFault>
    requires { length cells.now ≤ length types.now }
    ensures { Finds (values_checks (firmware_of scope.now.firmware.now) (place_of spot.entry) cells.now (lent_types types.now)) result }
{
    for i in 0..cells.len() {
        value(scope, spot, &cells[i], types[i])?;
    }
    Ok(())
}

fn typed_values(
    scope: &Scope,
    spot: CheckPlaceRef,
    cells: &[Cell],
    types: &[&Ty],
) -> Result<(), CheckFault>
    ensures { Finds (values_part (firmware_of scope.now.firmware.now) (place_of spot.entry) cells.now (lent_types types.now)) result }
{
    if cells.len() > types.len() {
        return Err(fault(CheckKind::BadInit, spot));
    }
    values(scope, spot, cells, types)?;
    Ok(())
}

fn first_values<'a>(
    alloc: Global,
    scope: &Scope<'a>,
    spot: CheckPlaceRef,
    global: &'a GlobalDecl,
) -> Result<(), CheckFault>
    ensures { Finds (cells_part (firmware_of scope.now.firmware.now) (place_of spot.entry) global.now.init (type_of global.now.ty)) result }
{
    let init = global.init.as_slice();
    if init.len() == 0 {
        return Ok(());
    }
    let mut types = Vec::new(alloc);
    put_cell_types(&scope.layouts, &global.ty, init.len(), &mut types)?;
    typed_values(scope, spot, init, types.as_slice())?;
    Ok(())
}

#[tactic(auto, using(ir_check_scopes::proofs::Order::checks_of_both))]
fn named<'a>(scope: &Scope, seen: &mut Names<'a>, global: &'a GlobalDecl) -> Result<(), CheckFault>
    ensures finds { Finds (named_check scope.now.structs seen.old (global_of global.now)) result }
    ensures grows { OnOk result (seen.new ≡ seen.old ++ global.now.name ∷ []) }
{
    let spot = CheckPlaceRef::Global(&global.name);
    add_new(seen, &global.name, spot)?;
    type_names(&scope.structs, &scope.structs, spot, &global.ty)?;
    Ok(())
}

#[tactic(auto, using(ir_check_scopes::proofs::Order::checks_in_order))]
fn global<'a>(
    alloc: Global,
    scope: &Scope<'a>,
    seen: &mut Names<'a>,
    global: &'a GlobalDecl,
) -> Result<(), CheckFault>
    ensures finds { Finds (global_part scope.now.structs (firmware_of scope.now.firmware.now) seen.old (global_of global.now)) result }
    ensures grows { OnOk result (seen.new ≡ seen.old ++ global.now.name ∷ []) }
{
    let spot = CheckPlaceRef::Global(&global.name);
    named(scope, seen, global)?;
    object_size(scope, spot, &global.ty)?;
    first_values(alloc, scope, spot, global)?;
    Ok(())
}

/// The checks of globals.
pub fn globals(alloc: Global, scope: &Scope) -> Result<(), CheckFault>
    ensures { Finds (globals_checks (firmware_of scope.now.firmware.now) (map (λ p. p.name) scope.now.firmware.now.periphs) (map global_of scope.now.firmware.now.globals)) result }
{
    let mut seen = periph_names(alloc, scope.firmware.periphs.as_slice())?;
    for declaration in scope.firmware.globals.as_slice() {
        global(alloc, scope, &mut seen, declaration)?;
    }
    Ok(())
}
