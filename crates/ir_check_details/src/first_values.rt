//! The lines of first values.

ghost use Rattle.std.specs.Prelude.{◌≡◌, ◌&&◌, ◌||◌, ◌++◌, ◌≤◌, length, map, OnOk};
ghost use Rattle.ir_model.specs.declared.check.CheckPlace.TheVariants as place;
ghost use Rattle.ir_model.specs.Types.{type_of};
ghost use Rattle.ir_model.specs.declared.firmware.Peripheral.{Peripheral as PlainPeripheral};
ghost use Rattle.ir_model.specs.Plain.{PlainFunc, PlainGlobal, global_of, firmware_of, funcs_of};
ghost use Rattle.ir_model.specs.Rules.{is_type, func_type};
ghost use Rattle.base_names.specs.Numbers.{has};
ghost use Rattle.ir_cells.specs.Cells.{lent_types};
ghost use Rattle.ir_check_scopes.specs.Parts as parts;
ghost use Rattle.ir_check_details.specs.FirstValues as first_values;

use crate::lookup::global_declared;
use crate::wording::{put, put_count, put_decimal, put_expected_type};
use base_names::Name;
use ir_cells::put_cell_types;
use ir_check_declarations::declared::checked_scope;
use ir_check_scopes::lookup::is_function;
use ir_check_scopes::values::{holds_address, holds_number};
use ir_check_scopes::{CheckFault, Scope};
use ir_model::firmware::{Cell, Firmware, Global as GlobalDecl};
use ir_model::types::Ty;
use std::alloc::AllocError;

/// Whether a function is there, and its type is this one.
fn function_fits(scope: &Scope, name: &Name, ty: &Ty) -> bool
    ensures { result ≡ (has (map (λ (g : PlainFunc). g.name) (funcs_of (firmware_of scope.now.firmware.now))) name.now && is_type (func_type (funcs_of (firmware_of scope.now.firmware.now)) name.now) (type_of ty.now)) }
{
    scope.funcs.has(name) && is_function(scope, name, ty)
}

/// Whether a peripheral or a global is there, and its address is of this type.
fn address_fits(scope: &Scope, name: &Name, ty: &Ty) -> bool
    ensures { result ≡ ((has (map (λ (q : PlainPeripheral). q.name) (firmware_of scope.now.firmware.now).periphs) name.now || has (map (λ (g : PlainGlobal). g.name) (firmware_of scope.now.firmware.now).globals) name.now) && parts.address_fits (firmware_of scope.now.firmware.now) name.now (type_of ty.now)) }
{
    let known = scope.periphs.has(name) || scope.globals.has(name);
    known && holds_address(scope, name, ty)
}

/// Whether a first value of a global fits a cell of a type.
fn fits(scope: &Scope, global: &Name, cell: &Cell, ty: &Ty) -> bool
    ensures { result ≡ first_values.fits (firmware_of scope.now.firmware.now) (place.Global global.now) cell.now (type_of ty.now) }
{
    match cell {
        Cell::Word(number) => holds_number(ty, *number),
        Cell::Function(name) => function_fits(scope, name, ty),
        Cell::Address(name) => address_fits(scope, name, ty),
    }
}

/// Puts a value as it is written.
fn put_value_text(out: &mut Vec<u8>, cell: &Cell) -> Result<(), AllocError>
    ensures { OnOk result (out.new.items ≡ out.old.items ++ first_values.value_text cell.now) }
{
    match cell {
        Cell::Word(number) => put_decimal(out, *number),
        Cell::Function(name) => {
            put(out, b"fn ")?;
            put(out, name.as_slice())
        }
        Cell::Address(name) => {
            put(out, b"addr ")?;
            put(out, name.as_slice())
        }
    }
}

/// Puts the line of the value of a number.
fn put_found_value(out: &mut Vec<u8>, number: usize, cell: &Cell) -> Result<(), AllocError>
    ensures { OnOk result (out.new.items ≡ out.old.items ++ first_values.found_value number cell.now) }
{
    put(out, b"found value ")?;
    put_count(out, number)?;
    put(out, b": ")?;
    put_value_text(out, cell)?;
    put(out, b"\n")
}

/// Puts the lines of the value of a number that does not fit its cell.
fn put_value(out: &mut Vec<u8>, number: usize, cell: &Cell, ty: &Ty) -> Result<(), AllocError>
    ensures { OnOk result (out.new.items ≡ out.old.items ++ first_values.value_lines number cell.now (type_of ty.now)) }
{
    put_found_value(out, number, cell)?;
    put_expected_type(out, ty)
}

/// Puts the lines of more values than cells.
fn put_too_many(out: &mut Vec<u8>, values: usize, cells: usize) -> Result<(), AllocError>
    ensures { OnOk result (out.new.items ≡ out.old.items ++ first_values.too_many_lines values cells) }
{
    put(out, b"found ")?;
    put_count(out, values)?;
    put(out, b" values")?;
    put(out, b"\n")?;
    put(out, b"expected at most ")?;
    put_count(out, cells)?;
    put(out, b"\n")
}

/// Puts the lines of the first value that does not fit, of values beside the types of their cells.
fn put_values(
    out: &mut Vec<u8>,
    scope: &Scope,
    global: &Name,
    cells: &[Cell],
    types: &[&Ty],
) -> Result<(), AllocError>
    requires { length cells.now ≤ length types.now }
    ensures { OnOk result (out.new.items ≡ out.old.items ++ first_values.values_lines (firmware_of scope.now.firmware.now) (place.Global global.now) 1 cells.now (lent_types types.now)) }
{
    for i in 0..cells.len() {
        let cell = &cells[i];
        let ty = types[i];
        if !fits(scope, global, cell, ty) {
            return put_value(out, i + 1, cell, ty);
        }
    }
    Ok(())
}

/// Puts the lines of a global by the types of its first cells.
fn put_typed(
    out: &mut Vec<u8>,
    scope: &Scope,
    global: &GlobalDecl,
    types: &[&Ty],
) -> Result<(), AllocError>
    ensures { OnOk result (out.new.items ≡ out.old.items ++ first_values.init_lines (firmware_of scope.now.firmware.now) (global_of global.now) (lent_types types.now)) }
{
    let init = global.init.as_slice();
    if init.len() <= types.len() {
        put_values(out, scope, &global.name, init, types)
    } else {
        put_too_many(out, init.len(), types.len())
    }
}

/// Puts the lines of a global. One cell for each value tells them, so no other is listed.
fn put_init<'a>(
    out: &mut Vec<u8>,
    scope: &Scope<'a>,
    global: &'a GlobalDecl,
) -> Result<(), AllocError>
    ensures { OnOk result (out.new.items ≡ out.old.items ++ first_values.init_lines (firmware_of scope.now.firmware.now) (global_of global.now) (first_values.cell_types (firmware_of scope.now.firmware.now) (type_of global.now.ty))) }
{
    let mut types = Vec::new(*out.allocator());
    put_cell_types(&scope.layouts, &global.ty, global.init.len(), &mut types)?;
    put_typed(out, scope, global, types.as_slice())
}

/// Puts the lines of the global of a name, where no struct and no peripheral has a fault.
pub(crate) fn put_bad_init(
    out: &mut Vec<u8>,
    firmware: &Firmware,
    name: &Name,
) -> Result<(), AllocError>
    ensures { OnOk result (out.new.items ≡ out.old.items ++ first_values.global_lines (firmware_of firmware.now) (first_values.global_named (map global_of firmware.now.globals) name.now)) }
{
    let Some(global) = global_declared(firmware.globals.as_slice(), name.as_slice()) else {
        return Ok(());
    };
    match checked_scope(*out.allocator(), firmware) {
        Ok(scope) => put_init(out, &scope, global),
        Err(CheckFault::At { .. }) => Ok(()),
        Err(CheckFault::NoMemory) => Err(AllocError),
    }
}
