//! How many tokens structs, peripherals and globals have.

ghost use Rattle.std.specs.Prelude.{◌≡◌, ◌*◌, map, length, take, IfOk, sum_by};
ghost use Rattle.ir_model.specs.Plain.{binding_of, struct_of, global_of, firmware_of};
ghost use Rattle.ir_text_places.specs.Sizes as sizes;

use crate::types::{add, closed_row_size, type_size};
use ir_model::firmware::{Binding, Cell, Firmware, Global as GlobalDecl, Peripheral, StructDecl};
use std::alloc::AllocError;

/// The first items of a slice, or all where there are not so many.
#[tactic(auto, using(std::proofs::lemmas::List::take_all))]
pub fn front<T>(items: &[T], count: usize) -> &[T]
    ensures { result.now ≡ take count items.now }
{
    if count < items.len() {
        &items[..count]
    } else {
        items
    }
}

/// The tokens of names with their types, each with the token behind it.
#[tactic(auto, using(std::proofs::lemmas::List::Sums::sum_by_more))]
pub fn bindings_size(bindings: &[Binding]) -> Result<u64, AllocError>
    ensures { IfOk result (λ n. n ≡ sizes.bindings_size (map binding_of bindings.now)) }
{
    let mut size = 0;
    for binding in bindings {
        let more = add(3, type_size(&binding.ty)?)?;
        size = add(size, more)?;
    }
    Ok(size)
}

fn struct_size(decl: &StructDecl) -> Result<u64, AllocError>
    ensures { IfOk result (λ n. n ≡ sizes.struct_size (struct_of decl.now)) }
{
    let fields = bindings_size(decl.fields.as_slice())?;
    add(3, closed_row_size(fields))
}

/// The tokens of structs.
pub fn structs_size(structs: &[StructDecl]) -> Result<u64, AllocError>
    ensures { IfOk result (λ n. n ≡ sum_by sizes.struct_size (map struct_of structs.now)) }
{
    let mut size = 0;
    for decl in structs {
        let more = struct_size(decl)?;
        size = add(size, more)?;
    }
    Ok(size)
}

/// The tokens of peripherals.
pub fn periphs_size(periphs: &[Peripheral]) -> Result<u64, AllocError>
    ensures { IfOk result (λ n. n ≡ 4 * length periphs.now) }
{
    match (periphs.len() as u64).checked_mul(4) {
        Some(size) => Ok(size),
        None => Err(AllocError),
    }
}

fn cell_size(cell: &Cell) -> u64
    ensures { result ≡ sizes.cell_size cell.now }
{
    match cell {
        Cell::Word(_) => 1,
        Cell::Function(_) => 2,
        Cell::Address(_) => 2,
    }
}

// Cells, each with the token behind it.
fn cells_size(cells: &[Cell]) -> Result<u64, AllocError>
    ensures { IfOk result (λ n. n ≡ sizes.cells_size cells.now) }
{
    let mut size = 0;
    for cell in cells {
        let more = add(1, cell_size(cell))?;
        size = add(size, more)?;
    }
    Ok(size)
}

fn init_size(cells: &[Cell]) -> Result<u64, AllocError>
    ensures { IfOk result (λ n. n ≡ sizes.init_size cells.now) }
{
    if cells.is_empty() {
        return Ok(0);
    }
    let size = cells_size(cells)?;
    add(2, size)
}

fn start_size(constant: bool) -> u64
    ensures { result ≡ sizes.start_size constant }
{
    if constant { 2 } else { 1 }
}

fn global_size(global: &GlobalDecl) -> Result<u64, AllocError>
    ensures { IfOk result (λ n. n ≡ sizes.global_size (global_of global.now)) }
{
    let named = add(2, type_size(&global.ty)?)?;
    let init = init_size(global.init.as_slice())?;
    let behind = add(named, init)?;
    add(start_size(global.constant), behind)
}

/// The tokens of globals.
pub fn globals_size(globals: &[GlobalDecl]) -> Result<u64, AllocError>
    ensures { IfOk result (λ n. n ≡ sum_by sizes.global_size (map global_of globals.now)) }
{
    let mut size = 0;
    for global in globals {
        let more = global_size(global)?;
        size = add(size, more)?;
    }
    Ok(size)
}

/// The tokens of all structs, peripherals and globals.
pub fn declarations_size(firmware: &Firmware) -> Result<u64, AllocError>
    ensures { IfOk result (λ n. n ≡ sizes.declarations_size (firmware_of firmware.now)) }
{
    let structs = structs_size(firmware.structs.as_slice())?;
    let periphs = periphs_size(firmware.periphs.as_slice())?;
    let globals = globals_size(firmware.globals.as_slice())?;
    let behind = add(periphs, globals)?;
    add(structs, behind)
}
