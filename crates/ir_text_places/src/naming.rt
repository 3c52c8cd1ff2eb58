//! The item that a fault of a firmware names.

ghost use Rattle.std.specs.Prelude.{◌≡◌, ◌++◌, [], map, flat_map, drop, not, ◌&&◌, OnOk, IfOk};
ghost use Rattle.base_names.specs.Numbers.{number_of};
ghost use Rattle.ir_model.specs.Plain.{PlainFile, func_of, file_of, struct_of, firmware_of, funcs_of, lent_funcs, func_names};
ghost use Rattle.ir_text_places.specs.Faulty as faulty;
ghost use Rattle.ir_text_places.specs.Faulty.{item_at, code_at, has_twice, first_fields, first_labels, struct_row, periph_row, global_row, file_row};
ghost use Rattle.ir_text_places.specs.Rows.{names_in};

use crate::item::Item;
use crate::rows::{
    again, number, number_alone, number_in, put_bindings, put_files, put_funcs, put_globals,
    put_labels, put_periphs, put_structs,
};
use base_names::Name;
use ir_model::check::{CheckKind, CheckPlace};
use ir_model::firmware::{FileDecl, Firmware, Func, StructDecl};
use std::alloc::{AllocError, Global};

fn lend_funcs<'a>(bodies: &mut Vec<&'a Func>, funcs: &'a [Func]) -> Result<(), AllocError>
    ensures { OnOk result (lent_funcs bodies.new.items ≡ lent_funcs bodies.old.items ++ map func_of funcs.now) }
{
    for func in funcs {
        bodies.push(func)?;
    }
    Ok(())
}

/// The functions of all files in order.
///
/// # Errors
///
/// There is no memory for them.
pub fn all_funcs(alloc: Global, files: &[FileDecl]) -> Result<Vec<&Func>, AllocError>
    ensures { IfOk result (λ v. lent_funcs v.items ≡ flat_map (λ (f : PlainFile). f.funcs) (map file_of files.now)) }
{
    let mut bodies = Vec::new(alloc);
    for file in files {
        lend_funcs(&mut bodies, file.funcs.as_slice())?;
    }
    Ok(bodies)
}

// Whether a fault is that something has this name again.
fn is_again(kind: &CheckKind, name: &Name) -> bool
    ensures { result ≡ faulty.is_again kind.now name.now }
{
    match kind {
        CheckKind::Twice(other) => other.same(name),
        _ => false,
    }
}

// Whether a fault is that a struct has this name again, where it is known whether it is of a field.
fn is_struct_again(kind: &CheckKind, name: &Name, of_field: bool) -> bool
    ensures { result ≡ (faulty.is_again kind.now name.now && not of_field) }
{
    is_again(kind, name) && !of_field
}

// Whether the struct of this number has two fields of a name.
fn has_two_fields(
    alloc: Global,
    structs: &[StructDecl],
    number: usize,
    name: &Name,
) -> Result<bool, AllocError>
    ensures { IfOk result (λ b. b ≡ has_twice (first_fields (drop number (map struct_of structs.now))) name.now) }
{
    if number >= structs.len() {
        return Ok(false);
    }
    let mut row = Vec::new(alloc);
    put_bindings(&mut row, structs[number].fields.as_slice())?;
    Ok(again(row.as_slice(), name).is_some())
}

fn struct_number(
    alloc: Global,
    firmware: &Firmware,
    kind: &CheckKind,
    name: &Name,
) -> Result<usize, AllocError>
    ensures { IfOk result (λ k. k ≡ faulty.number_in [] (struct_row (firmware_of firmware.now))
        (faulty.is_again kind.now name.now && not (faulty.is_of_field (firmware_of firmware.now) name.now)) name.now) }
{
    let structs = firmware.structs.as_slice();
    let mut row = Vec::new(alloc);
    put_structs(&mut row, structs)?;
    let of_field = has_two_fields(alloc, structs, number(row.as_slice(), name), name)?;
    let again = is_struct_again(kind, name, of_field);
    Ok(number_alone(row.as_slice(), again, name))
}

fn periph_number(
    alloc: Global,
    firmware: &Firmware,
    kind: &CheckKind,
    name: &Name,
) -> Result<usize, AllocError>
    ensures { IfOk result (λ k. k ≡ faulty.number_in [] (periph_row (firmware_of firmware.now)) (faulty.is_again kind.now name.now) name.now) }
{
    let mut row = Vec::new(alloc);
    put_periphs(&mut row, firmware.periphs.as_slice())?;
    Ok(number_alone(row.as_slice(), is_again(kind, name), name))
}

fn file_number(
    alloc: Global,
    firmware: &Firmware,
    kind: &CheckKind,
    name: &Name,
) -> Result<usize, AllocError>
    ensures { IfOk result (λ k. k ≡ faulty.number_in [] (file_row (firmware_of firmware.now)) (faulty.is_again kind.now name.now) name.now) }
{
    let mut row = Vec::new(alloc);
    put_files(&mut row, firmware.files.as_slice())?;
    Ok(number_alone(row.as_slice(), is_again(kind, name), name))
}

fn global_number(
    alloc: Global,
    firmware: &Firmware,
    kind: &CheckKind,
    name: &Name,
) -> Result<usize, AllocError>
    ensures { IfOk result (λ k. k ≡ faulty.number_in (periph_row (firmware_of firmware.now)) (global_row (firmware_of firmware.now))
        (faulty.is_again kind.now name.now) name.now) }
{
    let mut before = Vec::new(alloc);
    put_periphs(&mut before, firmware.periphs.as_slice())?;
    let mut row = Vec::new(alloc);
    put_globals(&mut row, firmware.globals.as_slice())?;
    Ok(number_in(
        before.as_slice(),
        row.as_slice(),
        is_again(kind, name),
        name,
    ))
}

// The names of peripherals and globals.
fn object_names(alloc: Global, firmware: &Firmware) -> Result<Vec<&Name>, AllocError>
    ensures { IfOk result (λ v. names_in v.items ≡ periph_row (firmware_of firmware.now) ++ global_row (firmware_of firmware.now)) }
{
    let mut row = Vec::new(alloc);
    put_periphs(&mut row, firmware.periphs.as_slice())?;
    put_globals(&mut row, firmware.globals.as_slice())?;
    Ok(row)
}

fn func_number(
    alloc: Global,
    firmware: &Firmware,
    bodies: &[&Func],
    kind: &CheckKind,
    name: &Name,
) -> Result<usize, AllocError>
    requires { lent_funcs bodies.now ≡ funcs_of (firmware_of firmware.now) }
    ensures { IfOk result (λ k. k ≡ faulty.number_in (periph_row (firmware_of firmware.now) ++ global_row (firmware_of firmware.now)) (func_names (funcs_of (firmware_of firmware.now)))
        (faulty.is_again kind.now name.now) name.now) }
{
    let before = object_names(alloc, firmware)?;
    let mut row = Vec::new(alloc);
    put_funcs(&mut row, bodies)?;
    Ok(number_in(
        before.as_slice(),
        row.as_slice(),
        is_again(kind, name),
        name,
    ))
}

// The number of the first function of a name.
fn first_func(alloc: Global, bodies: &[&Func], name: &Name) -> Result<usize, AllocError>
    ensures { IfOk result (λ k. k ≡ number_of (func_names (lent_funcs bodies.now)) name.now) }
{
    let mut row = Vec::new(alloc);
    put_funcs(&mut row, bodies)?;
    Ok(number(row.as_slice(), name))
}

// The number of the first block of a label in the function of this number.
fn block_number(
    alloc: Global,
    bodies: &[&Func],
    func: usize,
    label: &Name,
) -> Result<usize, AllocError>
    ensures { IfOk result (λ k. k ≡ number_of (first_labels (drop func (lent_funcs bodies.now))) label.now) }
{
    if func >= bodies.len() {
        return Ok(0);
    }
    let mut row = Vec::new(alloc);
    put_labels(&mut row, bodies[func].blocks.as_slice())?;
    Ok(number(row.as_slice(), label))
}

fn code_item(
    alloc: Global,
    bodies: &[&Func],
    func: &Name,
    block: &Name,
    place: u32,
) -> Result<Item, AllocError>
    ensures { IfOk result (λ i. i ≡ code_at (lent_funcs bodies.now) func.now block.now place) }
{
    let func = first_func(alloc, bodies, func)?;
    let block = block_number(alloc, bodies, func, block)?;
    Ok(Item::Code {
        func,
        block,
        place: place as usize,
    })
}

/// The item that a fault names, by the functions of all files in order.
///
/// # Errors
///
/// There is no memory for the names.
pub fn item(
    alloc: Global,
    firmware: &Firmware,
    bodies: &[&Func],
    kind: &CheckKind,
    place: &CheckPlace,
) -> Result<Item, AllocError>
    requires { lent_funcs bodies.now ≡ funcs_of (firmware_of firmware.now) }
    ensures { IfOk result (λ i. i ≡ item_at (firmware_of firmware.now) kind.now place.now) }
{
    match place {
        CheckPlace::Whole => Ok(Item::Whole),
        CheckPlace::Struct(name) => Ok(Item::Struct(struct_number(alloc, firmware, kind, name)?)),
        CheckPlace::Periph(name) => Ok(Item::Periph(periph_number(alloc, firmware, kind, name)?)),
        CheckPlace::Global(name) => Ok(Item::Global(global_number(alloc, firmware, kind, name)?)),
        CheckPlace::File(name) => Ok(Item::File(file_number(alloc, firmware, kind, name)?)),
        CheckPlace::Func(name) => {
            let number = func_number(alloc, firmware, bodies, kind, name)?;
            Ok(Item::Func(number))
        }
        CheckPlace::Inst { func, block, inst } => code_item(alloc, bodies, func, block, *inst),
    }
}
