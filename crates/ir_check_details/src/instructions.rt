//! The lines of instructions that are no calls.

ghost use Rattle.std.specs.Prelude.{◌≡◌, ◌++◌, map, None, OnOk};
ghost use Rattle.base_names.specs.Numbers.{has};
ghost use Rattle.ir_model.specs.declared.firmware.Peripheral.{Peripheral as PlainPeripheral};
ghost use Rattle.ir_model.specs.Types.{type_of, Pointer, element_of};
ghost use Rattle.ir_model.specs.Plain.{binding_of, func_of, firmware_of};
ghost use Rattle.ir_model.specs.Resolve.{row_from, signature_of};
ghost use Rattle.ir_model.specs.Rules.{binding_type, global_type};
ghost use Rattle.ir_grammar.specs.Spelling.{spell_row, spell_more_row};
ghost use Rattle.ir_printer.specs.Pieces.{as_bytes};
ghost use Rattle.ir_check_details.specs.Found as found;
ghost use Rattle.ir_check_details.specs.Words as words;
ghost use Rattle.ir_check_details.specs.Instructions as lines;

use crate::lookup::{
    Site, binding_named, func_named, global_named, has_periph, is_number, register_type,
    struct_named,
};
use crate::wording::{
    put, put_expected, put_expected_pointer, put_expected_type, put_found, put_found_typed,
};
use base_names::Name;
use ir_check_scopes::kinds::is_register_type;
use ir_model::firmware::{Binding, Firmware, Func};
use ir_model::token::{Keyword, Mark};
use ir_model::types::Ty;
use ir_printer::tokens::{put_keyword, put_mark};
use ir_printer::types::{put_result, put_type};
use ir_types::kinds::is_integer;
use std::alloc::AllocError;

/// Puts the line of a register with its type.
pub(crate) fn put_register(
    out: &mut Vec<u8>,
    site: &Site<'_>,
    register: &Name,
) -> Result<(), AllocError>
    ensures { OnOk result (out.new.items ≡ out.old.items ++ lines.found_register (func_of site.now.func.now) register.now) }
{
    put_found_typed(out, register.as_slice(), register_type(site, register))
}

/// Puts the lines of a register that had to be a number.
pub(crate) fn put_number(
    out: &mut Vec<u8>,
    site: &Site<'_>,
    register: &Name,
) -> Result<(), AllocError>
    ensures { OnOk result (out.new.items ≡ out.old.items ++ lines.number_lines (func_of site.now.func.now) register.now) }
{
    put_register(out, site, register)?;
    put_expected_type(out, site.number)
}

/// Puts the lines of the first of three registers that is no number.
pub(crate) fn put_numbers(
    out: &mut Vec<u8>,
    site: &Site<'_>,
    to: &Name,
    a: &Name,
    b: &Name,
) -> Result<(), AllocError>
    ensures { OnOk result (out.new.items ≡ out.old.items ++ lines.numbers_lines (func_of site.now.func.now) to.now a.now b.now) }
{
    if !is_number(site, to) {
        return put_number(out, site, to);
    }
    if !is_number(site, a) {
        return put_number(out, site, a);
    }
    put_number(out, site, b)
}

/// Puts the lines of a copy.
pub(crate) fn put_move(
    out: &mut Vec<u8>,
    site: &Site<'_>,
    to: &Name,
    from: &Name,
) -> Result<(), AllocError>
    ensures { OnOk result (out.new.items ≡ out.old.items ++ lines.move_lines (func_of site.now.func.now) to.now from.now) }
{
    put_register(out, site, from)?;
    put_expected_type(out, register_type(site, to))
}

/// Puts the line of the address of a peripheral or a global.
fn put_outer_address(out: &mut Vec<u8>, firmware: &Firmware, of: &Name) -> Result<(), AllocError>
    ensures { OnOk result (out.new.items ≡ out.old.items ++ lines.expected_address None (has (map (λ (q : PlainPeripheral). q.name) (firmware_of firmware.now).periphs) of.now) (global_type (firmware_of firmware.now).globals of.now)) }
{
    if has_periph(firmware.periphs.as_slice(), of.as_slice()) {
        return put_expected(out, b"* u8 or * u16 or * u32");
    }
    match global_named(firmware.globals.as_slice(), of.as_slice()) {
        Some(ty) => put_expected_pointer(out, ty),
        None => Ok(()),
    }
}

/// Puts the line of the address that `addr` takes.
fn put_address(out: &mut Vec<u8>, site: &Site<'_>, of: &Name) -> Result<(), AllocError>
    ensures { OnOk result (out.new.items ≡ out.old.items ++ lines.expected_address (binding_type (func_of site.now.func.now).locals of.now) (has (map (λ (q : PlainPeripheral). q.name) (firmware_of site.now.firmware.now).periphs) of.now) (global_type (firmware_of site.now.firmware.now).globals of.now)) }
{
    match binding_named(site.func.locals.as_slice(), of.as_slice()) {
        Some(ty) => put_expected_pointer(out, ty),
        None => put_outer_address(out, site.firmware, of),
    }
}

/// Puts the lines of the address of something.
pub(crate) fn put_addr(
    out: &mut Vec<u8>,
    site: &Site<'_>,
    to: &Name,
    of: &Name,
) -> Result<(), AllocError>
    ensures { OnOk result (out.new.items ≡ out.old.items ++ lines.addr_lines (firmware_of site.now.firmware.now) (func_of site.now.func.now) to.now of.now) }
{
    put_register(out, site, to)?;
    put_address(out, site, of)
}

/// Puts the types of parameters behind the first, and the closing bracket.
fn put_more_params(out: &mut Vec<u8>, params: &[Binding]) -> Result<(), AllocError>
    ensures { OnOk result (out.new.items ≡ out.old.items ++ spell_more_row as_bytes (row_from (map binding_of params.now))) }
{
    match params {
        [] => put_mark(out, Mark::Close),
        [param, more @ ..] => {
            put_mark(out, Mark::Comma)?;
            put_type(out, &param.ty)?;
            put_more_params(out, more)
        }
    }
}

/// Puts the types of parameters, and the closing bracket.
fn put_params(out: &mut Vec<u8>, params: &[Binding]) -> Result<(), AllocError>
    ensures { OnOk result (out.new.items ≡ out.old.items ++ spell_row as_bytes (row_from (map binding_of params.now))) }
{
    match params {
        [] => put_mark(out, Mark::Close),
        [param, more @ ..] => {
            put_type(out, &param.ty)?;
            put_more_params(out, more)
        }
    }
}

/// Puts the type of a function.
pub(crate) fn put_signature(out: &mut Vec<u8>, func: &Func) -> Result<(), AllocError>
    ensures { OnOk result (out.new.items ≡ out.old.items ++ words.type_text (signature_of (func_of func.now))) }
{
    put_keyword(out, Keyword::Fn)?;
    put_mark(out, Mark::Open)?;
    put_params(out, func.params.as_slice())?;
    put_result(out, &func.result)
}

/// Puts the line of a function's type that was expected.
fn put_expected_signature(out: &mut Vec<u8>, func: &Func) -> Result<(), AllocError>
    ensures { OnOk result (out.new.items ≡ out.old.items ++ words.expected_type (signature_of (func_of func.now))) }
{
    put(out, b"expected")?;
    put_signature(out, func)?;
    put(out, b"\n")
}

/// Puts the line of the type of the function of a name.
pub(crate) fn put_expected_func(
    out: &mut Vec<u8>,
    firmware: &Firmware,
    name: &Name,
) -> Result<(), AllocError>
    ensures { OnOk result (out.new.items ≡ out.old.items ++ lines.expected_func (found.func_in (firmware_of firmware.now).files name.now)) }
{
    match func_named(firmware.files.as_slice(), name.as_slice()) {
        None => Ok(()),
        Some(func) => put_expected_signature(out, func),
    }
}

/// Puts the lines of the address of a function.
pub(crate) fn put_faddr(
    out: &mut Vec<u8>,
    site: &Site<'_>,
    to: &Name,
    of: &Name,
) -> Result<(), AllocError>
    ensures { OnOk result (out.new.items ≡ out.old.items ++ lines.faddr_lines (firmware_of site.now.firmware.now) (func_of site.now.func.now) to.now of.now) }
{
    put_register(out, site, to)?;
    put_expected_func(out, site.firmware, of)
}

/// Puts the line that a pointer to an element of a type was expected.
fn put_expected_element(out: &mut Vec<u8>, target: &Ty) -> Result<(), AllocError>
    ensures { OnOk result (out.new.items ≡ out.old.items ++ words.expected_type (Pointer (element_of (type_of target.now)))) }
{
    match target {
        Ty::Array(_, element) => put_expected_pointer(out, element),
        Ty::U8 | Ty::U16 | Ty::U32 | Ty::Ptr(_) | Ty::Named(_) | Ty::Callee(_) =>
            put_expected_pointer(out, target),
    }
}

/// Puts the lines of a base that is no pointer.
fn put_no_pointer(out: &mut Vec<u8>, site: &Site<'_>, base: &Name) -> Result<(), AllocError>
    ensures { OnOk result (out.new.items ≡ out.old.items ++ lines.no_pointer_lines (func_of site.now.func.now) base.now) }
{
    put_register(out, site, base)?;
    put_expected(out, b"a pointer")
}

/// Puts the lines of a pointer to an element, by the type of the base.
fn put_element(
    out: &mut Vec<u8>,
    site: &Site<'_>,
    to: &Name,
    base: &Name,
    ty: &Ty,
) -> Result<(), AllocError>
    ensures { OnOk result (out.new.items ≡ out.old.items ++ lines.element_lines (func_of site.now.func.now) to.now base.now (type_of ty.now)) }
{
    match ty {
        Ty::Ptr(target) => {
            put_register(out, site, to)?;
            put_expected_element(out, target)
        }
        Ty::U8 | Ty::U16 | Ty::U32 | Ty::Array(_, _) | Ty::Named(_) | Ty::Callee(_) =>
            put_no_pointer(out, site, base),
    }
}

/// Puts the lines of the address of an element.
pub(crate) fn put_elem(
    out: &mut Vec<u8>,
    site: &Site<'_>,
    to: &Name,
    base: &Name,
    index: &Name,
) -> Result<(), AllocError>
    ensures { OnOk result (out.new.items ≡ out.old.items ++ lines.elem_lines (func_of site.now.func.now) to.now base.now index.now) }
{
    if !is_number(site, index) {
        return put_number(out, site, index);
    }
    put_element(out, site, to, base, register_type(site, base))
}

/// Puts names, each behind an `or`.
fn put_or_more(out: &mut Vec<u8>, fields: &[Binding]) -> Result<(), AllocError>
    ensures { OnOk result (out.new.items ≡ out.old.items ++ lines.or_more (map binding_of fields.now)) }
{
    match fields {
        [] => Ok(()),
        [field, more @ ..] => {
            put(out, b" or ")?;
            put(out, field.name.as_slice())?;
            put_or_more(out, more)
        }
    }
}

/// Puts names with `or` between two.
fn put_any(out: &mut Vec<u8>, fields: &[Binding]) -> Result<(), AllocError>
    ensures { OnOk result (out.new.items ≡ out.old.items ++ lines.any_of (map binding_of fields.now)) }
{
    match fields {
        [] => Ok(()),
        [field, more @ ..] => {
            put(out, field.name.as_slice())?;
            put_or_more(out, more)
        }
    }
}

/// Puts the lines of a field that is not among these.
fn put_no_field(out: &mut Vec<u8>, field: &Name, fields: &[Binding]) -> Result<(), AllocError>
    ensures { OnOk result (out.new.items ≡ out.old.items ++ lines.no_field_lines field.now (map binding_of fields.now)) }
{
    put_found(out, field.as_slice())?;
    put(out, b"expected ")?;
    put_any(out, fields)?;
    put(out, b"\n")
}

/// Puts the lines of the address of a field of a struct with these fields.
fn put_struct_field(
    out: &mut Vec<u8>,
    site: &Site<'_>,
    to: &Name,
    field: &Name,
    fields: &[Binding],
) -> Result<(), AllocError>
    ensures { OnOk result (out.new.items ≡ out.old.items ++ lines.struct_field_lines (func_of site.now.func.now) to.now field.now (map binding_of fields.now)) }
{
    match binding_named(fields, field.as_slice()) {
        None => put_no_field(out, field, fields),
        Some(ty) => {
            put_register(out, site, to)?;
            put_expected_pointer(out, ty)
        }
    }
}

/// Puts the lines of the address of a field of the struct of a name.
fn put_field_of(
    out: &mut Vec<u8>,
    site: &Site<'_>,
    to: &Name,
    field: &Name,
    of: &Name,
) -> Result<(), AllocError>
    ensures { OnOk result (out.new.items ≡ out.old.items ++ lines.of_struct_lines (func_of site.now.func.now) to.now field.now (found.struct_named (firmware_of site.now.firmware.now).structs of.now)) }
{
    match struct_named(site.firmware.structs.as_slice(), of.as_slice()) {
        None => Ok(()),
        Some(decl) => put_struct_field(out, site, to, field, decl.fields.as_slice()),
    }
}

/// Puts the lines of a base that is no pointer to a struct.
fn put_no_struct(out: &mut Vec<u8>, site: &Site<'_>, base: &Name) -> Result<(), AllocError>
    ensures { OnOk result (out.new.items ≡ out.old.items ++ lines.no_struct_lines (func_of site.now.func.now) base.now) }
{
    put_register(out, site, base)?;
    put_expected(out, b"a pointer to a struct")
}

/// Puts the lines of the address of a field, by the type of the base.
pub(crate) fn put_field(
    out: &mut Vec<u8>,
    site: &Site<'_>,
    to: &Name,
    base: &Name,
    field: &Name,
    ty: &Ty,
) -> Result<(), AllocError>
    ensures { OnOk result (out.new.items ≡ out.old.items ++ lines.field_lines (firmware_of site.now.firmware.now) (func_of site.now.func.now) to.now base.now field.now (type_of ty.now)) }
{
    match ty {
        Ty::Ptr(target) => match &**target {
            Ty::Named(name) => put_field_of(out, site, to, field, name),
            Ty::U8 | Ty::U16 | Ty::U32 | Ty::Ptr(_) | Ty::Array(_, _) | Ty::Callee(_) =>
                put_no_struct(out, site, base),
        },
        Ty::U8 | Ty::U16 | Ty::U32 | Ty::Array(_, _) | Ty::Named(_) | Ty::Callee(_) =>
            put_no_struct(out, site, base),
    }
}

/// Puts the lines of a pointer to no cell that a register can hold.
fn put_no_cell(out: &mut Vec<u8>, site: &Site<'_>, pointer: &Name) -> Result<(), AllocError>
    ensures { OnOk result (out.new.items ≡ out.old.items ++ lines.no_cell_lines (func_of site.now.func.now) pointer.now) }
{
    put_register(out, site, pointer)?;
    put_expected(out, b"a pointer to a number, a pointer or a function")
}

/// Puts the lines of a register that had to be of a type.
fn put_other(out: &mut Vec<u8>, site: &Site<'_>, register: &Name, ty: &Ty) -> Result<(), AllocError>
    ensures { OnOk result (out.new.items ≡ out.old.items ++ (lines.found_register (func_of site.now.func.now) register.now ++ words.expected_type (type_of ty.now))) }
{
    put_register(out, site, register)?;
    put_expected_type(out, ty)
}

/// Puts the lines of a load or a store, by the type of the pointer.
fn put_cell(
    out: &mut Vec<u8>,
    site: &Site<'_>,
    pointer: &Name,
    register: &Name,
    ty: &Ty,
) -> Result<(), AllocError>
    ensures { OnOk result (out.new.items ≡ out.old.items ++ lines.cell_lines (func_of site.now.func.now) pointer.now register.now (type_of ty.now)) }
{
    match ty {
        Ty::Ptr(target) => {
            if is_integer(target) {
                return put_number(out, site, register);
            }
            if is_register_type(target) {
                return put_other(out, site, register, target);
            }
            put_no_cell(out, site, pointer)
        }
        Ty::U8 | Ty::U16 | Ty::U32 | Ty::Array(_, _) | Ty::Named(_) | Ty::Callee(_) => put_no_cell(
            out, site, pointer,
        ),
    }
}

/// Puts the lines of a load or a store.
pub(crate) fn put_access(
    out: &mut Vec<u8>,
    site: &Site<'_>,
    pointer: &Name,
    register: &Name,
) -> Result<(), AllocError>
    ensures { OnOk result (out.new.items ≡ out.old.items ++ lines.access_lines (func_of site.now.func.now) pointer.now register.now) }
{
    put_cell(out, site, pointer, register, register_type(site, pointer))
}
