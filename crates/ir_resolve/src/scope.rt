//! The names of a firmware and of a function.

ghost use Rattle.std.specs.Prelude.{◌≡◌, map, IfOk};
ghost use Rattle.ir_model.specs.Plain.{firmware_of, func_of, funcs_of};
ghost use Rattle.base_names.specs.Numbers.{number_of};
ghost use Rattle.ir_model.specs.Resolve as resolving;
ghost use Rattle.ir_model.specs.Typing.{IsTyped};
ghost use Rattle.ir_model.specs.FewItems.{HasFewLocals};
ghost use Rattle.ir_program.specs.Parts.{target_of};
ghost use Rattle.ir_program.specs.Storages.{pointee_of};
ghost use Rattle.ir_resolve.specs.Scopes.{scope_of, named_func, AreFuncNames, AreFew};

use crate::names::{FuncNames, Scope};
use crate::routines::register_types;
use base_names::Name;
use ir_layouts::fault::LayoutFault;
use ir_layouts::table::Layouts;
use ir_model::firmware::{Firmware, Func};
use ir_model::types::Ty;
use ir_names::firmware_names::{
    func_names, global_names, label_names, local_names, periph_names, register_names,
};
use ir_program::program::Target;
use std::alloc::{AllocError, Global};

fn struct_layouts(alloc: Global, firmware: &Firmware) -> Result<Layouts<'_>, AllocError>
    requires { IsTyped (firmware_of firmware.now) }
    ensures { IfOk result (λ l. l ≡ firmware.now.structs) }
{
    match Layouts::of(alloc, firmware.structs.as_slice()) {
        Ok(layouts) => Ok(layouts),
        Err(LayoutFault::NoMemory) => Err(AllocError),
        Err(LayoutFault::TooLarge) => unreachable!(),
    }
}

/// The names of a typed firmware that has these functions.
///
/// # Errors
///
/// There is no memory for them.
pub(crate) fn named_scope<'a>(
    alloc: Global,
    firmware: &'a Firmware,
    funcs: &[&'a Func],
) -> Result<Scope<'a>, AllocError>
    requires typed { IsTyped (firmware_of firmware.now) }
    requires funcs { map (λ f. func_of f.now) funcs.now ≡ funcs_of (firmware_of firmware.now) }
    ensures { IfOk result (λ s. scope_of s ≡ resolving.scope_of (firmware_of firmware.now)) }
{
    let globals = global_names(alloc, firmware.globals.as_slice())?;
    let periphs = periph_names(alloc, firmware.periphs.as_slice())?;
    let funcs = func_names(alloc, funcs)?;
    let layouts = struct_layouts(alloc, firmware)?;
    Ok(Scope {
        layouts,
        globals,
        periphs,
        funcs,
    })
}

/// The names of a function.
///
/// # Errors
///
/// There is no memory for them.
pub(crate) fn names_in_func(alloc: Global, source: &Func) -> Result<FuncNames<'_>, AllocError>
    requires { HasFewLocals source.now }
    ensures names { IfOk result AreFuncNames }
    ensures same { IfOk result (λ t. t.source.now ≡ source.now) }
{
    Ok(FuncNames {
        source,
        types: register_types(alloc, source)?,
        registers: register_names(alloc, source)?,
        locals: local_names(alloc, source)?,
        labels: label_names(alloc, source.blocks.as_slice())?,
    })
}

/// The number of the register of a name, the parameters first, or how many registers there are.
pub(crate) fn register_number(func: &FuncNames, name: &Name) -> usize
    requires { AreFuncNames func.now }
    ensures { result ≡ resolving.register_number (named_func func.now) name.now }
{
    func.registers.number_or_len(name)
}

/// The type of the register of a name, or `None` where no register has it, as for u32.
pub(crate) fn register_type<'a>(func: &FuncNames<'a>, name: &Name) -> Option<&'a Ty>
    requires { AreFuncNames func.now }
    ensures { pointee_of result ≡ resolving.type_named (named_func func.now) name.now }
{
    let number = register_number(func, name);
    let types = func.types.as_slice();
    if number < types.len() {
        Some(types[number])
    } else {
        None
    }
}

/// The number of the block of a label, or how many blocks there are.
pub(crate) fn label_number(func: &FuncNames, label: &Name) -> usize
    requires { AreFuncNames func.now }
    ensures { result ≡ number_of (resolving.labels_of (named_func func.now)) label.now }
{
    func.labels.number_or_len(label)
}

/// The number of the function of a name, or how many functions there are.
pub(crate) fn func_number(scope: &Scope, name: &Name) -> u16
    requires { AreFew scope.now }
    ensures { result ≡ number_of scope.now.funcs name.now }
{
    scope.funcs.number_or_len(name) as u16
}

/// What `addr` names in a function: a local first.
pub(crate) fn named_target(scope: &Scope, func: &FuncNames, name: &Name) -> Target
    requires few { AreFew scope.now }
    requires names { AreFuncNames func.now }
    ensures { target_of result ≡ resolving.named_by (scope_of scope.now) (named_func func.now) name.now }
{
    if let Some(number) = func.locals.number(name) {
        return Target::Local(number as u8);
    }
    if let Some(number) = scope.periphs.number(name) {
        return Target::Periph(number as u32);
    }
    Target::Global(scope.globals.number_or_len(name) as u32)
}

/// Where a field of a type lies; 0 where there is none.
pub(crate) fn field_offset(scope: &Scope, ty: Option<&Ty>, field: &Name) -> u32
    ensures { result ≡ resolving.field_offset (scope_of scope.now) (pointee_of ty.entry) field.now }
{
    match ty {
        None => 0,
        Some(inner) => match inner {
            Ty::Named(name) => match scope.layouts.field(name, field) {
                Some(place) => place.at,
                None => 0,
            },
            Ty::U8 | Ty::U16 | Ty::U32 | Ty::Ptr(_) | Ty::Array(_, _) | Ty::Callee(_) => 0,
        },
    }
}
