//! Functions with numbers.

ghost use Rattle.std.specs.Prelude.{◌≡◌, ◌≤◌, ◌++◌, length, map, replicate, IfOk, OnOk};
ghost use Rattle.ir_model.specs.Types.{type_of};
ghost use Rattle.ir_model.specs.Layout.{known, shape, Shape};
ghost use Rattle.ir_model.specs.Plain.{struct_of, binding_of, func_of, firmware_of, types_of, regs_of, funcs_of};
ghost use Rattle.ir_model.specs.TextLimits.{file_limit};
ghost use Rattle.ir_model.specs.Resolve as resolving;
ghost use Rattle.ir_program.specs.Parts.{routine_of, local_counts, cell_counts};
ghost use Rattle.ir_program.specs.Storages.{shape_of};
ghost use Rattle.ir_resolve.specs.Scopes.{scope_of, AreFew, AreSmallBindings, IsSmallFunc, AreSmallFuncs};
ghost use Rattle.ir_program.specs.declared.program.Storage.{Storage};

use crate::names::Scope;
use crate::operations::sequences;
use crate::scope::names_in_func;
use crate::storage::storage;
use base_lists::ListVec;
use ir_layouts::table::Layouts;
use ir_model::firmware::{Binding, Firmware, Func};
use ir_model::types::Ty;
use ir_program::program::{Routine, Storage};
use std::alloc::{AllocError, Global};

fn push_types<'a>(types: &mut Vec<&'a Ty>, bindings: &'a [Binding]) -> Result<(), AllocError>
    ensures { OnOk result (map (λ t. type_of t.now) types.new.items ≡ map (λ t. type_of t.now) types.old.items ++ types_of (map binding_of bindings.now)) }
{
    for i in 0..bindings.len() {
        types.push(&bindings[i].ty)?;
    }
    Ok(())
}

/// The types of a function's registers, the parameters first.
pub(crate) fn register_types(alloc: Global, func: &Func) -> Result<ListVec<&Ty>, AllocError>
    ensures { IfOk result (λ ts. map (λ t. type_of t.now) ts ≡ types_of (regs_of (func_of func.now))) }
{
    let mut types = Vec::new(alloc);
    push_types(&mut types, func.params.as_slice())?;
    push_types(&mut types, func.regs.as_slice())?;
    Ok(ListVec::new(types))
}

fn locals<'a>(
    alloc: Global,
    layouts: &Layouts<'a>,
    bindings: &'a [Binding],
) -> Result<ListVec<Storage<'a>>, AllocError>
    requires { AreSmallBindings (known (map struct_of layouts.now)) bindings.now }
    ensures shapes { IfOk result (λ ls. map (shape_of (known (map struct_of layouts.now))) ls ≡ map (λ l. shape (known (map struct_of layouts.now)) l.ty) (map binding_of bindings.now)) }
    ensures cells { IfOk result (λ ls. map (λ (s : Storage). s.cells) ls ≡ map (λ (s : Shape). length s.cells) (map (λ l. shape (known (map struct_of layouts.now)) l.ty) (map binding_of bindings.now))) }
{
    let mut locals = Vec::new(alloc);
    for binding in bindings {
        locals.push(storage(layouts, &binding.ty))?;
    }
    Ok(ListVec::new(locals))
}

fn routine<'a>(
    alloc: Global,
    scope: &Scope<'a>,
    source: &'a Func,
) -> Result<Routine<'a>, AllocError>
    requires few { AreFew scope.now }
    requires small { IsSmallFunc (known (map struct_of scope.now.layouts)) source.now }
    ensures exact { IfOk result (λ r. routine_of (known (map struct_of scope.now.layouts)) r ≡ resolving.resolved_func (scope_of scope.now) (func_of source.now)) }
    ensures cells { IfOk result (λ r. local_counts r ≡ cell_counts (resolving.resolved_func (scope_of scope.now) (func_of source.now))) }
{
    let locals = locals(alloc, &scope.layouts, source.locals.as_slice())?;
    let func = names_in_func(alloc, source)?;
    let blocks = sequences(alloc, scope, &func)?;
    Ok(Routine {
        source,
        registers: func.into_types(),
        locals,
        blocks,
    })
}

/// Functions with numbers for their names.
pub(crate) fn routines<'a>(
    alloc: Global,
    scope: &Scope<'a>,
    funcs: &[&'a Func],
) -> Result<ListVec<Routine<'a>>, AllocError>
    requires few { AreFew scope.now }
    requires small { AreSmallFuncs (known (map struct_of scope.now.layouts)) funcs.now }
    ensures exact { IfOk result (λ rs. map (routine_of (known (map struct_of scope.now.layouts))) rs ≡ map (resolving.resolved_func (scope_of scope.now)) (map (λ f. func_of f.now) funcs.now)) }
    ensures cells { IfOk result (λ rs. map local_counts rs ≡ map cell_counts (map (resolving.resolved_func (scope_of scope.now)) (map (λ f. func_of f.now) funcs.now))) }
{
    let mut routines = Vec::new(alloc);
    for i in 0..funcs.len() {
        let next = routine(alloc, scope, funcs[i])?;
        routines.push(next)?;
    }
    Ok(ListVec::new(routines))
}

fn push_funcs<'a>(funcs: &mut Vec<&'a Func>, more: &'a [Func]) -> Result<(), AllocError>
    ensures { OnOk result (map (λ f. func_of f.now) funcs.new.items ≡ map (λ f. func_of f.now) funcs.old.items ++ map func_of more.now) }
{
    for func in more {
        funcs.push(func)?;
    }
    Ok(())
}

/// The functions of all files in order.
pub(crate) fn all_funcs(alloc: Global, firmware: &Firmware) -> Result<Vec<&Func>, AllocError>
    ensures { IfOk result (λ fs. map (λ f. func_of f.now) fs.items ≡ funcs_of (firmware_of firmware.now)) }
{
    let files = firmware.files.as_slice();
    let mut funcs = Vec::new(alloc);
    for file in files {
        push_funcs(&mut funcs, file.funcs.as_slice())?;
    }
    Ok(funcs)
}

fn push_times(numbers: &mut Vec<u32>, number: u32, times: usize) -> Result<(), AllocError>
    ensures { OnOk result (numbers.new.items ≡ numbers.old.items ++ replicate times number) }
{
    for _time in 0..times {
        numbers.push(number)?;
    }
    Ok(())
}

/// The number of the file of each function.
///
/// # Errors
///
/// There is no memory for them.
pub(crate) fn file_numbers(alloc: Global, firmware: &Firmware) -> Result<ListVec<u32>, AllocError>
    requires { length firmware.now.files ≤ file_limit }
    ensures { IfOk result (λ ns. ns ≡ resolving.files_from 0 (firmware_of firmware.now).files) }
{
    let files = firmware.files.as_slice();
    let mut numbers = Vec::new(alloc);
    for i in 0..files.len() {
        push_times(&mut numbers, i as u32, files[i].funcs.len())?;
    }
    Ok(ListVec::new(numbers))
}
