//! The names of the parts of a firmware, in order.

ghost use Rattle.std.specs.Prelude.{◌≡◌, ◌++◌, map, OnOk, IfOk};
ghost use Rattle.ir_model.specs.Plain.{PlainStruct, PlainGlobal, binding_of, struct_of, global_of, func_of, names_of, regs_of};

use crate::table::Names;
use ir_model::firmware::{Binding, Block, Func, Global as GlobalDecl, Peripheral, StructDecl};
use std::alloc::{AllocError, Global};

/// The names of structs.
pub fn struct_names(alloc: Global, structs: &[StructDecl]) -> Result<Names<'_>, AllocError>
    ensures { IfOk result (λ n. n ≡ map (λ (s : PlainStruct). s.name) (map struct_of structs.now)) }
{
    let mut names = Names::new(alloc);
    for declared in structs {
        names.push(&declared.name)?;
    }
    Ok(names)
}

/// The names of peripherals.
pub fn periph_names(alloc: Global, periphs: &[Peripheral]) -> Result<Names<'_>, AllocError>
    ensures { IfOk result (λ n. n ≡ map (λ p. p.name) periphs.now) }
{
    let mut names = Names::new(alloc);
    for periph in periphs {
        names.push(&periph.name)?;
    }
    Ok(names)
}

/// The names of globals.
pub fn global_names(alloc: Global, globals: &[GlobalDecl]) -> Result<Names<'_>, AllocError>
    ensures { IfOk result (λ n. n ≡ map (λ (g : PlainGlobal). g.name) (map global_of globals.now)) }
{
    let mut names = Names::new(alloc);
    for global in globals {
        names.push(&global.name)?;
    }
    Ok(names)
}

/// The names of functions that are lent.
pub fn func_names<'a>(alloc: Global, funcs: &[&'a Func]) -> Result<Names<'a>, AllocError>
    ensures { IfOk result (λ n. n ≡ map (λ f. (func_of f.now).name) funcs.now) }
{
    let mut names = Names::new(alloc);
    for func in funcs {
        names.push(&func.name)?;
    }
    Ok(names)
}

/// The labels of blocks.
pub fn label_names(alloc: Global, blocks: &[Block]) -> Result<Names<'_>, AllocError>
    ensures { IfOk result (λ n. n ≡ map (λ b. b.label) blocks.now) }
{
    let mut names = Names::new(alloc);
    for block in blocks {
        names.push(&block.label)?;
    }
    Ok(names)
}

/// Puts the names of globals behind others.
pub fn add_globals<'a>(names: &mut Names<'a>, globals: &'a [GlobalDecl]) -> Result<(), AllocError>
    ensures { OnOk result (names.new ≡ names.old ++ map (λ (g : PlainGlobal). g.name) (map global_of globals.now)) }
{
    for global in globals {
        names.push(&global.name)?;
    }
    Ok(())
}

/// Puts the names of bindings behind others.
pub fn add_bindings<'a>(names: &mut Names<'a>, bindings: &'a [Binding]) -> Result<(), AllocError>
    ensures { OnOk result (names.new ≡ names.old ++ names_of (map binding_of bindings.now)) }
{
    for binding in bindings {
        names.push(&binding.name)?;
    }
    Ok(())
}

/// The names of a function's registers, the parameters first.
///
/// # Errors
///
/// There is no memory for them.
pub fn register_names(alloc: Global, func: &Func) -> Result<Names<'_>, AllocError>
    ensures { IfOk result (λ n. n ≡ names_of (regs_of (func_of func.now))) }
{
    let mut names = Names::new(alloc);
    add_bindings(&mut names, func.params.as_slice())?;
    add_bindings(&mut names, func.regs.as_slice())?;
    Ok(names)
}

/// The names of a function's locals.
///
/// # Errors
///
/// There is no memory for them.
pub fn local_names(alloc: Global, func: &Func) -> Result<Names<'_>, AllocError>
    ensures { IfOk result (λ n. n ≡ names_of (func_of func.now).locals) }
{
    let mut names = Names::new(alloc);
    add_bindings(&mut names, func.locals.as_slice())?;
    Ok(names)
}
