//! The tables of a firmware.

ghost use Rattle.std.specs.Prelude.{◌≡◌, ◌++◌, map, flat_map, OnOk, IfOk};
ghost use Rattle.ir_model.specs.Plain.{PlainFunc, PlainGlobal, PlainStruct, struct_of, firmware_of, funcs_of};
ghost use Rattle.ir_check_scopes.specs.Scopes.{lent, declared_funcs};

use ir_check_scopes::Scope;
use ir_layouts::table::Layouts;
use ir_model::firmware::{FileDecl, Firmware, Func};
use ir_names::Names;
use ir_names::firmware_names::{func_names, global_names};
use std::alloc::{AllocError, Global};

fn put_funcs<'a>(bodies: &mut Vec<&'a Func>, funcs: &'a [Func]) -> Result<(), AllocError>
    ensures { OnOk result (lent bodies.new.items ≡ lent bodies.old.items ++ funcs.now) }
{
    for func in funcs {
        bodies.push(func)?;
    }
    Ok(())
}

fn all_funcs(alloc: Global, files: &[FileDecl]) -> Result<Vec<&Func>, AllocError>
    ensures { IfOk result (λ v. lent v.items ≡ flat_map (λ f. f.funcs) files.now) }
{
    let mut bodies = Vec::new(alloc);
    for file in files {
        put_funcs(&mut bodies, file.funcs.as_slice())?;
    }
    Ok(bodies)
}

/// The names of globals and functions, and the functions themselves.
struct Below<'a> {
    globals: Names<'a>,
    funcs: Names<'a>,
    bodies: Vec<&'a Func>,
}

fn names_below(alloc: Global, firmware: &Firmware) -> Result<Below<'_>, AllocError>
    ensures globals { IfOk result (λ b. b.globals ≡ map (λ (g : PlainGlobal). g.name) (firmware_of firmware.now).globals) }
    ensures bodies { IfOk result (λ b. lent b.bodies.items ≡ declared_funcs firmware.now) }
    ensures funcs { IfOk result (λ b. b.funcs ≡ map (λ (f : PlainFunc). f.name) (funcs_of (firmware_of firmware.now))) }
{
    let bodies = all_funcs(alloc, firmware.files.as_slice())?;
    let funcs = func_names(alloc, bodies.as_slice())?;
    let globals = global_names(alloc, firmware.globals.as_slice())?;
    Ok(Below {
        globals,
        funcs,
        bodies,
    })
}

/// The tables of a firmware whose structs have these layouts.
pub fn scope<'a>(
    alloc: Global,
    firmware: &'a Firmware,
    structs: Names<'a>,
    layouts: Layouts<'a>,
    periphs: Names<'a>,
) -> Result<Scope<'a>, AllocError>
    requires structs { structs ≡ map (λ (s : PlainStruct). s.name) (map struct_of firmware.now.structs) }
    requires layouts { layouts ≡ firmware.now.structs }
    requires periphs { periphs ≡ map (λ p. p.name) firmware.now.periphs }
    ensures { IfOk result (λ s. s.firmware.now ≡ firmware.now) }
{
    let Below {
        globals,
        funcs,
        bodies,
    } = names_below(alloc, firmware)?;
    Ok(Scope {
        firmware,
        structs,
        layouts,
        periphs,
        globals,
        funcs,
        bodies,
    })
}
