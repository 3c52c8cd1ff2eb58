//! Files and the names of functions.

ghost use Rattle.std.specs.Prelude.{◌≡◌, ◌++◌, ◌∷◌, [], map, IfOk, OnOk};
ghost use Rattle.ir_model.specs.Plain.{PlainFunc, PlainGlobal, func_of, file_of, global_of};
ghost use Rattle.ir_model.specs.Typing.{func_name_checks, file_checks};
ghost use Rattle.ir_check_scopes.specs.Found.{Finds};
ghost use Rattle.ir_check_declarations.specs.DeclarationParts.{file_part};

use ir_check_scopes::new_names::add_new;
use ir_check_scopes::{CheckFault, CheckPlaceRef};
use ir_model::firmware::{FileDecl, Firmware, Func};
use ir_names::Names;
use ir_names::firmware_names::{add_globals, periph_names};
use std::alloc::{AllocError, Global};

fn func_names<'a>(seen: &mut Names<'a>, funcs: &'a [Func]) -> Result<(), CheckFault>
    ensures finds { Finds (func_name_checks seen.old (map func_of funcs.now)) result }
    ensures grows { OnOk result (seen.new ≡ seen.old ++ map (λ (f : PlainFunc). f.name) (map func_of funcs.now)) }
{
    for func in funcs {
        add_new(seen, &func.name, CheckPlaceRef::Func(&func.name))?;
    }
    Ok(())
}

#[tactic(auto, using(ir_check_scopes::proofs::Order::checks_behind_one))]
fn file<'a>(
    files: &mut Names<'a>,
    seen: &mut Names<'a>,
    file: &'a FileDecl,
) -> Result<(), CheckFault>
    ensures finds { Finds (file_part files.old seen.old (file_of file.now)) result }
    ensures files { OnOk result (files.new ≡ files.old ++ file.now.name ∷ []) }
    ensures funcs { OnOk result (seen.new ≡ seen.old ++ map (λ (f : PlainFunc). f.name) (map func_of file.now.funcs)) }
{
    add_new(files, &file.name, CheckPlaceRef::File(&file.name))?;
    func_names(seen, file.funcs.as_slice())?;
    Ok(())
}

fn each_file<'a>(
    names: &mut Names<'a>,
    seen: &mut Names<'a>,
    files: &'a [FileDecl],
) -> Result<(), CheckFault>
    ensures { Finds (file_checks names.old seen.old (map file_of files.now)) result }
{
    for declaration in files {
        file(names, seen, declaration)?;
    }
    Ok(())
}

fn new_files<'a>(
    alloc: Global,
    seen: &mut Names<'a>,
    files: &'a [FileDecl],
) -> Result<(), CheckFault>
    ensures { Finds (file_checks [] seen.old (map file_of files.now)) result }
{
    let mut names = Names::new(alloc);
    each_file(&mut names, seen, files)
}

fn taken_names(alloc: Global, firmware: &Firmware) -> Result<Names<'_>, AllocError>
    ensures { IfOk result (λ n. n ≡ map (λ p. p.name) firmware.now.periphs ++ map (λ (g : PlainGlobal). g.name) (map global_of firmware.now.globals)) }
{
    let mut seen = periph_names(alloc, firmware.periphs.as_slice())?;
    add_globals(&mut seen, firmware.globals.as_slice())?;
    Ok(seen)
}

/// Whether the names of files and functions are new.
pub fn files(alloc: Global, firmware: &Firmware) -> Result<(), CheckFault>
    ensures { Finds (file_checks [] (map (λ p. p.name) firmware.now.periphs ++ map (λ (g : PlainGlobal). g.name) (map global_of firmware.now.globals)) (map file_of firmware.now.files)) result }
{
    let mut seen = taken_names(alloc, firmware)?;
    new_files(alloc, &mut seen, firmware.files.as_slice())
}
