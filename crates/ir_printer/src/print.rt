//! The whole canonical text.

ghost use Rattle.std.specs.Prelude.{◌≡◌, ◌++◌, map, flat_map, IfOk, OnOk};
ghost use Rattle.ir_model.specs.Plain.{struct_of, global_of, func_of, file_of, firmware_of};
ghost use Rattle.ir_model.specs.Canonical.{canonical};
ghost use Rattle.ir_grammar.specs.Spelling.{spell_structs, spell_periphs, spell_globals, spell_func, spell_file, spell_firmware};
ghost use Rattle.ir_printer.specs.Pieces.{as_bytes};

use crate::declarations::{put_global, put_periph, put_struct};
use crate::functions::put_func;
use crate::tokens::{close, open, put_word, start_keyword};
use ir_model::firmware::{FileDecl, Firmware, Func, Global as GlobalDecl, Peripheral, StructDecl};
use ir_model::token::Keyword;
use std::alloc::{AllocError, Global};

fn put_structs(out: &mut Vec<u8>, structs: &[StructDecl]) -> Result<(), AllocError>
    ensures { OnOk result (out.new.items ≡ out.old.items ++ spell_structs as_bytes (map struct_of structs.now)) }
{
    for decl in structs {
        put_struct(out, decl)?;
    }
    Ok(())
}

fn put_periphs(out: &mut Vec<u8>, periphs: &[Peripheral]) -> Result<(), AllocError>
    ensures { OnOk result (out.new.items ≡ out.old.items ++ spell_periphs as_bytes periphs.now) }
{
    for periph in periphs {
        put_periph(out, periph)?;
    }
    Ok(())
}

fn put_globals(out: &mut Vec<u8>, globals: &[GlobalDecl]) -> Result<(), AllocError>
    ensures { OnOk result (out.new.items ≡ out.old.items ++ spell_globals as_bytes (map global_of globals.now)) }
{
    for global in globals {
        put_global(out, global)?;
    }
    Ok(())
}

fn put_funcs(out: &mut Vec<u8>, funcs: &[Func]) -> Result<(), AllocError>
    ensures { OnOk result (out.new.items ≡ out.old.items ++ flat_map (spell_func as_bytes) (map func_of funcs.now)) }
{
    for func in funcs {
        put_func(out, func)?;
    }
    Ok(())
}

fn put_file(out: &mut Vec<u8>, file: &FileDecl) -> Result<(), AllocError>
    ensures { OnOk result (out.new.items ≡ out.old.items ++ spell_file as_bytes (file_of file.now)) }
{
    start_keyword(out, Keyword::File)?;
    put_word(out, &file.name)?;
    open(out)?;
    put_funcs(out, file.funcs.as_slice())?;
    close(out)
}

fn put_files(out: &mut Vec<u8>, files: &[FileDecl]) -> Result<(), AllocError>
    ensures { OnOk result (out.new.items ≡ out.old.items ++ flat_map (spell_file as_bytes) (map file_of files.now)) }
{
    for file in files {
        put_file(out, file)?;
    }
    Ok(())
}

fn put_firmware(out: &mut Vec<u8>, firmware: &Firmware) -> Result<(), AllocError>
    ensures { OnOk result (out.new.items ≡ out.old.items ++ spell_firmware as_bytes (firmware_of firmware.now)) }
{
    put_structs(out, firmware.structs.as_slice())?;
    put_periphs(out, firmware.periphs.as_slice())?;
    put_globals(out, firmware.globals.as_slice())?;
    put_files(out, firmware.files.as_slice())
}

/// The canonical text of a firmware: its tokens in the order of the grammar with one space between two of them, numbers
/// in decimal, and a line feed in place of the space behind each declaration, each label and each instruction.
///
/// # Errors
/// There is no memory for the text.
#[tactic(auto, using(crate::proofs::Canonical::canonical_spelled))]
pub fn print(alloc: Global, f: &Firmware) -> Result<Vec<u8>, AllocError>
    ensures { IfOk result (λ bytes. bytes.items ≡ canonical (firmware_of f.now)) }
{
    let mut out = Vec::new(alloc);
    put_firmware(&mut out, f)?;
    Ok(out)
}
