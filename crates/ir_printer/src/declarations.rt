//! Structs, peripherals and globals of the canonical text.

ghost use Rattle.std.specs.Prelude.{◌≡◌, ◌++◌, map, OnOk};
ghost use Rattle.ir_model.specs.Plain.{binding_of, struct_of, global_of};
ghost use Rattle.ir_grammar.specs.Spelling.{separated, spell_binding, spell_struct, spell_periph, spell_cell, spell_init, spell_constant, spell_global};
ghost use Rattle.ir_printer.specs.Pieces.{as_bytes};

use crate::tokens::{
    end_line, put_keyword, put_mark, put_number, put_separator, put_word, start_keyword,
};
use crate::types::put_type;
use ir_model::firmware::{Binding, Cell, Global as GlobalDecl, Peripheral, StructDecl};
use ir_model::token::{Keyword, Mark};
use std::alloc::AllocError;

/// Writes a name with its type.
pub fn put_binding(out: &mut Vec<u8>, binding: &Binding) -> Result<(), AllocError>
    ensures { OnOk result (out.new.items ≡ out.old.items ++ spell_binding as_bytes (binding_of binding.now)) }
{
    put_word(out, &binding.name)?;
    put_mark(out, Mark::Colon)?;
    put_type(out, &binding.ty)
}

/// Writes names with their types, a comma between two.
pub fn put_bindings(out: &mut Vec<u8>, bindings: &[Binding]) -> Result<(), AllocError>
    ensures { OnOk result (out.new.items ≡ out.old.items ++ separated as_bytes (spell_binding as_bytes) (map binding_of bindings.now)) }
{
    for (i, binding) in bindings.iter().enumerate() {
        put_separator(out, i)?;
        put_binding(out, binding)?;
    }
    Ok(())
}

/// Writes a struct.
pub fn put_struct(out: &mut Vec<u8>, decl: &StructDecl) -> Result<(), AllocError>
    ensures { OnOk result (out.new.items ≡ out.old.items ++ spell_struct as_bytes (struct_of decl.now)) }
{
    start_keyword(out, Keyword::Struct)?;
    put_word(out, &decl.name)?;
    put_mark(out, Mark::OpenBrace)?;
    put_bindings(out, decl.fields.as_slice())?;
    put_mark(out, Mark::CloseBrace)?;
    end_line(out)
}

/// Writes a peripheral.
pub fn put_periph(out: &mut Vec<u8>, periph: &Peripheral) -> Result<(), AllocError>
    ensures { OnOk result (out.new.items ≡ out.old.items ++ spell_periph as_bytes periph.now) }
{
    start_keyword(out, Keyword::Periph)?;
    put_word(out, &periph.name)?;
    put_number(out, periph.base)?;
    put_number(out, periph.size)?;
    end_line(out)
}

fn put_cell(out: &mut Vec<u8>, cell: &Cell) -> Result<(), AllocError>
    ensures { OnOk result (out.new.items ≡ out.old.items ++ spell_cell as_bytes cell.now) }
{
    match cell {
        Cell::Word(number) => put_number(out, *number),
        Cell::Function(name) => {
            put_keyword(out, Keyword::Fn)?;
            put_word(out, name)
        }
        Cell::Address(name) => {
            put_keyword(out, Keyword::Addr)?;
            put_word(out, name)
        }
    }
}

fn put_cells(out: &mut Vec<u8>, cells: &[Cell]) -> Result<(), AllocError>
    ensures { OnOk result (out.new.items ≡ out.old.items ++ separated as_bytes (spell_cell as_bytes) cells.now) }
{
    for (i, cell) in cells.iter().enumerate() {
        put_separator(out, i)?;
        put_cell(out, cell)?;
    }
    Ok(())
}

// The first cells of a global, where it has some, and the end of the line.
fn put_init(out: &mut Vec<u8>, cells: &[Cell]) -> Result<(), AllocError>
    ensures { OnOk result (out.new.items ≡ out.old.items ++ spell_init as_bytes cells.now) }
{
    if cells.is_empty() {
        return end_line(out);
    }
    put_mark(out, Mark::Equal)?;
    put_mark(out, Mark::OpenBrace)?;
    put_cells(out, cells)?;
    put_mark(out, Mark::CloseBrace)?;
    end_line(out)
}

fn start_global(out: &mut Vec<u8>, constant: bool) -> Result<(), AllocError>
    ensures { OnOk result (out.new.items ≡ out.old.items ++ spell_constant as_bytes constant) }
{
    if constant {
        start_keyword(out, Keyword::Const)?;
        put_keyword(out, Keyword::Global)
    } else {
        start_keyword(out, Keyword::Global)
    }
}

/// Writes a global.
pub fn put_global(out: &mut Vec<u8>, global: &GlobalDecl) -> Result<(), AllocError>
    ensures { OnOk result (out.new.items ≡ out.old.items ++ spell_global as_bytes (global_of global.now)) }
{
    start_global(out, global.constant)?;
    put_word(out, &global.name)?;
    put_mark(out, Mark::Colon)?;
    put_type(out, &global.ty)?;
    put_init(out, global.init.as_slice())
}
