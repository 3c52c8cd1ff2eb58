//! Instructions and the ends of blocks.

ghost use Rattle.std.specs.Prelude.{◌≡◌, ◌++◌, OnOk};
ghost use Rattle.ir_model.specs.declared.token.Mark.TheVariants as mark;
ghost use Rattle.ir_model.specs.Tokens as token;
ghost use Rattle.ir_grammar.specs.Spelling.{separated, spell_word, spell_one, spell_two, spell_called, spell_assigned, spell_kept, spell_inst, spell_term};
ghost use Rattle.ir_printer.specs.Pieces.{first, next, as_bytes};

use crate::tokens::{
    end_line, put_comparison, put_keyword, put_mark, put_number, put_operation, put_separator,
    put_word, start_keyword, start_word,
};
use base_names::Name;
use ir_model::firmware::{Inst, Term};
use ir_model::token::{Keyword, Mark};
use std::alloc::AllocError;

fn start_assignment(out: &mut Vec<u8>, to: &Name) -> Result<(), AllocError>
    ensures { OnOk result (out.new.items ≡ out.old.items ++ (first (token.Name to.now) ++ next (token.Sign mark.Equal))) }
{
    start_word(out, to)?;
    put_mark(out, Mark::Equal)
}

// A name, and the end of the line.
fn put_one(out: &mut Vec<u8>, name: &Name) -> Result<(), AllocError>
    ensures { OnOk result (out.new.items ≡ out.old.items ++ spell_one as_bytes name.now) }
{
    put_word(out, name)?;
    end_line(out)
}

// Two names with a comma between them, and the end of the line.
fn put_two(out: &mut Vec<u8>, a: &Name, b: &Name) -> Result<(), AllocError>
    ensures { OnOk result (out.new.items ≡ out.old.items ++ spell_two as_bytes a.now b.now) }
{
    put_word(out, a)?;
    put_mark(out, Mark::Comma)?;
    put_one(out, b)
}

fn put_registers(out: &mut Vec<u8>, registers: &[Name]) -> Result<(), AllocError>
    ensures { OnOk result (out.new.items ≡ out.old.items ++ separated as_bytes (spell_word as_bytes) registers.now) }
{
    for (i, register) in registers.iter().enumerate() {
        put_separator(out, i)?;
        put_word(out, register)?;
    }
    Ok(())
}

// What is called, its arguments, and the end of the line.
fn put_called(out: &mut Vec<u8>, func: &Name, args: &[Name]) -> Result<(), AllocError>
    ensures { OnOk result (out.new.items ≡ out.old.items ++ spell_called as_bytes func.now args.now) }
{
    put_word(out, func)?;
    put_mark(out, Mark::Open)?;
    put_registers(out, args)?;
    put_mark(out, Mark::Close)?;
    end_line(out)
}

/// Writes the line of an instruction.
pub fn put_inst(out: &mut Vec<u8>, inst: &Inst) -> Result<(), AllocError>
    ensures { OnOk result (out.new.items ≡ out.old.items ++ spell_inst as_bytes inst.now) }
{
    match inst {
        Inst::Const { to, value } => {
            start_assignment(out, to)?;
            put_number(out, *value)?;
            end_line(out)
        }
        Inst::Move { to, from } => {
            start_assignment(out, to)?;
            put_one(out, from)
        }
        Inst::Bin { op, to, a, b } => {
            start_assignment(out, to)?;
            put_operation(out, *op)?;
            put_two(out, a, b)
        }
        Inst::Cmp { op, to, a, b } => {
            start_assignment(out, to)?;
            put_comparison(out, *op)?;
            put_two(out, a, b)
        }
        Inst::Addr { to, of } => put_read(out, to, Keyword::Addr, of),
        Inst::FAddr { to, of } => put_read(out, to, Keyword::Faddr, of),
        Inst::Elem { to, base, index } => put_place(out, to, Keyword::Elem, base, index),
        Inst::Field { to, base, field } => put_place(out, to, Keyword::Field, base, field),
        Inst::Load { to, from } => put_read(out, to, Keyword::Load, from),
        Inst::Store { to, from } => {
            start_keyword(out, Keyword::Store)?;
            put_two(out, to, from)
        }
        Inst::Call { to, func, args } => put_call(out, to, Keyword::Call, func, args.as_slice()),
        Inst::ICall { to, func, args } => put_call(out, to, Keyword::Icall, func, args.as_slice()),
    }
}

fn put_read(out: &mut Vec<u8>, to: &Name, keyword: Keyword, of: &Name) -> Result<(), AllocError>
    ensures { OnOk result (out.new.items ≡ out.old.items ++ spell_assigned as_bytes to.now (next (token.Key keyword) ++ spell_one as_bytes of.now)) }
{
    start_assignment(out, to)?;
    put_keyword(out, keyword)?;
    put_one(out, of)
}

fn put_place(
    out: &mut Vec<u8>,
    to: &Name,
    keyword: Keyword,
    base: &Name,
    part: &Name,
) -> Result<(), AllocError>
    ensures { OnOk result (out.new.items ≡ out.old.items ++ spell_assigned as_bytes to.now (next (token.Key keyword) ++ spell_two as_bytes base.now part.now)) }
{
    start_assignment(out, to)?;
    put_keyword(out, keyword)?;
    put_two(out, base, part)
}

// A call, which may keep its result.
fn put_call(
    out: &mut Vec<u8>,
    to: &Option<Name>,
    keyword: Keyword,
    func: &Name,
    args: &[Name],
) -> Result<(), AllocError>
    ensures { OnOk result (out.new.items ≡ out.old.items ++ spell_kept as_bytes to.now (token.Key keyword) (spell_called as_bytes func.now args.now)) }
{
    match to {
        None => {
            start_keyword(out, keyword)?;
            put_called(out, func, args)
        }
        Some(to) => {
            start_assignment(out, to)?;
            put_keyword(out, keyword)?;
            put_called(out, func, args)
        }
    }
}

/// Writes the line at the end of a block.
pub fn put_term(out: &mut Vec<u8>, term: &Term) -> Result<(), AllocError>
    ensures { OnOk result (out.new.items ≡ out.old.items ++ spell_term as_bytes term.now) }
{
    match term {
        Term::Jump(label) => {
            start_keyword(out, Keyword::Jump)?;
            put_one(out, label)
        }
        Term::Branch { on, yes, no } => {
            start_keyword(out, Keyword::Branch)?;
            put_word(out, on)?;
            put_word(out, yes)?;
            put_one(out, no)
        }
        Term::Ret(None) => {
            start_keyword(out, Keyword::Ret)?;
            end_line(out)
        }
        Term::Ret(Some(value)) => {
            start_keyword(out, Keyword::Ret)?;
            put_one(out, value)
        }
    }
}
