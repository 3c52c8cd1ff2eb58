//! Functions of the canonical text.

ghost use Rattle.std.specs.Prelude.{◌≡◌, ◌++◌, map, flat_map, OnOk};
ghost use Rattle.ir_model.specs.declared.token.Keyword.TheVariants as key;
ghost use Rattle.ir_model.specs.Plain.{binding_of, func_of};
ghost use Rattle.ir_model.specs.Tokens as token;
ghost use Rattle.ir_model.specs.Types.{result_of};
ghost use Rattle.ir_grammar.specs.Spelling.{spell_inst, spell_block, spell_local, spell_locals, spell_reg, spell_regs, spell_params, spell_head, spell_func};
ghost use Rattle.ir_printer.specs.Pieces.{first, as_bytes};

use crate::declarations::{put_binding, put_bindings};
use crate::insts::{put_inst, put_term};
use crate::tokens::{close, end_line, open, put_mark, put_word, start_keyword, start_word};
use crate::types::put_result;
use ir_model::firmware::{Binding, Block, Func, Inst};
use ir_model::token::{Keyword, Mark};
use std::alloc::AllocError;

fn put_insts(out: &mut Vec<u8>, insts: &[Inst]) -> Result<(), AllocError>
    ensures { OnOk result (out.new.items ≡ out.old.items ++ flat_map (spell_inst as_bytes) insts.now) }
{
    for inst in insts {
        put_inst(out, inst)?;
    }
    Ok(())
}

fn put_block(out: &mut Vec<u8>, block: &Block) -> Result<(), AllocError>
    ensures { OnOk result (out.new.items ≡ out.old.items ++ spell_block as_bytes block.now) }
{
    start_word(out, &block.label)?;
    put_mark(out, Mark::Colon)?;
    end_line(out)?;
    put_insts(out, block.insts.as_slice())?;
    put_term(out, &block.term)
}

fn put_blocks(out: &mut Vec<u8>, blocks: &[Block]) -> Result<(), AllocError>
    ensures { OnOk result (out.new.items ≡ out.old.items ++ flat_map (spell_block as_bytes) blocks.now) }
{
    for block in blocks {
        put_block(out, block)?;
    }
    Ok(())
}

fn put_local(out: &mut Vec<u8>, local: &Binding) -> Result<(), AllocError>
    ensures { OnOk result (out.new.items ≡ out.old.items ++ spell_local as_bytes (binding_of local.now)) }
{
    start_keyword(out, Keyword::Local)?;
    put_binding(out, local)?;
    end_line(out)
}

fn put_locals(out: &mut Vec<u8>, locals: &[Binding]) -> Result<(), AllocError>
    ensures { OnOk result (out.new.items ≡ out.old.items ++ spell_locals as_bytes (map binding_of locals.now)) }
{
    for local in locals {
        put_local(out, local)?;
    }
    Ok(())
}

fn put_reg(out: &mut Vec<u8>, reg: &Binding) -> Result<(), AllocError>
    ensures { OnOk result (out.new.items ≡ out.old.items ++ spell_reg as_bytes (binding_of reg.now)) }
{
    start_keyword(out, Keyword::Reg)?;
    put_binding(out, reg)?;
    end_line(out)
}

fn put_regs(out: &mut Vec<u8>, regs: &[Binding]) -> Result<(), AllocError>
    ensures { OnOk result (out.new.items ≡ out.old.items ++ spell_regs as_bytes (map binding_of regs.now)) }
{
    for reg in regs {
        put_reg(out, reg)?;
    }
    Ok(())
}

// Parameters and the closing bracket.
fn put_params(out: &mut Vec<u8>, params: &[Binding]) -> Result<(), AllocError>
    ensures { OnOk result (out.new.items ≡ out.old.items ++ spell_params as_bytes (map binding_of params.now)) }
{
    put_bindings(out, params)?;
    put_mark(out, Mark::Close)
}

fn put_func_head(out: &mut Vec<u8>, func: &Func) -> Result<(), AllocError>
    ensures { OnOk result (out.new.items ≡ out.old.items ++ (first (token.Key key.Func) ++ spell_head as_bytes func.now.name (map binding_of func.now.params) (result_of func.now.«result»))) }
{
    start_keyword(out, Keyword::Func)?;
    put_word(out, &func.name)?;
    put_mark(out, Mark::Open)?;
    put_params(out, func.params.as_slice())?;
    put_result(out, &func.result)?;
    open(out)
}

/// Writes a function.
pub fn put_func(out: &mut Vec<u8>, func: &Func) -> Result<(), AllocError>
    ensures { OnOk result (out.new.items ≡ out.old.items ++ spell_func as_bytes (func_of func.now)) }
{
    put_func_head(out, func)?;
    put_locals(out, func.locals.as_slice())?;
    put_regs(out, func.regs.as_slice())?;
    put_blocks(out, func.blocks.as_slice())?;
    close(out)
}
