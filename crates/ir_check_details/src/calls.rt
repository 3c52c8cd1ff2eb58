//! The lines of calls, of instructions and of the ends of blocks.

ghost use Rattle.std.specs.Prelude.{◌≡◌, ◌++◌, map, OnOk};
ghost use Rattle.ir_model.specs.Types.{type_of, types_from};
ghost use Rattle.ir_model.specs.Plain.{func_of, firmware_of};
ghost use Rattle.ir_model.specs.Resolve.{type_named};
ghost use Rattle.ir_model.specs.Rules.{returned_type};
ghost use Rattle.ir_grammar.specs.Spelling.{spell_row, spell_more_row, spell_gives};
ghost use Rattle.ir_printer.specs.Pieces.{as_bytes};
ghost use Rattle.ir_check_details.specs.Words as words;
ghost use Rattle.ir_check_details.specs.Calls as lines;

use crate::instructions::{
    put_access, put_addr, put_elem, put_expected_func, put_faddr, put_field, put_move, put_number,
    put_numbers, put_register,
};
use crate::lookup::{Site, register_type};
use crate::wording::{put, put_expected, put_expected_result, put_expected_type, put_found};
use base_names::Name;
use ir_model::firmware::{Inst, Term};
use ir_model::token::{Keyword, Mark};
use ir_model::types::Ty;
use ir_printer::tokens::{put_keyword, put_mark};
use ir_printer::types::put_type;
use std::alloc::AllocError;

/// Puts the types of arguments behind the first, and the closing bracket.
fn put_more_args(out: &mut Vec<u8>, site: &Site<'_>, args: &[Name]) -> Result<(), AllocError>
    ensures { OnOk result (out.new.items ≡ out.old.items ++ spell_more_row as_bytes (types_from (map (type_named (func_of site.now.func.now)) args.now))) }
{
    match args {
        [] => put_mark(out, Mark::Close),
        [arg, more @ ..] => {
            put_mark(out, Mark::Comma)?;
            put_type(out, register_type(site, arg))?;
            put_more_args(out, site, more)
        }
    }
}

/// Puts the types of arguments, and the closing bracket.
fn put_args(out: &mut Vec<u8>, site: &Site<'_>, args: &[Name]) -> Result<(), AllocError>
    ensures { OnOk result (out.new.items ≡ out.old.items ++ spell_row as_bytes (types_from (map (type_named (func_of site.now.func.now)) args.now))) }
{
    match args {
        [] => put_mark(out, Mark::Close),
        [arg, more @ ..] => {
            put_type(out, register_type(site, arg))?;
            put_more_args(out, site, more)
        }
    }
}

/// Puts the type of the result that a call keeps, if it keeps one.
fn put_kept(out: &mut Vec<u8>, site: &Site<'_>, to: &Option<Name>) -> Result<(), AllocError>
    ensures { OnOk result (out.new.items ≡ out.old.items ++ spell_gives as_bytes (returned_type (func_of site.now.func.now) to.now)) }
{
    match to {
        None => Ok(()),
        Some(register) => {
            put_mark(out, Mark::Arrow)?;
            put_type(out, register_type(site, register))
        }
    }
}

/// Puts the type of what is called, by the arguments and the result that is kept.
fn put_called_type(
    out: &mut Vec<u8>,
    site: &Site<'_>,
    to: &Option<Name>,
    args: &[Name],
) -> Result<(), AllocError>
    ensures { OnOk result (out.new.items ≡ out.old.items ++ words.type_text (lines.called_type (func_of site.now.func.now) to.now args.now)) }
{
    put_keyword(out, Keyword::Fn)?;
    put_mark(out, Mark::Open)?;
    put_args(out, site, args)?;
    put_kept(out, site, to)
}

/// Puts the line of the type of what is called.
fn put_called(
    out: &mut Vec<u8>,
    site: &Site<'_>,
    to: &Option<Name>,
    args: &[Name],
) -> Result<(), AllocError>
    ensures { OnOk result (out.new.items ≡ out.old.items ++ words.found_type (lines.called_type (func_of site.now.func.now) to.now args.now)) }
{
    put(out, b"found")?;
    put_called_type(out, site, to, args)?;
    put(out, b"\n")
}

/// Puts the lines of a call of a function.
fn put_call(
    out: &mut Vec<u8>,
    site: &Site<'_>,
    to: &Option<Name>,
    func: &Name,
    args: &[Name],
) -> Result<(), AllocError>
    ensures { OnOk result (out.new.items ≡ out.old.items ++ lines.call_lines (firmware_of site.now.firmware.now) (func_of site.now.func.now) to.now func.now args.now) }
{
    put_called(out, site, to, args)?;
    put_expected_func(out, site.firmware, func)
}

/// Puts the lines of a register that is no function.
fn put_no_function(out: &mut Vec<u8>, site: &Site<'_>, func: &Name) -> Result<(), AllocError>
    ensures { OnOk result (out.new.items ≡ out.old.items ++ lines.no_function_lines (func_of site.now.func.now) func.now) }
{
    put_register(out, site, func)?;
    put_expected(out, b"a function")
}

/// Puts the lines of a call of what a register holds, by the register's type.
fn put_icall(
    out: &mut Vec<u8>,
    site: &Site<'_>,
    to: &Option<Name>,
    func: &Name,
    args: &[Name],
    ty: &Ty,
) -> Result<(), AllocError>
    ensures { OnOk result (out.new.items ≡ out.old.items ++ lines.icall_lines (func_of site.now.func.now) to.now func.now args.now (type_of ty.now)) }
{
    match ty {
        Ty::Callee(_) => {
            put_called(out, site, to, args)?;
            put_expected_type(out, ty)
        }
        Ty::U8 | Ty::U16 | Ty::U32 | Ty::Ptr(_) | Ty::Array(_, _) | Ty::Named(_) => put_no_function(
            out, site, func,
        ),
    }
}

/// Puts the line of what is returned.
fn put_returned(out: &mut Vec<u8>, site: &Site<'_>, value: &Option<Name>) -> Result<(), AllocError>
    ensures { OnOk result (out.new.items ≡ out.old.items ++ lines.found_returned (func_of site.now.func.now) value.now) }
{
    match value {
        None => put_found(out, b"nothing"),
        Some(register) => put_register(out, site, register),
    }
}

/// Puts the lines of an instruction.
pub(crate) fn put_inst(out: &mut Vec<u8>, site: &Site<'_>, inst: &Inst) -> Result<(), AllocError>
    ensures { OnOk result (out.new.items ≡ out.old.items ++ lines.inst_lines (firmware_of site.now.firmware.now) (func_of site.now.func.now) inst.now) }
{
    match inst {
        Inst::Const { to, .. } => put_number(out, site, to),
        Inst::Move { to, from } => put_move(out, site, to, from),
        Inst::Bin { to, a, b, .. } => put_numbers(out, site, to, a, b),
        Inst::Cmp { to, a, b, .. } => put_numbers(out, site, to, a, b),
        Inst::Addr { to, of } => put_addr(out, site, to, of),
        Inst::FAddr { to, of } => put_faddr(out, site, to, of),
        Inst::Elem { to, base, index } => put_elem(out, site, to, base, index),
        Inst::Field { to, base, field } => put_field(
            out,
            site,
            to,
            base,
            field,
            register_type(site, base),
        ),
        Inst::Load { to, from } => put_access(out, site, from, to),
        Inst::Store { to, from } => put_access(out, site, to, from),
        Inst::Call { to, func, args } => put_call(out, site, to, func, args.as_slice()),
        Inst::ICall { to, func, args } => put_icall(
            out,
            site,
            to,
            func,
            args.as_slice(),
            register_type(site, func),
        ),
    }
}

/// Puts the lines of a return.
fn put_ret(out: &mut Vec<u8>, site: &Site<'_>, value: &Option<Name>) -> Result<(), AllocError>
    ensures { OnOk result (out.new.items ≡ out.old.items ++ lines.ret_lines (func_of site.now.func.now) value.now) }
{
    put_returned(out, site, value)?;
    put_expected_result(out, &site.func.result)
}

/// Puts the lines of a block's end.
pub(crate) fn put_term(out: &mut Vec<u8>, site: &Site<'_>, term: &Term) -> Result<(), AllocError>
    ensures { OnOk result (out.new.items ≡ out.old.items ++ lines.term_lines (func_of site.now.func.now) term.now) }
{
    match term {
        Term::Jump(_) => Ok(()),
        Term::Branch { on, .. } => put_number(out, site, on),
        Term::Ret(value) => put_ret(out, site, value),
    }
}
