//! Types of the canonical text.

ghost use Rattle.std.specs.Prelude.{◌≡◌, ◌++◌, map, OnOk};
ghost use Rattle.ir_model.specs.Types.{type_of, types_from, boxed_result_of, result_of};
ghost use Rattle.ir_grammar.specs.Spelling.{spell_type, spell_row, spell_gives};
ghost use Rattle.ir_printer.specs.Pieces.{as_bytes};

use crate::tokens::{put_keyword, put_mark, put_number, put_separator, put_word};
use ir_model::token::{Keyword, Mark};
use ir_model::types::Ty;
use std::alloc::AllocError;

/// Writes a type behind another token.
#[cycle(types)]
pub fn put_type(out: &mut Vec<u8>, ty: &Ty) -> Result<(), AllocError>
    ensures { OnOk result (out.new.items ≡ out.old.items ++ spell_type as_bytes (type_of ty.now)) }
{
    match ty {
        Ty::U8 => put_keyword(out, Keyword::U8),
        Ty::U16 => put_keyword(out, Keyword::U16),
        Ty::U32 => put_keyword(out, Keyword::U32),
        Ty::Ptr(target) => {
            put_mark(out, Mark::Star)?;
            put_type(out, target)
        }
        Ty::Array(count, element) => {
            put_mark(out, Mark::OpenSquare)?;
            put_number(out, *count)?;
            put_mark(out, Mark::CloseSquare)?;
            put_type(out, element)
        }
        Ty::Named(name) => put_word(out, name),
        Ty::Callee(signature) => {
            put_keyword(out, Keyword::Fn)?;
            put_mark(out, Mark::Open)?;
            put_row(out, signature.params.as_slice())?;
            put_boxed_result(out, &signature.result)
        }
    }
}

// Types between brackets, with the closing one.
#[cycle(types)]
fn put_row(out: &mut Vec<u8>, types: &[Ty]) -> Result<(), AllocError>
    ensures { OnOk result (out.new.items ≡ out.old.items ++ spell_row as_bytes (types_from (map type_of types.now))) }
{
    for (i, ty) in types.iter().enumerate() {
        put_separator(out, i)?;
        put_type(out, ty)?;
    }
    put_mark(out, Mark::Close)
}

#[cycle(types)]
fn put_boxed_result(out: &mut Vec<u8>, outcome: &Option<Box<Ty>>) -> Result<(), AllocError>
    ensures { OnOk result (out.new.items ≡ out.old.items ++ spell_gives as_bytes (boxed_result_of outcome.now)) }
{
    match outcome {
        None => Ok(()),
        Some(ty) => {
            put_mark(out, Mark::Arrow)?;
            put_type(out, ty)
        }
    }
}

/// Writes the result of a function's head, where it has one.
pub fn put_result(out: &mut Vec<u8>, outcome: &Option<Ty>) -> Result<(), AllocError>
    ensures { OnOk result (out.new.items ≡ out.old.items ++ spell_gives as_bytes (result_of outcome.now)) }
{
    match outcome {
        None => Ok(()),
        Some(ty) => {
            put_mark(out, Mark::Arrow)?;
            put_type(out, ty)
        }
    }
}
