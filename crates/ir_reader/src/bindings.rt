//! Names with types, and lists with commas.

ghost use Rattle.std.specs.Prelude.{◌≡◌, ◌<◌, ◌≤◌, [], ◌∷◌, map, length, OnOk, IfOk, None};
ghost use Rattle.ir_model.specs.Types.{result_of};
ghost use Rattle.ir_model.specs.Plain.{binding_of};
ghost use Rattle.ir_model.specs.TextLimits.{parameter_limit};
ghost use Rattle.ir_model.specs.declared.token.Mark.TheVariants as mark;
ghost use Rattle.ir_reader.specs.Machine as Expected;
ghost use Rattle.ir_reader.specs.Reading.{Reads, ReadsTo};
ghost use Rattle.ir_reader.specs.Scan.{placed};
ghost use Rattle.ir_grammar.specs.Spelling as grammar;
ghost use Rattle.ir_reader.specs.Spelling.{as_found};

use crate::error::ReadError;
use crate::limits::count_excess;
use crate::terminals::{behind_mark, mark, name, name_behind};
use crate::types::ty;
use base_names::Name;
use ir_model::firmware::Binding;
use ir_model::text_limits::{FIELD_LIMIT, PARAMETER_LIMIT};
use ir_model::token::{Excess, Mark, TextLimit};
use ir_model::types::Ty;
use std::alloc::Global;

/// A name with its type, whose first token may pass something else first, and the text behind it.
pub fn binding(
    alloc: Global,
    first: Option<Excess>,
    text: &[u8],
) -> Result<(Binding, &[u8]), ReadError>
    ensures first { OnOk result (first ≡ None) }
    ensures read { Reads (λ x. binding_of x.0) (grammar.spell_binding as_found) (Expected.Word first ∷ Expected.Mk mark.Colon ∷ Expected.Ty None 0 ∷ []) [] (placed text.now) (λ x. placed x.1.now) result }
{
    let (name, rest) = name_behind(alloc, first, text)?;
    let rest = mark(Mark::Colon, rest)?;
    let (ty, rest) = ty(alloc, None, 0, rest)?;
    Ok((Binding { name, ty }, rest))
}

/// The fields of a struct and the closing brace, and the text behind it.
#[tactic(auto, using(ir_model::proofs::NoExcess::counted_none, crate::proofs::Ends::fields_end))]
pub fn fields(alloc: Global, text: &[u8]) -> Result<(Vec<Binding>, &[u8]), ReadError>
    ensures some { IfOk result (λ x. 0 < length x.0.items) }
    ensures read { Reads (λ x. map binding_of x.0.items) (grammar.spell_fields as_found) (Expected.Word None ∷ Expected.Mk mark.Colon ∷ Expected.Ty None 0 ∷ Expected.MoreFields 1 ∷ []) [] (placed text.now) (λ x. placed x.1.now) result }
{
    let mut fields = Vec::new(alloc);
    let (first, mut rest) = binding(alloc, None, text)?;
    fields.push(first)?;
    while let Some(behind) = behind_mark(Mark::Comma, rest) {
        let first = count_excess(fields.len(), FIELD_LIMIT, TextLimit::Field);
        let (next, behind) = binding(alloc, first, behind)?;
        fields.push(next)?;
        rest = behind;
    }
    let rest = mark(Mark::CloseBrace, rest)?;
    Ok((fields, rest))
}

/// The parameters of a function and the closing bracket, and the text behind it.
#[tactic(auto, using(ir_model::proofs::NoExcess::counted_none, crate::proofs::Ends::params_begin, crate::proofs::Ends::params_end))]
pub fn params(alloc: Global, text: &[u8]) -> Result<(Vec<Binding>, &[u8]), ReadError>
    ensures limit { IfOk result (λ x. length x.0.items ≤ parameter_limit) }
    ensures read { ReadsTo (λ x. map binding_of x.0.items) (grammar.spell_params as_found) (Expected.Params ∷ []) (λ x. Expected.body (length x.0.items)) (placed text.now) (λ x. placed x.1.now) result }
{
    let mut params = Vec::new(alloc);
    if let Some(rest) = behind_mark(Mark::Close, text) {
        return Ok((params, rest));
    }
    let (first, mut rest) = binding(alloc, None, text)?;
    params.push(first)?;
    while let Some(behind) = behind_mark(Mark::Comma, rest) {
        let first = count_excess(params.len(), PARAMETER_LIMIT, TextLimit::Param);
        let (next, behind) = binding(alloc, first, behind)?;
        params.push(next)?;
        rest = behind;
    }
    let rest = mark(Mark::Close, rest)?;
    Ok((params, rest))
}

/// The arguments of a call and the closing bracket, and the text behind it.
#[tactic(auto, using(ir_model::proofs::NoExcess::counted_none, crate::proofs::Ends::args_begin, crate::proofs::Ends::args_end))]
pub fn args(alloc: Global, text: &[u8]) -> Result<(Vec<Name>, &[u8]), ReadError>
    ensures { Reads (λ x. x.0.items) (grammar.spell_args as_found) (Expected.Args ∷ []) [] (placed text.now) (λ x. placed x.1.now) result }
{
    let mut args = Vec::new(alloc);
    if let Some(rest) = behind_mark(Mark::Close, text) {
        return Ok((args, rest));
    }
    let (first, mut rest) = name(alloc, text)?;
    args.push(first)?;
    while let Some(behind) = behind_mark(Mark::Comma, rest) {
        let first = count_excess(args.len(), PARAMETER_LIMIT, TextLimit::Param);
        let (next, behind) = name_behind(alloc, first, behind)?;
        args.push(next)?;
        rest = behind;
    }
    let rest = mark(Mark::Close, rest)?;
    Ok((args, rest))
}

/// The type behind an arrow, if there is one, and the text behind it.
#[tactic(auto, using(crate::proofs::Ends::gives_ends))]
pub fn outcome(alloc: Global, text: &[u8]) -> Result<(Option<Ty>, &[u8]), ReadError>
    ensures { Reads (λ x. result_of x.0) (grammar.spell_gives as_found) (Expected.Gives 0 ∷ []) [] (placed text.now) (λ x. placed x.1.now) result }
{
    let Some(rest) = behind_mark(Mark::Arrow, text) else {
        return Ok((None, text));
    };
    let (ty, rest) = ty(alloc, None, 0, rest)?;
    Ok((Some(ty), rest))
}
