//! Types at the front of a text.

ghost use Rattle.std.specs.Prelude.{◌≡◌, [], ◌∷◌, map, OnOk, None, true, false};
ghost use Rattle.ir_model.specs.Types.{type_of, types_from, boxed_result_of};
ghost use Rattle.ir_model.specs.Types as types;
ghost use Rattle.ir_model.specs.declared.token.Keyword.TheVariants as key;
ghost use Rattle.ir_model.specs.declared.token.Mark.TheVariants as sign;
ghost use Rattle.base_names.specs.Names.{is_word, is_reserved};
ghost use Rattle.ir_reader.specs.Machine as Expected;
ghost use Rattle.ir_reader.specs.Reading.{Reads};
ghost use Rattle.ir_reader.specs.Fronts.{front};
ghost use Rattle.ir_reader.specs.Scan.{placed};
ghost use Rattle.ir_grammar.specs.Spelling as grammar;
ghost use Rattle.ir_reader.specs.Spelling as spelling;
ghost use Rattle.ir_reader.specs.Spelling.{as_found};

use crate::error::ReadError;
use crate::lexer::lex;
use crate::limits::{count_excess, depth_excess, keep, length_excess, or_else, word_excess};
use crate::terminals::{behind_mark, mark, syntax};
use crate::token::Token;
use base_lists::ListVec;
use base_names::Name;
use ir_model::text_limits::PARAMETER_LIMIT;
use ir_model::token::{Excess, Keyword, Mark, TextLimit};
use ir_model::types::{Signature, Ty};
use std::alloc::Global;

/// An array's length, and the text behind it.
#[tactic(auto, using(ir_model::proofs::NoExcess::length_fits))]
fn length(text: &[u8]) -> Result<(u32, &[u8]), ReadError>
    ensures { Reads (λ x. x.0) (λ n. spelling.Number n ∷ []) (Expected.Len ∷ []) [] (placed text.now) (λ x. placed x.1.now) result }
{
    let (token, left, rest) = lex(text);
    let Token::Number(number) = token else {
        return Err(syntax(left));
    };
    keep(length_excess(number), left)?;
    Ok((number as u32, rest))
}

/// What the first token of a type that stands in so many others passes.
fn type_excess(first: Option<Excess>, around: u32) -> Option<Excess>
    ensures { result ≡ Expected.type_excess first around }
{
    or_else(first, depth_excess(around, None))
}

/// A type by a name, which was read, and the text behind it.
#[tactic(auto, using(ir_model::proofs::NoExcess::first_none, crate::proofs::Kept::name_of_type))]
fn named<'a>(
    alloc: Global,
    first: Option<Excess>,
    around: u32,
    word: &[u8],
    left: usize,
    text: &'a [u8],
) -> Result<(Ty, &'a [u8]), ReadError>
    requires word { is_word word.now ≡ true }
    requires free { is_reserved word.now ≡ false }
    ensures first { OnOk result (first ≡ None) }
    ensures read { Reads (λ x. type_of x.0) (grammar.spell_type as_found) (Expected.Ty first around ∷ []) [] (front (spelling.Name word.now) left (placed text.now)) (λ x. placed x.1.now) result }
{
    let excess = or_else(first, depth_excess(around, word_excess(word)));
    keep(excess, left)?;
    Ok((Ty::Named(Name::of(alloc, word)?), text))
}

/// A type in so many others, whose first token may pass something else first, and the text behind it.
#[cycle(types)]
#[tactic(auto, using(ir_model::proofs::NoExcess::first_none))]
pub fn ty(
    alloc: Global,
    first: Option<Excess>,
    around: u32,
    text: &[u8],
) -> Result<(Ty, &[u8]), ReadError>
    ensures first { OnOk result (first ≡ None) }
    ensures read { Reads (λ x. type_of x.0) (grammar.spell_type as_found) (Expected.Ty first around ∷ []) [] (placed text.now) (λ x. placed x.1.now) result }
{
    let (token, left, rest) = lex(text);
    match token {
        Token::Key(Keyword::U8) => {
            keep(type_excess(first, around), left)?;
            Ok((Ty::U8, rest))
        }
        Token::Key(Keyword::U16) => {
            keep(type_excess(first, around), left)?;
            Ok((Ty::U16, rest))
        }
        Token::Key(Keyword::U32) => {
            keep(type_excess(first, around), left)?;
            Ok((Ty::U32, rest))
        }
        Token::Mark(Mark::Star) => pointer(alloc, first, around, left, rest),
        Token::Mark(Mark::OpenSquare) => array(alloc, first, around, left, rest),
        Token::Key(Keyword::Fn) => function(alloc, first, around, left, rest),
        Token::Name(word) => named(alloc, first, around, word, left, rest),
        _ => Err(syntax(left)),
    }
}

/// A pointer's type, whose star was read, and the text behind it.
#[cycle(types)]
#[tactic(auto, using(crate::proofs::Kept::depth_rules))]
fn pointer(
    alloc: Global,
    first: Option<Excess>,
    around: u32,
    left: usize,
    text: &[u8],
) -> Result<(Ty, &[u8]), ReadError>
    ensures first { OnOk result (first ≡ None) }
    ensures read { Reads (λ x. type_of x.0) (grammar.spell_type as_found) (Expected.Ty first around ∷ []) [] (front (spelling.Sign sign.Star) left (placed text.now)) (λ x. placed x.1.now) result }
{
    keep(type_excess(first, around), left)?;
    let (target, rest) = ty(alloc, None, around + 1, text)?;
    Ok((Ty::Ptr(Box::new(alloc, target)?), rest))
}

/// An array's type, whose first bracket was read, and the text behind it.
#[cycle(types)]
#[tactic(auto, using(crate::proofs::Kept::depth_rules))]
fn array(
    alloc: Global,
    first: Option<Excess>,
    around: u32,
    left: usize,
    text: &[u8],
) -> Result<(Ty, &[u8]), ReadError>
    ensures first { OnOk result (first ≡ None) }
    ensures read { Reads (λ x. type_of x.0) (grammar.spell_type as_found) (Expected.Ty first around ∷ []) [] (front (spelling.Sign sign.OpenSquare) left (placed text.now)) (λ x. placed x.1.now) result }
{
    keep(type_excess(first, around), left)?;
    let (count, rest) = length(text)?;
    let rest = mark(Mark::CloseSquare, rest)?;
    let (element, rest) = ty(alloc, None, around + 1, rest)?;
    Ok((Ty::Array(count, Box::new(alloc, element)?), rest))
}

/// A function's type, whose reserved word was read, and the text behind it.
#[cycle(types)]
#[tactic(auto, using(crate::proofs::Kept::depth_rules))]
fn function(
    alloc: Global,
    first: Option<Excess>,
    around: u32,
    left: usize,
    text: &[u8],
) -> Result<(Ty, &[u8]), ReadError>
    ensures first { OnOk result (first ≡ None) }
    ensures read { Reads (λ x. type_of x.0) (grammar.spell_type as_found) (Expected.Ty first around ∷ []) [] (front (spelling.Key key.Fn) left (placed text.now)) (λ x. placed x.1.now) result }
{
    keep(type_excess(first, around), left)?;
    let rest = mark(Mark::Open, text)?;
    let (params, rest) = row(alloc, around + 1, rest)?;
    let (result, rest) = boxed_result(alloc, around + 1, rest)?;
    Ok((callee(params, result), rest))
}

/// The type behind an arrow, if there is one, and the text behind it.
#[cycle(types)]
#[tactic(auto, using(crate::proofs::Ends::gives_ends))]
fn boxed_result(
    alloc: Global,
    around: u32,
    text: &[u8],
) -> Result<(Option<Box<Ty>>, &[u8]), ReadError>
    ensures { Reads (λ x. boxed_result_of x.0) (grammar.spell_gives as_found) (Expected.Gives around ∷ []) [] (placed text.now) (λ x. placed x.1.now) result }
{
    let Some(rest) = behind_mark(Mark::Arrow, text) else {
        return Ok((None, text));
    };
    let (result, rest) = ty(alloc, None, around, rest)?;
    Ok((Some(Box::new(alloc, result)?), rest))
}

/// The types between brackets, up to the closing one, and the text behind it.
#[cycle(types)]
#[tactic(auto, using(crate::proofs::Ends::row_begins, crate::proofs::Ends::row_ends, ir_model::proofs::NoExcess::counted_none))]
fn row(alloc: Global, around: u32, text: &[u8]) -> Result<(Vec<Ty>, &[u8]), ReadError>
    ensures { Reads (λ x. types_from (map type_of x.0.items)) (grammar.spell_row as_found) (Expected.Row around ∷ []) (Expected.Gives around ∷ []) (placed text.now) (λ x. placed x.1.now) result }
{
    let mut types = Vec::new(alloc);
    if let Some(rest) = behind_mark(Mark::Close, text) {
        return Ok((types, rest));
    }
    let (first, mut rest) = ty(alloc, None, around, text)?;
    types.push(first)?;
    while let Some(behind) = behind_mark(Mark::Comma, rest) {
        let first = count_excess(types.len(), PARAMETER_LIMIT, TextLimit::Param);
        let (next, behind) = ty(alloc, first, around, behind)?;
        types.push(next)?;
        rest = behind;
    }
    let rest = mark(Mark::Close, rest)?;
    Ok((types, rest))
}

/// A function's type.
fn callee(params: Vec<Ty>, outcome: Option<Box<Ty>>) -> Ty
    ensures { type_of result ≡ types.Callee (types_from (map type_of params.items)) (boxed_result_of outcome) }
{
    Ty::Callee(Signature {
        params: ListVec::new(params),
        result: outcome,
    })
}
