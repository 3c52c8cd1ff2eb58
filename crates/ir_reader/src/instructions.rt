//! Instructions and the ends of blocks at the front of a text.

ghost use Rattle.std.specs.Prelude.{◌≡◌, ◌<◌, [], ◌∷◌, IfOk, None};
ghost use Rattle.ir_reader.specs.Machine as Expected;
ghost use Rattle.ir_reader.specs.Reading.{Reads, ReadsBehind, ReadsAt, BehindRet};
ghost use Rattle.ir_reader.specs.Lines.{ReadsLine, ReadsValue, IsBelow};
ghost use Rattle.ir_model.specs.declared.token.Keyword.TheVariants as key;
ghost use Rattle.ir_reader.specs.Scan.{placed};
ghost use Rattle.ir_grammar.specs.Spelling as grammar;
ghost use Rattle.ir_reader.specs.Spelling as spelling;
ghost use Rattle.ir_reader.specs.Spelling.{as_found};

use crate::bindings::args;
use crate::error::ReadError;
use crate::lexer::{begins_colon, lex};
use crate::limits::{count_excess, keep, number_excess, or_else, word_excess};
use crate::terminals::{mark, name, syntax};
use crate::token::Token;
use base_lists::ListVec;
use base_names::Name;
use ir_model::firmware::{Inst, Term};
use ir_model::text_limits::INSTRUCTION_LIMIT;
use ir_model::token::{Keyword, Mark, TextLimit};
use std::alloc::Global;

/// An instruction or the end of a block.
#[derive(Drop)]
pub enum BlockItem {
    /// An instruction.
    Inst(Inst),
    /// The end of a block.
    Term(Term),
}

/// Two names with a comma between them, and the text behind them.
fn two_names(alloc: Global, text: &[u8]) -> Result<((Name, Name), &[u8]), ReadError>
    ensures { Reads (λ x. x.0) (λ p. grammar.spell_two as_found p.0 p.1) Expected.two_words [] (placed text.now) (λ x. placed x.1.now) result }
{
    let (a, rest) = name(alloc, text)?;
    let rest = mark(Mark::Comma, rest)?;
    let (b, rest) = name(alloc, rest)?;
    Ok(((a, b), rest))
}

/// A function or a register, and the arguments of its call, and the text behind them.
fn called(alloc: Global, text: &[u8]) -> Result<((Name, ListVec<Name>), &[u8]), ReadError>
    ensures { Reads (λ x. x.0) (λ p. grammar.spell_called as_found p.0 p.1) Expected.call_rest [] (placed text.now) (λ x. placed x.1.now) result }
{
    let (func, rest) = name(alloc, text)?;
    let rest = mark(Mark::Open, rest)?;
    let (args, rest) = args(alloc, rest)?;
    Ok(((func, ListVec::new(args)), rest))
}

/// What a register gets by a reserved word, which was read, and the text behind it.
fn value_of_word(
    alloc: Global,
    to: Name,
    word: Keyword,
    left: usize,
    text: &[u8],
) -> Result<(Inst, &[u8]), ReadError>
    ensures { ReadsValue to word left (placed text.now) placed result }
{
    match word {
        Keyword::Addr => {
            let (of, rest) = name(alloc, text)?;
            Ok((Inst::Addr { to, of }, rest))
        }
        Keyword::Faddr => {
            let (of, rest) = name(alloc, text)?;
            Ok((Inst::FAddr { to, of }, rest))
        }
        Keyword::Elem => {
            let ((base, index), rest) = two_names(alloc, text)?;
            Ok((Inst::Elem { to, base, index }, rest))
        }
        Keyword::Field => {
            let ((base, field), rest) = two_names(alloc, text)?;
            Ok((Inst::Field { to, base, field }, rest))
        }
        Keyword::Load => {
            let (from, rest) = name(alloc, text)?;
            Ok((Inst::Load { to, from }, rest))
        }
        Keyword::Call => {
            let ((func, args), rest) = called(alloc, text)?;
            Ok((
                Inst::Call {
                    to: Some(to),
                    func,
                    args,
                },
                rest,
            ))
        }
        Keyword::Icall => {
            let ((func, args), rest) = called(alloc, text)?;
            Ok((
                Inst::ICall {
                    to: Some(to),
                    func,
                    args,
                },
                rest,
            ))
        }
        _ => Err(syntax(left)),
    }
}

/// What a register gets, behind the register and `=`, and the text behind it.
#[tactic(auto, using(ir_model::proofs::NoExcess::number_fits, ir_model::proofs::NoExcess::name_of_short))]
fn value(alloc: Global, to: Name, text: &[u8]) -> Result<(Inst, &[u8]), ReadError>
    ensures { ReadsBehind (grammar.spell_assigned as_found to []) (λ x. x.0) (grammar.spell_inst as_found) (Expected.Value ∷ []) [] (placed text.now) (λ x. placed x.1.now) result }
{
    let (token, left, rest) = lex(text);
    match token {
        Token::Number(number) => {
            keep(number_excess(number, None), left)?;
            Ok((
                Inst::Const {
                    to,
                    value: number as u32,
                },
                rest,
            ))
        }
        Token::Name(word) => {
            keep(word_excess(word), left)?;
            let from = Name::of(alloc, word)?;
            Ok((Inst::Move { to, from }, rest))
        }
        Token::Operation(op) => {
            let ((a, b), rest) = two_names(alloc, rest)?;
            Ok((Inst::Bin { op, to, a, b }, rest))
        }
        Token::Comparison(op) => {
            let ((a, b), rest) = two_names(alloc, rest)?;
            Ok((Inst::Cmp { op, to, a, b }, rest))
        }
        Token::Key(word) => value_of_word(alloc, to, word, left, rest),
        _ => Err(syntax(left)),
    }
}

/// A word that is no label, how many bytes begin with it, and the text behind it, where one is there.
fn register_word(text: &[u8]) -> Option<(&[u8], usize, &[u8])>
    ensures { BehindRet (placed text.now) placed result }
{
    let (token, left, rest) = lex(text);
    match token {
        Token::Name(word) if !begins_colon(rest) => Some((word, left, rest)),
        _ => None,
    }
}

/// The register behind `ret`, where there is one, and the text behind it.
#[tactic(auto, using(crate::proofs::Ends::ret_ends, ir_model::proofs::NoExcess::name_of_short))]
fn register(alloc: Global, text: &[u8]) -> Result<(Option<Name>, &[u8]), ReadError>
    ensures { ReadsAt (λ x. x.0) (grammar.spell_register as_found) (λ k n. Expected.AfterRet k n ∷ []) (λ k n. Expected.Blocks k n ∷ []) (placed text.now) (λ x. placed x.1.now) result }
{
    let Some((word, left, rest)) = register_word(text) else {
        return Ok((None, text));
    };
    keep(word_excess(word), left)?;
    let register = Name::of(alloc, word)?;
    Ok((Some(register), rest))
}

/// The end of a block behind its reserved word, and the text behind it.
fn branch(alloc: Global, text: &[u8]) -> Result<(Term, &[u8]), ReadError>
    ensures { ReadsBehind (spelling.Key key.Branch ∷ []) (λ x. x.0) (grammar.spell_term as_found) Expected.three_words [] (placed text.now) (λ x. placed x.1.now) result }
{
    let (on, rest) = name(alloc, text)?;
    let (yes, rest) = name(alloc, rest)?;
    let (no, rest) = name(alloc, rest)?;
    Ok((Term::Branch { on, yes, no }, rest))
}

/// An instruction behind so many others or the end of a block, and the text behind it.
#[tactic(auto, using(ir_model::proofs::NoExcess::name_of_word, ir_model::proofs::NoExcess::first_none, ir_model::proofs::NoExcess::counted_none))]
pub fn line(alloc: Global, before: usize, text: &[u8]) -> Result<(BlockItem, &[u8]), ReadError>
    ensures limit { IfOk result (λ x. IsBelow before x.0) }
    ensures read { ReadsLine before (placed text.now) placed result }
{
    let (token, left, rest) = lex(text);
    match token {
        Token::Name(word) => {
            keep(
                or_else(
                    count_excess(before, INSTRUCTION_LIMIT, TextLimit::Instruction),
                    word_excess(word),
                ),
                left,
            )?;
            let to = Name::of(alloc, word)?;
            let rest = mark(Mark::Equal, rest)?;
            let (inst, rest) = value(alloc, to, rest)?;
            Ok((BlockItem::Inst(inst), rest))
        }
        Token::Key(Keyword::Store) => {
            keep(
                count_excess(before, INSTRUCTION_LIMIT, TextLimit::Instruction),
                left,
            )?;
            let ((to, from), rest) = two_names(alloc, rest)?;
            Ok((BlockItem::Inst(Inst::Store { to, from }), rest))
        }
        Token::Key(Keyword::Call) => {
            keep(
                count_excess(before, INSTRUCTION_LIMIT, TextLimit::Instruction),
                left,
            )?;
            let ((func, args), rest) = called(alloc, rest)?;
            Ok((
                BlockItem::Inst(Inst::Call {
                    to: None,
                    func,
                    args,
                }),
                rest,
            ))
        }
        Token::Key(Keyword::Icall) => {
            keep(
                count_excess(before, INSTRUCTION_LIMIT, TextLimit::Instruction),
                left,
            )?;
            let ((func, args), rest) = called(alloc, rest)?;
            Ok((
                BlockItem::Inst(Inst::ICall {
                    to: None,
                    func,
                    args,
                }),
                rest,
            ))
        }
        Token::Key(Keyword::Jump) => {
            let (label, rest) = name(alloc, rest)?;
            Ok((BlockItem::Term(Term::Jump(label)), rest))
        }
        Token::Key(Keyword::Branch) => {
            let (term, rest) = branch(alloc, rest)?;
            Ok((BlockItem::Term(term), rest))
        }
        Token::Key(Keyword::Ret) => {
            let (register, rest) = register(alloc, rest)?;
            Ok((BlockItem::Term(Term::Ret(register)), rest))
        }
        _ => Err(syntax(left)),
    }
}
