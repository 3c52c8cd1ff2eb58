//! Functions and files at the front of a text.

ghost use Rattle.std.specs.Prelude.{◌<◌, ◌≤◌, ◌+◌, [], ◌∷◌, map, length, OnOk, IfOk, None};
ghost use Rattle.ir_model.specs.Types.{result_of};
ghost use Rattle.ir_model.specs.Plain.{binding_of, func_of, file_of};
ghost use Rattle.ir_model.specs.TextLimits.{function_limit, parameter_limit, block_limit, instruction_limit};
ghost use Rattle.ir_model.specs.declared.token.Keyword.TheVariants as key;
ghost use Rattle.ir_reader.specs.Machine as Expected;
ghost use Rattle.ir_reader.specs.Reading.{Reads, ReadsBehind, ReadsTo};
ghost use Rattle.ir_reader.specs.Parts.{ReadsLines, ReadsFuncs, ReadsFile, NextFile, HasBlocks, AllHaveBlocks};
ghost use Rattle.ir_reader.specs.Scan.{placed};
ghost use Rattle.ir_grammar.specs.Spelling as grammar;
ghost use Rattle.ir_reader.specs.Spelling as spelling;
ghost use Rattle.ir_reader.specs.Spelling.{as_found};

use crate::bindings::{binding, outcome, params};
use crate::error::ReadError;
use crate::instructions::{BlockItem, line};
use crate::lexer::lex;
use crate::limits::{count_excess, keep};
use crate::terminals::{behind_mark, behind_word, mark, name, name_behind, syntax};
use crate::token::Token;
use base_lists::ListVec;
use base_names::Name;
use ir_model::firmware::{Binding, Block, FileDecl, Func, Inst, Term};
use ir_model::text_limits::{BLOCK_LIMIT, FILE_LIMIT, FUNCTION_LIMIT, LOCAL_LIMIT, REGISTER_LIMIT};
use ir_model::token::{Keyword, Mark, TextLimit};
use ir_model::types::Ty;
use std::alloc::Global;

/// The instructions of a block behind so many others, and its end, and the text behind them.
fn lines(alloc: Global, before: usize, text: &[u8]) -> Result<((Vec<Inst>, Term), &[u8]), ReadError>
    requires { before ≤ instruction_limit }
    ensures limit { IfOk result (λ x. before + length x.0.0.items ≤ instruction_limit) }
    ensures read { ReadsLines before (placed text.now) placed result }
{
    let mut insts = Vec::new(alloc);
    let mut rest = text;
    loop {
        let (item, behind) = line(alloc, before + insts.len(), rest)?;
        match item {
            BlockItem::Inst(inst) => {
                insts.push(inst)?;
                rest = behind;
            }
            BlockItem::Term(term) => return Ok(((insts, term), behind)),
        }
    }
}

/// A block behind so many others with so many instructions, and the text behind it.
#[tactic(auto, using(crate::proofs::Ends::first_is, ir_model::proofs::NoExcess::counted_none))]
fn block(
    alloc: Global,
    before: usize,
    instructions: usize,
    text: &[u8],
) -> Result<(Block, &[u8]), ReadError>
    requires { instructions ≤ instruction_limit }
    ensures limit { OnOk result (before < block_limit) }
    ensures instructions { IfOk result (λ x. instructions + length x.0.insts ≤ instruction_limit) }
    ensures read { ReadsTo (λ x. x.0) (grammar.spell_block as_found) (Expected.First before instructions ∷ []) (λ x. Expected.Blocks (before + 1) (instructions + length x.0.insts) ∷ []) (placed text.now) (λ x. placed x.1.now) result }
{
    let (label, rest) = name_behind(
        alloc,
        count_excess(before, BLOCK_LIMIT, TextLimit::Block),
        text,
    )?;
    let rest = mark(Mark::Colon, rest)?;
    let ((insts, term), rest) = lines(alloc, instructions, rest)?;
    Ok((
        Block {
            label,
            insts: ListVec::new(insts),
            term,
        },
        rest,
    ))
}

/// The blocks of a function and the closing brace, and the text behind it.
#[tactic(auto, using(crate::proofs::Ends::blocks_go_on))]
fn blocks(alloc: Global, text: &[u8]) -> Result<(Vec<Block>, &[u8]), ReadError>
    ensures some { IfOk result (λ x. 0 < length x.0.items) }
    ensures read { Reads (λ x. x.0.items) (grammar.spell_blocks as_found) (Expected.First 0 0 ∷ []) [] (placed text.now) (λ x. placed x.1.now) result }
{
    let mut blocks = Vec::new(alloc);
    let mut instructions = 0;
    let mut rest = text;
    loop {
        let (next, behind) = block(alloc, blocks.len(), instructions, rest)?;
        instructions += next.insts.len();
        blocks.push(next)?;
        if let Some(end) = behind_mark(Mark::CloseBrace, behind) {
            return Ok((blocks, end));
        }
        rest = behind;
    }
}

/// The locals of a function, and the text behind them.
#[tactic(auto, using(crate::proofs::Ends::locals_end, ir_model::proofs::NoExcess::counted_none))]
fn locals(alloc: Global, params: usize, text: &[u8]) -> Result<(Vec<Binding>, &[u8]), ReadError>
    ensures { Reads (λ x. map binding_of x.0.items) (grammar.spell_locals as_found) (Expected.Locals 0 params ∷ []) (Expected.Regs params ∷ []) (placed text.now) (λ x. placed x.1.now) result }
{
    let mut locals = Vec::new(alloc);
    let mut rest = text;
    while let Some((left, behind)) = behind_word(Keyword::Local, rest) {
        keep(
            count_excess(locals.len(), LOCAL_LIMIT, TextLimit::Local),
            left,
        )?;
        let (next, behind) = binding(alloc, None, behind)?;
        locals.push(next)?;
        rest = behind;
    }
    Ok((locals, rest))
}

/// The registers of a function, and the text behind them.
#[tactic(auto, using(crate::proofs::Ends::regs_end, ir_model::proofs::NoExcess::counted_none))]
fn regs(alloc: Global, params: usize, text: &[u8]) -> Result<(Vec<Binding>, &[u8]), ReadError>
    requires { params ≤ parameter_limit }
    ensures { Reads (λ x. map binding_of x.0.items) (grammar.spell_regs as_found) (Expected.Regs params ∷ []) (Expected.First 0 0 ∷ []) (placed text.now) (λ x. placed x.1.now) result }
{
    let mut regs = Vec::new(alloc);
    let mut rest = text;
    while let Some((left, behind)) = behind_word(Keyword::Reg, rest) {
        keep(
            count_excess(params + regs.len(), REGISTER_LIMIT, TextLimit::Register),
            left,
        )?;
        let (next, behind) = binding(alloc, None, behind)?;
        regs.push(next)?;
        rest = behind;
    }
    Ok((regs, rest))
}

/// What stands between the opening brace of a function and the text behind it.
#[derive(Drop)]
struct Body {
    locals: Vec<Binding>,
    regs: Vec<Binding>,
    blocks: Vec<Block>,
}

/// What stands before the opening brace of a function.
#[derive(Drop)]
struct Head {
    name: Name,
    params: Vec<Binding>,
    outcome: Option<Ty>,
}

/// A function behind the word `func`, up to its opening brace, and the text behind it.
fn function_head(alloc: Global, text: &[u8]) -> Result<(Head, &[u8]), ReadError>
    ensures limit { IfOk result (λ x. length x.0.params.items ≤ parameter_limit) }
    ensures read { ReadsTo (λ x. x.0) (λ h. grammar.spell_head as_found h.name (map binding_of h.params.items) (result_of h.outcome)) Expected.func_rest (λ x. Expected.Locals 0 (length x.0.params.items) ∷ []) (placed text.now) (λ x. placed x.1.now) result }
{
    let (name, rest) = name(alloc, text)?;
    let rest = mark(Mark::Open, rest)?;
    let (params, rest) = params(alloc, rest)?;
    let (outcome, rest) = outcome(alloc, rest)?;
    let rest = mark(Mark::OpenBrace, rest)?;
    Ok((
        Head {
            name,
            params,
            outcome,
        },
        rest,
    ))
}

/// A function behind its opening brace, and the text behind it.
fn function_body(alloc: Global, params: usize, text: &[u8]) -> Result<(Body, &[u8]), ReadError>
    requires { params ≤ parameter_limit }
    ensures some { IfOk result (λ x. 0 < length x.0.blocks.items) }
    ensures read { Reads (λ x. x.0) (λ b. grammar.spell_body as_found (map binding_of b.locals.items) (map binding_of b.regs.items) b.blocks.items) (Expected.Locals 0 params ∷ []) [] (placed text.now) (λ x. placed x.1.now) result }
{
    let (locals, rest) = locals(alloc, params, text)?;
    let (regs, rest) = regs(alloc, params, rest)?;
    let (blocks, rest) = blocks(alloc, rest)?;
    Ok((
        Body {
            locals,
            regs,
            blocks,
        },
        rest,
    ))
}

/// A function behind the word `func`, and the text behind it.
fn func_behind(alloc: Global, text: &[u8]) -> Result<(Func, &[u8]), ReadError>
    ensures some { IfOk result (λ x. 0 < length x.0.blocks) }
    ensures read { ReadsBehind (spelling.Key key.Func ∷ []) (λ x. func_of x.0) (grammar.spell_func as_found) Expected.func_rest [] (placed text.now) (λ x. placed x.1.now) result }
{
    let (
        Head {
            name,
            params,
            outcome,
        },
        rest,
    ) = function_head(alloc, text)?;
    let (
        Body {
            locals,
            regs,
            blocks,
        },
        rest,
    ) = function_body(alloc, params.len(), rest)?;
    let func = Func {
        name,
        params: ListVec::new(params),
        result: outcome,
        locals: ListVec::new(locals),
        regs: ListVec::new(regs),
        blocks: ListVec::new(blocks),
    };
    Ok((func, rest))
}

/// The functions of a file behind so many others and the closing brace, and the text behind it.
#[tactic(auto, using(crate::proofs::Ends::funcs_end, ir_model::proofs::NoExcess::counted_none, crate::proofs::Separated::each_push))]
fn funcs(alloc: Global, before: usize, text: &[u8]) -> Result<(Vec<Func>, &[u8]), ReadError>
    requires { before ≤ function_limit }
    ensures limit { IfOk result (λ x. before + length x.0.items ≤ function_limit) }
    ensures blocks { IfOk result (λ x. HasBlocks (map func_of x.0.items)) }
    ensures read { ReadsFuncs before (placed text.now) placed result }
{
    let mut funcs = Vec::new(alloc);
    let mut rest = text;
    while let Some((left, behind)) = behind_word(Keyword::Func, rest) {
        keep(
            count_excess(before + funcs.len(), FUNCTION_LIMIT, TextLimit::Function),
            left,
        )?;
        let (next, behind) = func_behind(alloc, behind)?;
        funcs.push(next)?;
        rest = behind;
    }
    let rest = mark(Mark::CloseBrace, rest)?;
    Ok((funcs, rest))
}

/// A file behind the word `file`, behind so many functions, and the text behind it.
fn file_behind(alloc: Global, functions: usize, text: &[u8]) -> Result<(FileDecl, &[u8]), ReadError>
    requires { functions ≤ function_limit }
    ensures limit { IfOk result (λ x. functions + length x.0.funcs ≤ function_limit) }
    ensures blocks { IfOk result (λ x. HasBlocks (map func_of x.0.funcs)) }
    ensures read { ReadsFile functions (placed text.now) placed result }
{
    let (name, rest) = name(alloc, text)?;
    let rest = mark(Mark::OpenBrace, rest)?;
    let (funcs, rest) = funcs(alloc, functions, rest)?;
    Ok((
        FileDecl {
            name,
            funcs: ListVec::new(funcs),
        },
        rest,
    ))
}

/// How many bytes begin with the word `file`, and the text behind it, if the text does not end there.
fn next_file(text: &[u8]) -> Result<Option<(usize, &[u8])>, ReadError>
    ensures { NextFile (placed text.now) placed result }
{
    let (token, left, rest) = lex(text);
    match token {
        Token::Key(Keyword::File) => Ok(Some((left, rest))),
        Token::End => Ok(None),
        _ => Err(syntax(left)),
    }
}

/// All files, up to the end of the text.
#[tactic(auto, using(ir_model::proofs::NoExcess::counted_none))]
pub fn files(alloc: Global, text: &[u8]) -> Result<Vec<FileDecl>, ReadError>
    ensures blocks { IfOk result (λ x. AllHaveBlocks (map file_of x.items)) }
    ensures read { Reads (λ x. map file_of x.items) (grammar.spell_files as_found) (Expected.Files 0 0 ∷ []) [] (placed text.now) (λ x. []) result }
{
    let mut files = Vec::new(alloc);
    let mut functions = 0;
    let mut rest = text;
    while let Some((left, behind)) = next_file(rest)? {
        keep(count_excess(files.len(), FILE_LIMIT, TextLimit::File), left)?;
        let (next, behind) = file_behind(alloc, functions, behind)?;
        functions += next.funcs.len();
        files.push(next)?;
        rest = behind;
    }
    Ok(files)
}
