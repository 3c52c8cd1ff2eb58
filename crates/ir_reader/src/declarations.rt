//! Structs, peripherals and globals at the front of a text.

ghost use Rattle.std.specs.Prelude.{◌<◌, ◌+◌, [], ◌∷◌, map, length, OnOk, IfOk, None};
ghost use Rattle.ir_model.specs.Plain.{struct_of, global_of};
ghost use Rattle.ir_model.specs.TextLimits.{global_limit, cell_limit};
ghost use Rattle.ir_model.specs.declared.token.Keyword.TheVariants as key;
ghost use Rattle.ir_model.specs.declared.token.Mark.TheVariants as mark;
ghost use Rattle.ir_reader.specs.Machine as Expected;
ghost use Rattle.ir_reader.specs.Reading.{Reads, ReadsBehind, Starts, HasFields};
ghost use Rattle.ir_reader.specs.Scan.{placed};
ghost use Rattle.ir_grammar.specs.Spelling as grammar;
ghost use Rattle.ir_reader.specs.Spelling as spelling;
ghost use Rattle.ir_reader.specs.Spelling.{as_found};

use crate::bindings::{binding, fields};
use crate::error::ReadError;
use crate::lexer::lex;
use crate::limits::{count_excess, keep, number_excess};
use crate::terminals::{behind_mark, behind_word, global_word, mark, name, number, syntax};
use crate::token::Token;
use base_lists::ListVec;
use ir_model::firmware::{Cell, Global as GlobalDecl, Peripheral, StructDecl};
use ir_model::text_limits::{CELL_LIMIT, GLOBAL_LIMIT, PERIPH_LIMIT, STRUCT_LIMIT};
use ir_model::token::{Keyword, Mark, TextLimit};
use std::alloc::Global;

/// A struct behind the word `struct`, and the text behind it.
fn struct_behind(alloc: Global, text: &[u8]) -> Result<(StructDecl, &[u8]), ReadError>
    ensures some { IfOk result (λ x. 0 < length x.0.fields) }
    ensures read { ReadsBehind (spelling.Key key.Struct ∷ []) (λ x. struct_of x.0) (grammar.spell_struct as_found) Expected.struct_rest [] (placed text.now) (λ x. placed x.1.now) result }
{
    let (name, rest) = name(alloc, text)?;
    let rest = mark(Mark::OpenBrace, rest)?;
    let (fields, rest) = fields(alloc, rest)?;
    Ok((
        StructDecl {
            name,
            fields: ListVec::new(fields),
        },
        rest,
    ))
}

/// All structs, and the text behind them.
#[tactic(auto, using(crate::proofs::Ends::structs_end, ir_model::proofs::NoExcess::counted_none, crate::proofs::Separated::each_push))]
pub fn structs(alloc: Global, text: &[u8]) -> Result<(Vec<StructDecl>, &[u8]), ReadError>
    ensures fields { IfOk result (λ x. HasFields (map struct_of x.0.items)) }
    ensures read { Reads (λ x. map struct_of x.0.items) (grammar.spell_structs as_found) (Expected.Structs 0 ∷ []) (Expected.Periphs 0 ∷ []) (placed text.now) (λ x. placed x.1.now) result }
{
    let mut structs = Vec::new(alloc);
    let mut rest = text;
    while let Some((left, behind)) = behind_word(Keyword::Struct, rest) {
        keep(
            count_excess(structs.len(), STRUCT_LIMIT, TextLimit::Struct),
            left,
        )?;
        let (next, behind) = struct_behind(alloc, behind)?;
        structs.push(next)?;
        rest = behind;
    }
    Ok((structs, rest))
}

/// A peripheral behind the word `periph`, and the text behind it.
fn periph_behind(alloc: Global, text: &[u8]) -> Result<(Peripheral, &[u8]), ReadError>
    ensures { ReadsBehind (spelling.Key key.Periph ∷ []) (λ x. x.0) (grammar.spell_periph as_found) Expected.periph_rest [] (placed text.now) (λ x. placed x.1.now) result }
{
    let (name, rest) = name(alloc, text)?;
    let (base, rest) = number(rest)?;
    let (size, rest) = number(rest)?;
    Ok((Peripheral { name, base, size }, rest))
}

/// All peripherals, and the text behind them.
#[tactic(auto, using(crate::proofs::Ends::periphs_end, ir_model::proofs::NoExcess::counted_none))]
pub fn periphs(alloc: Global, text: &[u8]) -> Result<(Vec<Peripheral>, &[u8]), ReadError>
    ensures { Reads (λ x. x.0.items) (grammar.spell_periphs as_found) (Expected.Periphs 0 ∷ []) (Expected.Globals 0 ∷ []) (placed text.now) (λ x. placed x.1.now) result }
{
    let mut periphs = Vec::new(alloc);
    let mut rest = text;
    while let Some((left, behind)) = behind_word(Keyword::Periph, rest) {
        keep(
            count_excess(periphs.len(), PERIPH_LIMIT, TextLimit::Periph),
            left,
        )?;
        let (next, behind) = periph_behind(alloc, behind)?;
        periphs.push(next)?;
        rest = behind;
    }
    Ok((periphs, rest))
}

/// A cell behind so many others, and the text behind it.
#[tactic(auto, using(ir_model::proofs::NoExcess::number_fits, crate::proofs::Kept::cell_counted, ir_model::proofs::NoExcess::counted_none))]
fn cell(alloc: Global, before: usize, text: &[u8]) -> Result<(Cell, &[u8]), ReadError>
    ensures limit { OnOk result (before < cell_limit) }
    ensures read { Reads (λ x. x.0) (grammar.spell_cell as_found) (Expected.CellAt before ∷ []) [] (placed text.now) (λ x. placed x.1.now) result }
{
    let (token, left, rest) = lex(text);
    match token {
        Token::Number(number) => {
            keep(
                number_excess(number, count_excess(before, CELL_LIMIT, TextLimit::Cell)),
                left,
            )?;
            Ok((Cell::Word(number as u32), rest))
        }
        Token::Key(Keyword::Fn) => {
            keep(count_excess(before, CELL_LIMIT, TextLimit::Cell), left)?;
            let (function, rest) = name(alloc, rest)?;
            Ok((Cell::Function(function), rest))
        }
        Token::Key(Keyword::Addr) => {
            keep(count_excess(before, CELL_LIMIT, TextLimit::Cell), left)?;
            let (object, rest) = name(alloc, rest)?;
            Ok((Cell::Address(object), rest))
        }
        _ => Err(syntax(left)),
    }
}

/// The first cells of a global and the closing brace, and the text behind it.
#[tactic(auto, using(crate::proofs::Ends::cells_end))]
fn cells(alloc: Global, text: &[u8]) -> Result<(Vec<Cell>, &[u8]), ReadError>
    ensures some { IfOk result (λ x. 0 < length x.0.items) }
    ensures read { Reads (λ x. x.0.items) (grammar.spell_cells as_found) (Expected.CellAt 0 ∷ Expected.MoreCells 1 ∷ []) [] (placed text.now) (λ x. placed x.1.now) result }
{
    let mut cells = Vec::new(alloc);
    let (first, mut rest) = cell(alloc, 0, text)?;
    cells.push(first)?;
    while let Some(behind) = behind_mark(Mark::Comma, rest) {
        let (next, behind) = cell(alloc, cells.len(), behind)?;
        cells.push(next)?;
        rest = behind;
    }
    let rest = mark(Mark::CloseBrace, rest)?;
    Ok((cells, rest))
}

/// The first cells of a global, if the text says them, and the text behind it.
#[tactic(auto, using(crate::proofs::Ends::init_ends, crate::proofs::Separated::spell_some_init))]
fn init(alloc: Global, before: usize, text: &[u8]) -> Result<(Vec<Cell>, &[u8]), ReadError>
    ensures { Reads (λ x. x.0.items) (grammar.spell_init as_found) (Expected.Init before ∷ []) (Expected.Globals before ∷ []) (placed text.now) (λ x. placed x.1.now) result }
{
    let Some(rest) = behind_mark(Mark::Equal, text) else {
        return Ok((Vec::new(alloc), text));
    };
    let rest = mark(Mark::OpenBrace, rest)?;
    cells(alloc, rest)
}

/// Whether a global behind so many others is constant, up to its name, if one is there.
#[tactic(auto, using(crate::proofs::Ends::globals_end, ir_model::proofs::NoExcess::counted_none))]
fn constant(before: usize, text: &[u8]) -> Result<Option<(bool, &[u8])>, ReadError>
    ensures { Starts before (placed text.now) placed result }
{
    if let Some((left, behind)) = behind_word(Keyword::Const, text) {
        keep(count_excess(before, GLOBAL_LIMIT, TextLimit::Global), left)?;
        let rest = global_word(behind)?;
        return Ok(Some((true, rest)));
    }
    if let Some((left, behind)) = behind_word(Keyword::Global, text) {
        keep(count_excess(before, GLOBAL_LIMIT, TextLimit::Global), left)?;
        return Ok(Some((false, behind)));
    }
    Ok(None)
}

/// A global behind its first words, behind so many others, and the text behind it.
fn global_behind(
    alloc: Global,
    constant: bool,
    before: usize,
    text: &[u8],
) -> Result<(GlobalDecl, &[u8]), ReadError>
    requires { before < global_limit }
    ensures { ReadsBehind (grammar.spell_constant as_found constant) (λ x. global_of x.0) (grammar.spell_global as_found) (Expected.global_rest before) (Expected.Globals (before + 1) ∷ []) (placed text.now) (λ x. placed x.1.now) result }
{
    let (named, rest) = binding(alloc, None, text)?;
    let (init, rest) = init(alloc, before + 1, rest)?;
    let init = ListVec::new(init);
    let (name, ty) = named.into_parts();
    Ok((
        GlobalDecl {
            name,
            constant,
            ty,
            init,
        },
        rest,
    ))
}

/// All globals, and the text behind them.
pub fn globals(alloc: Global, text: &[u8]) -> Result<(Vec<GlobalDecl>, &[u8]), ReadError>
    ensures { Reads (λ x. map global_of x.0.items) (grammar.spell_globals as_found) (Expected.Globals 0 ∷ []) (Expected.Files 0 0 ∷ []) (placed text.now) (λ x. placed x.1.now) result }
{
    let mut globals = Vec::new(alloc);
    let mut rest = text;
    while let Some((constant, behind)) = constant(globals.len(), rest)? {
        let (next, behind) = global_behind(alloc, constant, globals.len(), behind)?;
        globals.push(next)?;
        rest = behind;
    }
    Ok((globals, rest))
}
