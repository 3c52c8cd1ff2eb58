//! The lines of instructions and of block ends.

ghost use Rattle.std.specs.Prelude.{◌≡◌, ◌++◌, length, IfOk, IfSome, OnOk};
ghost use Rattle.ir_model.specs.Resolved.{func_at};
ghost use Rattle.ir_program.specs.Seen.{program_of};
ghost use Rattle.image_entries.specs.Walked.{IsReachedIn};
ghost use Rattle.plan_report.specs.Subjects.{subject_of};
ghost use Rattle.image_symbols.specs.CodeLines as lines;
ghost use Rattle.image_symbols.specs.FunctionLines.{functions};
ghost use Rattle.image_symbols.specs.Made.{AreMade};

use crate::monitor_lines::sum;
use crate::rising::Lying;
use code_offsets::walk::Reached;
use image_entries::walks::go_on;
use image_linker::LinkParts;
use ir_program::program::Program;
use plan_report::naming::{put_func, put_label};
use plan_report::subject::Subject;
use plan_report::text::Text;
use std::alloc::AllocError;

/// A place of a function's block.
#[derive(Clone, Copy)]
struct InstPlace {
    /// The number of the block.
    block: usize,
    /// The number of the instruction, or how many there are for the block's end.
    number: usize,
}

/// Goes on to a place of a function from the one that was reached before it.
fn reached(
    subject: &Subject<'_>,
    parts: &LinkParts,
    of: Lying,
    last: Option<Reached>,
    at: InstPlace,
) -> Result<Reached, AllocError>
    requires made { AreMade subject.now parts.now }
    requires last { IfSome last (IsReachedIn (program_of subject.now.program.now) parts.now.numbers of.number) }
    ensures reached { IfOk result (IsReachedIn (program_of subject.now.program.now) parts.now.numbers of.number) }
    ensures offset { IfOk result (λ r. r.offset ≡ lines.offset_at (subject_of subject.now) of.number at.block at.number) }
{
    let (func, block, place) = (of.number as usize, at.block, at.number);
    match go_on(subject.program, &parts.numbers, last, func, block, place) {
        Some(reached) => Ok(reached),
        None => Err(AllocError),
    }
}

/// Puts what stands before the place in a block: the address, the function and the block.
fn put_front(
    text: &mut Text,
    subject: &Subject<'_>,
    of: Lying,
    block: usize,
    offset: u32,
) -> Result<(), AllocError>
    ensures { OnOk result (text.new ≡ text.old ++ lines.front_text (subject_of subject.now) of block offset) }
{
    let address = sum(of.address, offset)?;
    text.put(b"code 0x")?;
    text.put_hexadecimal(8, address)?;
    text.put(b" ")?;
    put_func(text, subject.firmware, of.number)?;
    text.put(b" block ")?;
    put_label(text, subject.firmware, of.number, block)
}

/// Puts a word and a number, which end a line.
fn put_numbered(text: &mut Text, word: &[u8], number: usize) -> Result<(), AllocError>
    ensures { OnOk result (text.new ≡ text.old ++ lines.numbered word.now number) }
{
    text.put(word)?;
    text.put_decimal(number as u64)?;
    text.put(b"\n")
}

/// Puts the line of an instruction, and tells that it was reached.
fn put_inst(
    text: &mut Text,
    subject: &Subject<'_>,
    parts: &LinkParts,
    of: Lying,
    last: Option<Reached>,
    at: InstPlace,
) -> Result<Reached, AllocError>
    requires made { AreMade subject.now parts.now }
    requires last { IfSome last (IsReachedIn (program_of subject.now.program.now) parts.now.numbers of.number) }
    ensures reached { IfOk result (IsReachedIn (program_of subject.now.program.now) parts.now.numbers of.number) }
    ensures text { OnOk result (text.new ≡ text.old ++ lines.inst_line (subject_of subject.now) of at.block at.number) }
{
    let here = reached(subject, parts, of, last, at)?;
    put_front(text, subject, of, at.block, here.offset)?;
    put_numbered(text, b" instruction ", at.number)?;
    Ok(here)
}

/// Puts the line of a block's end, and tells that it was reached.
fn put_end(
    text: &mut Text,
    subject: &Subject<'_>,
    parts: &LinkParts,
    of: Lying,
    last: Option<Reached>,
    at: InstPlace,
) -> Result<Reached, AllocError>
    requires made { AreMade subject.now parts.now }
    requires end { at.number ≡ lines.inst_count (subject_of subject.now) of.number at.block }
    requires last { IfSome last (IsReachedIn (program_of subject.now.program.now) parts.now.numbers of.number) }
    ensures reached { IfOk result (IsReachedIn (program_of subject.now.program.now) parts.now.numbers of.number) }
    ensures text { OnOk result (text.new ≡ text.old ++ lines.end_line (subject_of subject.now) of at.block) }
{
    let here = reached(subject, parts, of, last, at)?;
    put_front(text, subject, of, at.block, here.offset)?;
    text.put(b" end\n")?;
    Ok(here)
}

/// Puts the lines of so many instructions of a block, and tells the last place that was reached.
fn put_insts(
    text: &mut Text,
    subject: &Subject<'_>,
    parts: &LinkParts,
    of: Lying,
    last: Option<Reached>,
    end: InstPlace,
) -> Result<Option<Reached>, AllocError>
    requires made { AreMade subject.now parts.now }
    requires end { end.number ≡ lines.inst_count (subject_of subject.now) of.number end.block }
    requires last { IfSome last (IsReachedIn (program_of subject.now.program.now) parts.now.numbers of.number) }
    ensures reached { IfOk result (λ r. IfSome r (IsReachedIn (program_of subject.now.program.now) parts.now.numbers of.number)) }
    ensures text { OnOk result (text.new ≡ text.old ++ lines.inst_lines (subject_of subject.now) of end.block) }
{
    let block = end.block;
    let mut at = last;
    for number in 0..end.number {
        at = Some(put_inst(text, subject, parts, of, at, InstPlace { block, number })?);
    }
    Ok(at)
}

/// How many instructions a function's block has.
fn inst_count(program: &Program<'_>, func: u32, block: usize) -> Result<usize, AllocError>
    ensures { IfOk result (λ n. n ≡ lines.count_in (program_of program.now) func block) }
{
    let Some(routine) = program.funcs.as_slice().get(func as usize) else {
        return Err(AllocError);
    };
    match routine.blocks.as_slice().get(block) {
        Some(sequence) => Ok(sequence.operations.len()),
        None => Err(AllocError),
    }
}

/// Puts the lines of a block, and tells that its end was reached.
fn put_block(
    text: &mut Text,
    subject: &Subject<'_>,
    parts: &LinkParts,
    of: Lying,
    last: Option<Reached>,
    block: usize,
) -> Result<Reached, AllocError>
    requires made { AreMade subject.now parts.now }
    requires last { IfSome last (IsReachedIn (program_of subject.now.program.now) parts.now.numbers of.number) }
    ensures reached { IfOk result (IsReachedIn (program_of subject.now.program.now) parts.now.numbers of.number) }
    ensures text { OnOk result (text.new ≡ text.old ++ lines.places_of_block (subject_of subject.now) of block) }
{
    let number = inst_count(subject.program, of.number, block)?;
    let end = InstPlace { block, number };
    let at = put_insts(text, subject, parts, of, last, end)?;
    put_end(text, subject, parts, of, at, end)
}

/// How many blocks a function has.
fn block_count(program: &Program<'_>, func: u32) -> Result<usize, AllocError>
    ensures { IfOk result (λ n. n ≡ length (func_at (program_of program.now) func).blocks) }
{
    match program.funcs.as_slice().get(func as usize) {
        Some(routine) => Ok(routine.blocks.len()),
        None => Err(AllocError),
    }
}

/// Puts the lines of the places of a function that lies there.
fn put_places(
    text: &mut Text,
    subject: &Subject<'_>,
    parts: &LinkParts,
    of: Lying,
) -> Result<(), AllocError>
    requires { AreMade subject.now parts.now }
    ensures { OnOk result (text.new ≡ text.old ++ lines.places_of_function (subject_of subject.now) of) }
{
    let blocks = block_count(subject.program, of.number)?;
    let mut last: Option<Reached> = None;
    for block in 0..blocks {
        last = Some(put_block(text, subject, parts, of, last, block)?);
    }
    Ok(())
}

/// Puts the lines of instructions and of block ends.
#[tactic(auto, unfolding(crate::specs::CodeLines::code_lines))]
pub(crate) fn put_code(
    text: &mut Text,
    subject: &Subject<'_>,
    parts: &LinkParts,
    all: &[Lying],
) -> Result<(), AllocError>
    requires made { AreMade subject.now parts.now }
    requires all { all.now ≡ functions (subject_of subject.now) }
    ensures { OnOk result (text.new ≡ text.old ++ lines.code_lines (subject_of subject.now)) }
{
    for i in 0..all.len() {
        put_places(text, subject, parts, all[i])?;
    }
    Ok(())
}
