//! The lines of functions.

ghost use Rattle.std.specs.Prelude.{◌≡◌, ◌++◌, IfOk, OnOk};
ghost use Rattle.ir_model.specs.Resolved.{func_at};
ghost use Rattle.ir_program.specs.Seen.{program_of};
ghost use Rattle.code_model.specs.FrameShape as frames;
ghost use Rattle.plan_report.specs.Subjects.{subject_of};
ghost use Rattle.image_symbols.specs.FunctionLines as lines;
ghost use Rattle.image_symbols.specs.Made.{AreMade};

use crate::rising::{Lying, rising};
use code_offsets::frame::frame_size;
use image_entries::entries::size_of;
use image_linker::LinkParts;
use ir_program::program::Program;
use plan_crossings::compartment_of;
use plan_report::naming::put_func;
use plan_report::subject::Subject;
use plan_report::text::Text;
use std::alloc::{AllocError, Global};

/// The bytes of a function's code.
fn code_size(subject: &Subject<'_>, parts: &LinkParts, func: u32) -> Result<u32, AllocError>
    requires { AreMade subject.now parts.now }
    ensures { IfOk result (λ n. n ≡ lines.code_size (subject_of subject.now) func) }
{
    match size_of(subject.program, &parts.numbers, func as usize) {
        Some(size) => Ok(size),
        None => Err(AllocError),
    }
}

/// The bytes of a function's frame.
fn frame_bytes(program: &Program<'_>, func: u32) -> Result<u32, AllocError>
    ensures { IfOk result (λ n. n ≡ frames.frame_size (func_at (program_of program.now) func)) }
{
    match frame_size(program, func as usize) {
        Some(size) => Ok(size),
        None => Err(AllocError),
    }
}

/// Puts the line of a function that lies there.
fn put_function(
    text: &mut Text,
    subject: &Subject<'_>,
    parts: &LinkParts,
    of: Lying,
) -> Result<(), AllocError>
    requires { AreMade subject.now parts.now }
    ensures { OnOk result (text.new ≡ text.old ++ lines.function_line (subject_of subject.now) of) }
{
    let size = code_size(subject, parts, of.number)?;
    let frame = frame_bytes(subject.program, of.number)?;
    let compartment = compartment_of(&subject.graph.groups, of.number);
    text.put(b"function")?;
    text.put_range(of.address, u64::from(size))?;
    text.put(b" ")?;
    text.put_decimal(u64::from(compartment))?;
    text.put(b" ")?;
    text.put_decimal(u64::from(frame))?;
    text.put(b" ")?;
    put_func(text, subject.firmware, of.number)?;
    text.put(b"\n")
}

/// All functions, in rising order of where they begin.
pub(crate) fn functions(
    alloc: Global,
    subject: &Subject<'_>,
    parts: &LinkParts,
) -> Result<Vec<Lying>, AllocError>
    requires { AreMade subject.now parts.now }
    ensures { IfOk result (λ all. all.items ≡ lines.functions (subject_of subject.now)) }
{
    rising(alloc, parts.addresses.entries.as_slice())
}

/// Puts the lines of functions.
#[tactic(auto, unfolding(crate::specs::FunctionLines::function_lines))]
pub(crate) fn put_functions(
    text: &mut Text,
    subject: &Subject<'_>,
    parts: &LinkParts,
    functions: &[Lying],
) -> Result<(), AllocError>
    requires made { AreMade subject.now parts.now }
    requires all { functions.now ≡ lines.functions (subject_of subject.now) }
    ensures { OnOk result (text.new ≡ text.old ++ lines.function_lines (subject_of subject.now)) }
{
    for i in 0..functions.len() {
        put_function(text, subject, parts, functions[i])?;
    }
    Ok(())
}
