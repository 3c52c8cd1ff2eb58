//! The warnings, in the order of the text.

ghost use Rattle.std.specs.Prelude.{◌≡◌, ◌++◌, List, map, OnOk};
ghost use Rattle.ir_model.specs.Layout.{Known};
ghost use Rattle.ir_program.specs.Parts.{operation_of, sequence_of, routine_of, span_of};
ghost use Rattle.ir_program.specs.Seen.{program_of};
ghost use Rattle.aces_why.specs.Warnings as lines;
ghost use Rattle.aces_why.specs.Numbered.{numbered};
ghost use Rattle.aces_why.specs.Subjects.{subject_of};

use crate::places::{InstPlace, put_block, put_place};
use crate::rows::{is_called, is_entered, objects_of};
use crate::subject::Subject;
use ir_model::object::ObjId;
use ir_program::program::{Operation, Program, Routine, Sequence, Span};
use plan_model::needs::FuncNeed;
use plan_report::naming::{put_func, put_periph};
use plan_report::text::Text;
use std::alloc::AllocError;

/// Whether a load or a store of one of these functions may reach a peripheral.
fn is_used(needs: &[FuncNeed], periph: u32) -> bool
    ensures { result ≡ lines.is_used needs.now periph }
{
    for i in 0..needs.len() {
        if needs[i].periphs.as_slice().contains(&periph) {
            return true;
        }
    }
    false
}

/// Puts the line of a peripheral that nobody uses.
fn put_unused(text: &mut Text, subject: &Subject<'_>, periph: u32) -> Result<(), AllocError>
    ensures { OnOk result (text.new ≡ text.old ++ lines.unused_line (subject_of subject.now) periph) }
{
    if is_used(subject.found.needs.funcs.as_slice(), periph) {
        return Ok(());
    }
    text.put(b"never used")?;
    put_periph(text, subject.firmware, periph as usize)?;
    text.put(b"\n")
}

/// Puts the lines of the peripherals that nobody uses.
fn put_periphs(text: &mut Text, subject: &Subject<'_>, periphs: &[Span]) -> Result<(), AllocError>
    ensures { OnOk result (text.new ≡ text.old ++ numbered (lines.periph_line (subject_of subject.now)) 0 (map span_of periphs.now)) }
{
    let Ok(count) = u32::try_from(periphs.len()) else {
        return Err(AllocError);
    };
    for periph in 0..count {
        put_unused(text, subject, periph)?;
    }
    Ok(())
}

/// Whether an object is a constant global.
fn is_constant(program: &Program<'_>, object: &ObjId) -> bool
    ensures { result ≡ lines.is_constant (program_of program.now) object.now }
{
    match *object {
        ObjId::Global(global) => match program.globals.as_slice().get(global as usize) {
            Some(variable) => variable.constant,
            None => false,
        },
        ObjId::Periph(_) => false,
        ObjId::Local { .. } => false,
        ObjId::Func(_) => false,
    }
}

/// Whether there are objects, and all are constant globals.
fn are_constants(program: &Program<'_>, objects: &[ObjId]) -> bool
    ensures { result ≡ lines.are_constants (program_of program.now) objects.now }
{
    if objects.is_empty() {
        return false;
    }
    for i in 0..objects.len() {
        if !is_constant(program, &objects[i]) {
            return false;
        }
    }
    true
}

/// Puts the line of a store, if it stores to constants alone.
fn put_constant_store(
    text: &mut Text,
    subject: &Subject<'_>,
    place: InstPlace,
    register: usize,
) -> Result<(), AllocError>
    ensures { OnOk result (text.new ≡ text.old ++ lines.store_line (subject_of subject.now) place.func place.block place.inst register) }
{
    if are_constants(subject.program, objects_of(subject, place.func, register)) {
        text.put(b"stores to const ")?;
        put_place(text, subject.firmware, place)?;
        return text.put(b"\n");
    }
    Ok(())
}

/// Puts the line of an instruction, if it stores to constants alone.
fn put_inst(
    text: &mut Text,
    subject: &Subject<'_>,
    place: InstPlace,
    operation: &Operation<'_>,
) -> Result<(), AllocError>
    ensures { OnOk result ((ks : List Known) → text.new ≡ text.old ++ lines.const_line (subject_of subject.now) place.func place.block place.inst (operation_of ks operation.now)) }
{
    match operation {
        Operation::Store { to, .. } => put_constant_store(text, subject, place, *to),
        Operation::Load { .. } => Ok(()),
        Operation::Call { .. } => Ok(()),
        Operation::ICall { .. } => Ok(()),
        Operation::Const { .. } => Ok(()),
        Operation::Move { .. } => Ok(()),
        Operation::Bin { .. } => Ok(()),
        Operation::Cmp { .. } => Ok(()),
        Operation::Addr { .. } => Ok(()),
        Operation::FAddr { .. } => Ok(()),
        Operation::Elem { .. } => Ok(()),
        Operation::Field { .. } => Ok(()),
    }
}

/// Puts the lines of stores to constants in a block.
fn put_insts(
    text: &mut Text,
    subject: &Subject<'_>,
    func: u32,
    block: u32,
    operations: &[Operation<'_>],
) -> Result<(), AllocError>
    ensures { OnOk result ((ks : List Known) → text.new ≡ text.old ++ numbered (lines.const_line (subject_of subject.now) func block) 0 (map (operation_of ks) operations.now)) }
{
    for inst in 0..operations.len() {
        let place = InstPlace { func, block, inst };
        put_inst(text, subject, place, &operations[inst])?;
    }
    Ok(())
}

/// Puts the line of a block.
fn put_unreached_block(
    text: &mut Text,
    subject: &Subject<'_>,
    func: u32,
    block: u32,
) -> Result<(), AllocError>
    ensures { OnOk result (text.new ≡ text.old ++ lines.unreached_text (subject_of subject.now) func block) }
{
    text.put(b"never reached ")?;
    put_block(text, subject.firmware, func, block)?;
    text.put(b"\n")
}

/// Puts the line of a block that is not reached.
fn put_unreached(
    text: &mut Text,
    subject: &Subject<'_>,
    func: u32,
    block: u32,
) -> Result<(), AllocError>
    ensures { OnOk result (text.new ≡ text.old ++ lines.unreached_line (subject_of subject.now) func block) }
{
    if is_entered(subject, func, block) {
        return Ok(());
    }
    put_unreached_block(text, subject, func, block)
}

/// Puts the warnings of a block.
fn put_block_warnings(
    text: &mut Text,
    subject: &Subject<'_>,
    func: u32,
    block: u32,
    operations: &[Operation<'_>],
) -> Result<(), AllocError>
    ensures { OnOk result ((ks : List Known) → text.new ≡ text.old ++ (lines.unreached_line (subject_of subject.now) func block ++ numbered (lines.const_line (subject_of subject.now) func block) 0 (map (operation_of ks) operations.now))) }
{
    put_unreached(text, subject, func, block)?;
    put_insts(text, subject, func, block, operations)
}

/// Puts the warnings of the blocks of a function.
fn put_blocks(
    text: &mut Text,
    subject: &Subject<'_>,
    func: u32,
    blocks: &[Sequence<'_>],
) -> Result<(), AllocError>
    ensures { OnOk result ((ks : List Known) → text.new ≡ text.old ++ numbered (lines.block_warnings (subject_of subject.now) func) 0 (map (sequence_of ks) blocks.now)) }
{
    let Ok(count) = u32::try_from(blocks.len()) else {
        return Err(AllocError);
    };
    for block in 0..count {
        let operations = blocks[block as usize].operations.as_slice();
        put_block_warnings(text, subject, func, block, operations)?;
    }
    Ok(())
}

/// Puts the line of a function that is not called.
fn put_uncalled(text: &mut Text, subject: &Subject<'_>, func: u32) -> Result<(), AllocError>
    ensures { OnOk result (text.new ≡ text.old ++ lines.uncalled_line (subject_of subject.now) func) }
{
    if is_called(subject, func) {
        return Ok(());
    }
    text.put(b"never called ")?;
    put_func(text, subject.firmware, func)?;
    text.put(b"\n")
}

/// Puts the warnings of a function.
fn put_func_warnings(
    text: &mut Text,
    subject: &Subject<'_>,
    func: u32,
    blocks: &[Sequence<'_>],
) -> Result<(), AllocError>
    ensures { OnOk result ((ks : List Known) → text.new ≡ text.old ++ (lines.uncalled_line (subject_of subject.now) func ++ numbered (lines.block_warnings (subject_of subject.now) func) 0 (map (sequence_of ks) blocks.now))) }
{
    put_uncalled(text, subject, func)?;
    put_blocks(text, subject, func, blocks)
}

/// Puts the warnings of these functions, which are all.
fn put_funcs(
    text: &mut Text,
    subject: &Subject<'_>,
    funcs: &[Routine<'_>],
) -> Result<(), AllocError>
    ensures { OnOk result ((ks : List Known) → text.new ≡ text.old ++ numbered (lines.func_warnings (subject_of subject.now)) 0 (map (routine_of ks) funcs.now)) }
{
    let Ok(count) = u32::try_from(funcs.len()) else {
        return Err(AllocError);
    };
    for func in 0..count {
        let blocks = funcs[func as usize].blocks.as_slice();
        put_func_warnings(text, subject, func, blocks)?;
    }
    Ok(())
}

/// Puts all warnings.
pub(crate) fn put_warnings(text: &mut Text, subject: &Subject<'_>) -> Result<(), AllocError>
    ensures { OnOk result (text.new ≡ text.old ++ lines.warning_lines (subject_of subject.now)) }
{
    put_periphs(text, subject, subject.program.periphs.as_slice())?;
    put_funcs(text, subject, subject.program.funcs.as_slice())
}
