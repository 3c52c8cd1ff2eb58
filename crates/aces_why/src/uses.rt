//! The lines of loads, stores and calls.

ghost use Rattle.std.specs.Prelude.{◌≡◌, ◌++◌, List, map, OnOk};
ghost use Rattle.ir_model.specs.Layout.{Known};
ghost use Rattle.ir_program.specs.Parts.{operation_of, sequence_of, routine_of};
ghost use Rattle.aces_why.specs.Lines as lines;
ghost use Rattle.aces_why.specs.Numbered.{numbered};
ghost use Rattle.aces_why.specs.Subjects as subjects;
ghost use Rattle.aces_why.specs.Subjects.{subject_of};

use crate::calls::put_targets;
use crate::places::{InstPlace, put_object, put_objects, put_place};
use crate::rows::objects_of;
use crate::subject::Subject;
use ir_model::object::ObjId;
use ir_program::program::{Operation, Routine, Sequence};
use plan_report::text::Text;
use std::alloc::AllocError;

/// Puts the line of a load or a store by a register.
fn put_access(
    text: &mut Text,
    subject: &Subject<'_>,
    word: &[u8],
    place: InstPlace,
    register: usize,
) -> Result<(), AllocError>
    ensures { OnOk result (text.new ≡ text.old ++ lines.use_line (subject_of subject.now) word.now place.func place.block place.inst (subjects.objects_of (subject_of subject.now) place.func register)) }
{
    text.put(word)?;
    put_place(text, subject.firmware, place)?;
    put_objects(
        text,
        subject.firmware,
        objects_of(subject, place.func, register),
    )?;
    text.put(b"\n")
}

/// Puts the line of a call of a function.
fn put_call(
    text: &mut Text,
    subject: &Subject<'_>,
    place: InstPlace,
    callee: u32,
) -> Result<(), AllocError>
    ensures { OnOk result (text.new ≡ text.old ++ lines.call_line (subject_of subject.now) place.func place.block place.inst callee) }
{
    text.put(b"call ")?;
    put_place(text, subject.firmware, place)?;
    put_object(text, subject.firmware, &ObjId::Func(callee))?;
    text.put(b"\n")
}

/// Puts the line of a call through a register.
fn put_icall(
    text: &mut Text,
    subject: &Subject<'_>,
    place: InstPlace,
    register: usize,
) -> Result<(), AllocError>
    ensures { OnOk result (text.new ≡ text.old ++ lines.icall_line (subject_of subject.now) place.func place.block place.inst register) }
{
    text.put(b"icall ")?;
    put_place(text, subject.firmware, place)?;
    put_targets(text, subject, place.func, register)?;
    text.put(b"\n")
}

/// Puts the line of an instruction, if it is a load, a store or a call.
fn put_use(
    text: &mut Text,
    subject: &Subject<'_>,
    place: InstPlace,
    operation: &Operation<'_>,
) -> Result<(), AllocError>
    ensures { OnOk result ((ks : List Known) → text.new ≡ text.old ++ lines.inst_line (subject_of subject.now) place.func place.block place.inst (operation_of ks operation.now)) }
{
    match operation {
        Operation::Load { from, .. } => put_access(text, subject, b"load ", place, *from),
        Operation::Store { to, .. } => put_access(text, subject, b"store ", place, *to),
        Operation::Call { func, .. } => put_call(text, subject, place, u32::from(*func)),
        Operation::ICall { func, .. } => put_icall(text, subject, place, *func),
        Operation::Const { .. } => Ok(()),
        Operation::Move { .. } => Ok(()),
        Operation::Bin { .. } => Ok(()),
        Operation::Cmp { .. } => Ok(()),
        Operation::Addr { .. } => Ok(()),
        Operation::FAddr { .. } => Ok(()),
        Operation::Elem { .. } => Ok(()),
        Operation::Field { .. } => Ok(()),
    }
}

/// Puts the lines of a block.
fn put_block_uses(
    text: &mut Text,
    subject: &Subject<'_>,
    func: u32,
    block: u32,
    operations: &[Operation<'_>],
) -> Result<(), AllocError>
    ensures { OnOk result ((ks : List Known) → text.new ≡ text.old ++ numbered (lines.inst_line (subject_of subject.now) func block) 0 (map (operation_of ks) operations.now)) }
{
    for inst in 0..operations.len() {
        let place = InstPlace { func, block, inst };
        put_use(text, subject, place, &operations[inst])?;
    }
    Ok(())
}

/// Puts the lines of a function.
fn put_func_uses(
    text: &mut Text,
    subject: &Subject<'_>,
    func: u32,
    blocks: &[Sequence<'_>],
) -> Result<(), AllocError>
    ensures { OnOk result ((ks : List Known) → text.new ≡ text.old ++ numbered (lines.block_lines (subject_of subject.now) func) 0 (map (sequence_of ks) blocks.now)) }
{
    let Ok(count) = u32::try_from(blocks.len()) else {
        return Err(AllocError);
    };
    for block in 0..count {
        let operations = blocks[block as usize].operations.as_slice();
        put_block_uses(text, subject, func, block, operations)?;
    }
    Ok(())
}

/// Puts the lines of these functions, which are all.
pub(crate) fn put_uses(
    text: &mut Text,
    subject: &Subject<'_>,
    funcs: &[Routine<'_>],
) -> Result<(), AllocError>
    ensures { OnOk result ((ks : List Known) → text.new ≡ text.old ++ numbered (lines.func_lines (subject_of subject.now)) 0 (map (routine_of ks) funcs.now)) }
{
    let Ok(count) = u32::try_from(funcs.len()) else {
        return Err(AllocError);
    };
    for func in 0..count {
        let blocks = funcs[func as usize].blocks.as_slice();
        put_func_uses(text, subject, func, blocks)?;
    }
    Ok(())
}
