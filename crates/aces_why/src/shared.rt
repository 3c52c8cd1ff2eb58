//! The lines of registers that are stored through and may stand for several objects.

ghost use Rattle.std.specs.Prelude.{◌≡◌, ◌++◌, List, map, OnOk};
ghost use Rattle.std.specs.List.{list_any};
ghost use Rattle.ir_model.specs.Layout.{Known};
ghost use Rattle.ir_program.specs.Parts.{operation_of, sequence_of, routine_of};
ghost use Rattle.aces_why.specs.Shared as lines;
ghost use Rattle.aces_why.specs.Numbered.{numbered};
ghost use Rattle.aces_why.specs.Subjects.{subject_of};

use crate::places::put_objects;
use crate::rows::rows_of;
use crate::subject::Subject;
use base_lists::ListVec;
use ir_model::object::ObjId;
use ir_program::program::{Operation, Routine, Sequence};
use plan_report::naming::{put_func, put_register};
use plan_report::text::Text;
use std::alloc::AllocError;

/// Whether an instruction stores through a register.
fn is_store_by(operation: &Operation<'_>, register: usize) -> bool
    ensures { (ks : List Known) → result ≡ lines.is_store_by register (operation_of ks operation.now) }
{
    match operation {
        Operation::Store { to, .. } => *to == register,
        Operation::Load { .. } => false,
        Operation::Call { .. } => false,
        Operation::ICall { .. } => false,
        Operation::Const { .. } => false,
        Operation::Move { .. } => false,
        Operation::Bin { .. } => false,
        Operation::Cmp { .. } => false,
        Operation::Addr { .. } => false,
        Operation::FAddr { .. } => false,
        Operation::Elem { .. } => false,
        Operation::Field { .. } => false,
    }
}

/// Whether one of these instructions stores through a register.
fn is_stored_in(operations: &[Operation<'_>], register: usize) -> bool
    ensures { (ks : List Known) → result ≡ list_any (lines.is_store_by register) (map (operation_of ks) operations.now) }
{
    for i in 0..operations.len() {
        if is_store_by(&operations[i], register) {
            return true;
        }
    }
    false
}

/// Whether one of these blocks stores through a register.
fn is_stored_through(blocks: &[Sequence<'_>], register: usize) -> bool
    ensures { (ks : List Known) → result ≡ lines.is_stored_through (map (sequence_of ks) blocks.now) register }
{
    for i in 0..blocks.len() {
        if is_stored_in(blocks[i].operations.as_slice(), register) {
            return true;
        }
    }
    false
}

/// Puts the line of a register.
fn put_register_line(
    text: &mut Text,
    subject: &Subject<'_>,
    func: u32,
    register: u32,
    objects: &[ObjId],
) -> Result<(), AllocError>
    ensures { OnOk result (text.new ≡ text.old ++ lines.shared_text (subject_of subject.now) func register objects.now) }
{
    text.put(b"shared ")?;
    put_func(text, subject.firmware, func)?;
    text.put(b" ")?;
    put_register(text, subject.firmware, func, register as usize)?;
    put_objects(text, subject.firmware, objects)?;
    text.put(b"\n")
}

/// Puts the line of a register, if it stands for several objects and is stored through.
fn put_shared_register(
    text: &mut Text,
    subject: &Subject<'_>,
    func: u32,
    blocks: &[Sequence<'_>],
    register: u32,
    objects: &[ObjId],
) -> Result<(), AllocError>
    ensures { OnOk result ((ks : List Known) → text.new ≡ text.old ++ lines.shared_line (subject_of subject.now) func (map (sequence_of ks) blocks.now) register objects.now) }
{
    if objects.len() > 1 && is_stored_through(blocks, register as usize) {
        return put_register_line(text, subject, func, register, objects);
    }
    Ok(())
}

/// Puts the lines of the registers that have these objects.
fn put_rows(
    text: &mut Text,
    subject: &Subject<'_>,
    func: u32,
    blocks: &[Sequence<'_>],
    rows: &[ListVec<ObjId>],
) -> Result<(), AllocError>
    ensures { OnOk result ((ks : List Known) → text.new ≡ text.old ++ numbered (lines.shared_line (subject_of subject.now) func (map (sequence_of ks) blocks.now)) 0 rows.now) }
{
    let Ok(count) = u32::try_from(rows.len()) else {
        return Err(AllocError);
    };
    for register in 0..count {
        let objects = rows[register as usize].as_slice();
        put_shared_register(text, subject, func, blocks, register, objects)?;
    }
    Ok(())
}

/// Puts the lines of the registers of these functions, which are all.
pub(crate) fn put_shared(
    text: &mut Text,
    subject: &Subject<'_>,
    funcs: &[Routine<'_>],
) -> Result<(), AllocError>
    ensures { OnOk result ((ks : List Known) → text.new ≡ text.old ++ numbered (lines.shared_in (subject_of subject.now)) 0 (map (routine_of ks) funcs.now)) }
{
    let Ok(count) = u32::try_from(funcs.len()) else {
        return Err(AllocError);
    };
    for func in 0..count {
        let blocks = funcs[func as usize].blocks.as_slice();
        put_rows(text, subject, func, blocks, rows_of(subject, func))?;
    }
    Ok(())
}
