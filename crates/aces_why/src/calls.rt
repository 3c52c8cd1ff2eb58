//! What calls through registers may go to.

ghost use Rattle.std.specs.Prelude.{◌≡◌, ◌++◌, OnOk};
ghost use Rattle.ir_model.specs.Plain.{func_of};
ghost use Rattle.ir_model.specs.Resolve.{row_from};
ghost use Rattle.ir_model.specs.Resolved as plain;
ghost use Rattle.ir_model.specs.Types.{same, Callee};
ghost use Rattle.ir_program.specs.Seen.{program_of};
ghost use Rattle.ir_program.specs.Storages.{pointee_of};
ghost use Rattle.aces_why.specs.Lines as lines;
ghost use Rattle.aces_why.specs.Subjects.{subject_of};

use crate::places::put_object;
use crate::rows::objects_of;
use crate::subject::Subject;
use ir_model::firmware::Func;
use ir_model::object::ObjId;
use ir_model::types::Ty;
use ir_program::program::Program;
use ir_types::callee::is_callee;
use plan_report::text::Text;
use std::alloc::AllocError;

/// The type of a function's register, where it is there.
fn register_type<'a>(program: &Program<'a>, func: u32, register: usize) -> Option<&'a Ty>
    ensures { pointee_of result ≡ plain.register_type (program_of program.now) func register }
{
    match program.funcs.as_slice().get(func as usize) {
        Some(routine) => match routine.registers.as_slice().get(register) {
            Some(ty) => Some(*ty),
            None => None,
        },
        None => None,
    }
}

/// Whether a function's address is of a type.
fn has_type(target: &Func, ty: Option<&Ty>) -> bool
    ensures { result ≡ same (Callee (row_from (func_of target.now).params) (func_of target.now).outcome) (pointee_of ty.entry) }
{
    match ty {
        Some(ty) => is_callee(target, ty),
        None => false,
    }
}

/// Whether a call through a register may go to an object.
fn is_target(program: &Program<'_>, func: u32, register: usize, object: &ObjId) -> bool
    ensures { result ≡ lines.is_target (program_of program.now) func register object.now }
{
    match *object {
        ObjId::Func(number) => match program.funcs.as_slice().get(number as usize) {
            Some(target) => has_type(target.source, register_type(program, func, register)),
            None => false,
        },
        ObjId::Global(_) => false,
        ObjId::Periph(_) => false,
        ObjId::Local { .. } => false,
    }
}

/// Puts the functions that a call through a register may go to.
pub(crate) fn put_targets(
    text: &mut Text,
    subject: &Subject<'_>,
    func: u32,
    register: usize,
) -> Result<(), AllocError>
    ensures { OnOk result (text.new ≡ text.old ++ lines.objects_text (subject_of subject.now).firmware (lines.targets_of (subject_of subject.now) func register)) }
{
    let objects = objects_of(subject, func, register);
    for i in 0..objects.len() {
        if is_target(subject.program, func, register, &objects[i]) {
            put_object(text, subject.firmware, &objects[i])?;
        }
    }
    Ok(())
}
