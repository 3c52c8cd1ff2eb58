//! What was found of a function, a register or a block, by their numbers.

ghost use Rattle.std.specs.Prelude.{◌≡◌, [], false, get_or};
ghost use Rattle.aces_why.specs.Subjects.{subject_of, objects_of};

use crate::subject::Subject;
use base_lists::ListVec;
use ir_model::object::ObjId;

/// The objects of each register of a function.
pub(crate) fn rows_of<'a>(subject: &Subject<'a>, func: u32) -> &'a [ListVec<ObjId>]
    ensures { result.now ≡ get_or subject.now.found.now.sets func [] }
{
    match subject.found.sets.as_slice().get(func as usize) {
        Some(rows) => rows.as_slice(),
        None => &[],
    }
}

/// The objects of the register of a number.
pub(crate) fn row_at(rows: &[ListVec<ObjId>], register: usize) -> &[ObjId]
    ensures { result.now ≡ get_or rows.now register [] }
{
    match rows.get(register) {
        Some(row) => row.as_slice(),
        None => &[],
    }
}

/// The objects that a register of a function may stand for.
pub(crate) fn objects_of<'a>(subject: &Subject<'a>, func: u32, register: usize) -> &'a [ObjId]
    ensures { result.now ≡ objects_of (subject_of subject.now) func register }
{
    row_at(rows_of(subject, func), register)
}

/// A flag by its number; an absent one is not set.
fn flag_at(flags: &[bool], number: u32) -> bool
    ensures { result ≡ get_or flags.now number false }
{
    match flags.get(number as usize) {
        Some(flag) => *flag,
        None => false,
    }
}

/// The flags of a function's blocks.
fn entered_of<'a>(subject: &Subject<'a>, func: u32) -> &'a [bool]
    ensures { result.now ≡ get_or subject.now.found.now.entered func [] }
{
    match subject.found.entered.as_slice().get(func as usize) {
        Some(flags) => flags.as_slice(),
        None => &[],
    }
}

/// Whether a function is called.
pub(crate) fn is_called(subject: &Subject<'_>, func: u32) -> bool
    ensures { result ≡ get_or subject.now.found.now.called func false }
{
    flag_at(subject.found.called.as_slice(), func)
}

/// Whether a block of a function is reached.
pub(crate) fn is_entered(subject: &Subject<'_>, func: u32, block: u32) -> bool
    ensures { result ≡ get_or (get_or subject.now.found.now.entered func []) block false }
{
    flag_at(entered_of(subject, func), block)
}
