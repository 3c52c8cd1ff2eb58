//! The locals that may have to be written or read while their function waits for another.

ghost use Rattle.std.specs.Prelude.{◌↔◌, ◌<◌, ◌^◌, ◌⊎◌, ℕ, IfOk, OnOk, IsTrue, Contains, length};
ghost use Rattle.ir_model.specs.Resolved.{func_at};
ghost use Rattle.ir_program.specs.Seen.{program_of};
ghost use Rattle.plan_model.specs.Lists.{ListsExactly};
ghost use Rattle.plan_model.specs.Lendable.{compare_locals};
ghost use Rattle.need_lists.specs.AnyOf.{AnyOf};
ghost use Rattle.needs.specs.Lent.{HasFewLocals, Lends, IsLentBy, IsOwnOf, IsLendableFor, IsLendableByNeeds};

use crate::recursive;
use ir_model::object::ObjId;
use ir_program::locals::local_count;
use ir_program::program::Program;
use need_lists::each_once;
use plan_model::needs::FuncNeed;
use std::alloc::{AllocError, Global};

/// Whether a function is there, and has a local.
fn has_local(program: &Program, func: u32, local: u32) -> bool
    ensures { IsTrue result ↔ (local < length (func_at (program_of program.now) func).locals) }
{
    (local as usize) < local_count(program, func as usize)
}

// An object that function `by` reaches, where it is a local of another.
fn push_other(
    program: &Program,
    by: usize,
    object: ObjId,
    locals: &mut Vec<(u32, u32)>,
) -> Result<(), AllocError>
    ensures { OnOk result ((x : ℕ × ℕ) → Contains locals.new.items x ↔ (Contains locals.old.items x ⊎ Lends (program_of program.now) by x object)) }
{
    match object {
        ObjId::Local { func, local } => {
            if func as usize != by && has_local(program, func, local) {
                locals.push((func, local))?;
            }
            Ok(())
        }
        ObjId::Global(_) => Ok(()),
        ObjId::Periph(_) => Ok(()),
        ObjId::Func(_) => Ok(()),
    }
}

/// The locals of other functions among the objects that a function reaches.
fn others_of(
    alloc: Global,
    program: &Program,
    by: usize,
    objects: &[ObjId],
) -> Result<Vec<(u32, u32)>, AllocError>
    ensures { IfOk result (λ ls. (x : ℕ × ℕ) → Contains ls.items x ↔ AnyOf (Lends (program_of program.now) by x) objects.now) }
{
    let mut locals = Vec::new(alloc);
    for i in 0..objects.len() {
        push_other(program, by, objects[i], &mut locals)?;
    }
    Ok(locals)
}

/// The locals of other functions that a function may write or, on a closed board, read.
fn lent_by(
    alloc: Global,
    program: &Program,
    by: usize,
    need: &FuncNeed,
    closed: bool,
) -> Result<Vec<(u32, u32)>, AllocError>
    ensures { IfOk result (λ ls. (x : ℕ × ℕ) → Contains ls.items x ↔ IsLentBy (program_of program.now) closed by need.now x) }
{
    let mut locals = others_of(alloc, program, by, need.written.as_slice())?;
    if closed {
        let read = others_of(alloc, program, by, need.read.as_slice())?;
        locals.extend_from_slice(read.as_slice())?;
    }
    Ok(locals)
}

/// The locals of a function.
fn own(alloc: Global, program: &Program, func: usize) -> Result<Vec<(u32, u32)>, AllocError>
    requires func { func < 2 ^ 32 }
    requires locals { HasFewLocals (program_of program.now) }
    ensures { IfOk result (λ ls. (x : ℕ × ℕ) → Contains ls.items x ↔ IsOwnOf (program_of program.now) func x) }
{
    let mut locals = Vec::new(alloc);
    for local in 0..local_count(program, func) {
        locals.push((func as u32, local as u32))?;
    }
    Ok(locals)
}

/// The locals that are lendable for what one function does: those of others that it reaches, and its own where it reaches itself.
fn lendable_for(
    alloc: Global,
    program: &Program,
    func: usize,
    need: &FuncNeed,
    recursive: bool,
    closed: bool,
) -> Result<Vec<(u32, u32)>, AllocError>
    requires func { func < 2 ^ 32 }
    requires locals { HasFewLocals (program_of program.now) }
    ensures { IfOk result (λ ls. (x : ℕ × ℕ) → Contains ls.items x ↔ IsLendableFor (program_of program.now) closed func need.now recursive x) }
{
    let mut locals = lent_by(alloc, program, func, need, closed)?;
    if recursive {
        let own = own(alloc, program, func)?;
        locals.extend_from_slice(own.as_slice())?;
    }
    Ok(locals)
}

/// The lendable locals by the needs of the functions, in rising order.
///
/// # Errors
///
/// There is no memory for them.
pub fn lendable(
    alloc: Global,
    program: &Program,
    needs: &[FuncNeed],
    closed: bool,
) -> Result<Vec<(u32, u32)>, AllocError>
    requires funcs { length needs.now < 2 ^ 32 }
    requires locals { HasFewLocals (program_of program.now) }
    ensures { IfOk result (λ ls. ListsExactly compare_locals (IsLendableByNeeds (program_of program.now) closed needs.now) ls.items) }
{
    let recursive = recursive(alloc, needs)?;
    let mut locals = Vec::new(alloc);
    for i in 0..needs.len() {
        let more = lendable_for(alloc, program, i, &needs[i], recursive[i], closed)?;
        locals.extend_from_slice(more.as_slice())?;
    }
    each_once(locals)
}
