//! The objects that a function reads and writes.

ghost use Rattle.std.specs.Prelude.{◌≡◌, ◌↔◌, ◌<◌, ◌^◌, ◌⊎◌, true, IfOk, OnOk, Contains};
ghost use Rattle.std.specs.List.{All};
ghost use Rattle.ir_model.specs.declared.object.ObjId as ids;
ghost use Rattle.ir_model.specs.Objects.{object_by, compare_objects};
ghost use Rattle.ir_program.specs.Seen.{program_of};
ghost use Rattle.need_sets.specs.Sets.{sets_of};
ghost use Rattle.ir_laws.specs.Sets.{Register};
ghost use Rattle.plan_model.specs.Lists.{ListsExactly};
ghost use Rattle.need_lists.specs.AnyOf.{AnyOf};
ghost use Rattle.needs.specs.Accesses.{Reaches, is_open};
ghost use Rattle.needs.specs.Bounds.{HasSmallRegister};

use crate::{Access, Use};
use ir_model::object::ObjId;
use ir_program::program::Program;
use need_lists::each_once;
use need_sets::{Node, PointsTo};
use std::alloc::{AllocError, Global};

fn push_pointed(
    pts: &PointsTo,
    func: u32,
    register: usize,
    objects: &mut Vec<ObjId>,
) -> Result<(), AllocError>
    requires { register < 2 ^ 32 }
    ensures { OnOk result ((o : ids.ObjId) → Contains objects.new.items o ↔ (Contains objects.old.items o ⊎ (sets_of pts.now (Register func register) (object_by o) ≡ true))) }
{
    let pointed = pts.of(&Node::Reg {
        func,
        reg: register as u32,
    });
    objects.extend_from_slice(pointed)?;
    Ok(())
}

fn push_objects(
    pts: &PointsTo,
    func: u32,
    access: Access,
    by: Use,
    objects: &mut Vec<ObjId>,
) -> Result<(), AllocError>
    requires { HasSmallRegister by }
    ensures { OnOk result ((o : ids.ObjId) → Contains objects.new.items o ↔ (Contains objects.old.items o ⊎ Reaches (sets_of pts.now) func access (object_by o) by)) }
{
    match access {
        Access::Read => match by {
            Use::Load(register) => push_pointed(pts, func, register, objects),
            Use::Store(_) => Ok(()),
            Use::Call(_) => Ok(()),
            Use::Indirect(_) => Ok(()),
        },
        Access::Write => match by {
            Use::Store(register) => push_pointed(pts, func, register, objects),
            Use::Load(_) => Ok(()),
            Use::Call(_) => Ok(()),
            Use::Indirect(_) => Ok(()),
        },
    }
}

fn all_objects(
    alloc: Global,
    pts: &PointsTo,
    func: u32,
    access: Access,
    uses: &[Use],
) -> Result<Vec<ObjId>, AllocError>
    requires { All HasSmallRegister uses.now }
    ensures { IfOk result (λ os. ListsExactly compare_objects (λ o. AnyOf (Reaches (sets_of pts.now) func access (object_by o)) uses.now) os.items) }
{
    let mut objects = Vec::new(alloc);
    for i in 0..uses.len() {
        push_objects(pts, func, access, uses[i], &mut objects)?;
    }
    each_once(objects)
}

fn is_open(program: &Program, access: Access, object: ObjId) -> bool
    ensures { result ≡ is_open (program_of program.now) access object }
{
    match object {
        ObjId::Global(global) => match access {
            Access::Read => true,
            Access::Write => match program.globals.as_slice().get(global as usize) {
                Some(variable) => !variable.constant,
                None => true,
            },
        },
        ObjId::Periph(_) => true,
        ObjId::Local { .. } => true,
        ObjId::Func(_) => false,
    }
}

/// The objects that a function reads or writes, in rising order: no functions, and of globals that are written only those that are not
/// constant.
pub(crate) fn objects(
    alloc: Global,
    program: &Program,
    pts: &PointsTo,
    func: u32,
    access: Access,
    uses: &[Use],
) -> Result<Vec<ObjId>, AllocError>
    requires { All HasSmallRegister uses.now }
    ensures { IfOk result (λ os. ListsExactly compare_objects (λ o. (is_open (program_of program.now) access o ≡ true) × AnyOf (Reaches (sets_of pts.now) func access (object_by o)) uses.now) os.items) }
{
    let all = all_objects(alloc, pts, func, access, uses)?;
    let mut open = Vec::new(alloc);
    for i in 0..all.len() {
        if is_open(program, access, all[i]) {
            open.push(all[i])?;
        }
    }
    Ok(open)
}
