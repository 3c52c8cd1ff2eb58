//! The functions that a call through a register may go to.

ghost use Rattle.std.specs.Prelude.{◌≡◌, ◌↔◌, ◌<◌, ◌^◌, ◌⊎◌, ℕ, IfOk, OnOk, Contains, length};
ghost use Rattle.std.specs.Ordering.{nat_cmp};
ghost use Rattle.ir_model.specs.declared.object.ObjId as objects;
ghost use Rattle.ir_model.specs.Objects.{object_by};
ghost use Rattle.ir_model.specs.Resolved.{func_at};
ghost use Rattle.ir_model.specs.State.{FunctionObject};
ghost use Rattle.ir_model.specs.Types.{type_of};
ghost use Rattle.ir_program.specs.Seen.{program_of};
ghost use Rattle.need_sets.specs.Sets.{sets_of};
ghost use Rattle.plan_model.specs.Lists.{ListsExactly};
ghost use Rattle.needs.specs.Accesses.{IsTarget, HasTargets};
ghost use Rattle.needs.specs.Targets.{IsFunctionOf};
ghost use Rattle.needs.specs.Targets.{FunctionsAreThere};

use base_lists::ListVec;
use ir_model::object::ObjId;
use ir_model::types::Ty;
use ir_program::program::Program;
use ir_types::callee::has_type;
use need_lists::each_once;
use need_sets::{Node, PointsTo};
use std::alloc::{AllocError, Global};

fn push_target(
    program: &Program,
    object: ObjId,
    ty: &Ty,
    targets: &mut Vec<u32>,
) -> Result<(), AllocError>
    requires { (h : ℕ) → object_by object ≡ FunctionObject h → h < length program.now.funcs }
    ensures { OnOk result ((h : ℕ) → Contains targets.new.items h ↔ (Contains targets.old.items h ⊎ IsFunctionOf (program_of program.now) (type_of ty.now) h object)) }
{
    match object {
        ObjId::Func(func) => {
            if has_type(program.funcs.as_slice()[func as usize].source, ty) {
                targets.push(func)?;
            }
            Ok(())
        }
        ObjId::Global(_) => Ok(()),
        ObjId::Periph(_) => Ok(()),
        ObjId::Local { .. } => Ok(()),
    }
}

fn targets(
    alloc: Global,
    program: &Program,
    pts: &PointsTo,
    func: usize,
    register: usize,
) -> Result<Vec<u32>, AllocError>
    requires func { func < length program.now.funcs }
    requires funcs { length program.now.funcs < 2 ^ 32 }
    requires register { register < length (func_at (program_of program.now) func).regs }
    requires registers { length (func_at (program_of program.now) func).regs < 2 ^ 32 }
    requires there { FunctionsAreThere (program_of program.now) (sets_of pts.now) }
    ensures { IfOk result (λ ts. ListsExactly nat_cmp (IsTarget (program_of program.now) (sets_of pts.now) func register) ts.items) }
{
    let ty = program.funcs.as_slice()[func].registers.as_slice()[register];
    let objects = pts.of(&Node::Reg {
        func: func as u32,
        reg: register as u32,
    });
    let mut targets = Vec::new(alloc);
    for i in 0..objects.len() {
        push_target(program, objects[i], ty, &mut targets)?;
    }
    each_once(targets)
}

/// The functions that calls through each register of a function may go to, in rising order.
pub(crate) fn all_targets(
    alloc: Global,
    program: &Program,
    pts: &PointsTo,
    func: usize,
) -> Result<Vec<ListVec<u32>>, AllocError>
    requires func { func < length program.now.funcs }
    requires funcs { length program.now.funcs < 2 ^ 32 }
    requires registers { length (func_at (program_of program.now) func).regs < 2 ^ 32 }
    requires there { FunctionsAreThere (program_of program.now) (sets_of pts.now) }
    ensures count { IfOk result (λ ts. length ts.items ≡ length (func_at (program_of program.now) func).regs) }
    ensures each { IfOk result (λ ts. HasTargets (program_of program.now) (sets_of pts.now) func ts.items) }
{
    let count = program.funcs.as_slice()[func].registers.len();
    let mut all = Vec::new(alloc);
    for register in 0..count {
        let next = targets(alloc, program, pts, func, register)?;
        all.push(ListVec::new(next))?;
    }
    Ok(all)
}
