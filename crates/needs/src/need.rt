//! What one function may write, read and call.

ghost use Rattle.std.specs.Prelude.{◌≡◌, ◌↔◌, ◌⊎◌, ◌<◌, ℕ, IfOk, OnOk, Contains, length};
ghost use Rattle.std.specs.Ordering.{nat_cmp};
ghost use Rattle.ir_model.specs.declared.object.ObjId.TheVariants as id;
ghost use Rattle.ir_model.specs.Resolved.{func_at};
ghost use Rattle.ir_program.specs.Seen.{program_of};
ghost use Rattle.need_sets.specs.Sets.{sets_of};
ghost use Rattle.plan_model.specs.Lists.{ListsExactly};
ghost use Rattle.plan_model.specs.Needs.{IsNeedOf};
ghost use Rattle.needs.specs.Accesses.{HasTargets};
ghost use Rattle.needs.specs.Bounds.{HasSmallNumbers, RegistersAreThere};

use crate::objects::objects;
use crate::{Access, callees, uses};
use base_lists::ListVec;
use ir_model::object::ObjId;
use ir_program::program::Program;
use need_lists::each_once;
use need_sets::PointsTo;
use plan_model::needs::FuncNeed;
use std::alloc::{AllocError, Global};

fn push_periph(object: ObjId, periphs: &mut Vec<u32>) -> Result<(), AllocError>
    ensures { OnOk result ((q : ℕ) → Contains periphs.new.items q ↔ (Contains periphs.old.items q ⊎ (object ≡ id.Periph q))) }
{
    match object {
        ObjId::Periph(periph) => {
            periphs.push(periph)?;
            Ok(())
        }
        ObjId::Global(_) => Ok(()),
        ObjId::Local { .. } => Ok(()),
        ObjId::Func(_) => Ok(()),
    }
}

fn periphs_of(alloc: Global, objects: &[ObjId]) -> Result<Vec<u32>, AllocError>
    ensures { IfOk result (λ qs. (q : ℕ) → Contains qs.items q ↔ Contains objects.now (id.Periph q)) }
{
    let mut periphs = Vec::new(alloc);
    for i in 0..objects.len() {
        push_periph(objects[i], &mut periphs)?;
    }
    Ok(periphs)
}

/// The numbers of the peripherals among objects, in rising order.
fn periphs(alloc: Global, written: &[ObjId], read: &[ObjId]) -> Result<Vec<u32>, AllocError>
    ensures { IfOk result (λ qs. ListsExactly nat_cmp (λ q. Contains written.now (id.Periph q) ⊎ Contains read.now (id.Periph q)) qs.items) }
{
    let mut all = periphs_of(alloc, written)?;
    let others = periphs_of(alloc, read)?;
    all.extend_from_slice(others.as_slice())?;
    each_once(all)
}

/// What a function may write, read and call: `targets` has the functions that a call through each of its registers may go to.
pub(crate) fn need(
    alloc: Global,
    program: &Program,
    pts: &PointsTo,
    func: usize,
    targets: &[ListVec<u32>],
) -> Result<FuncNeed, AllocError>
    requires func { func < length program.now.funcs }
    requires numbers { HasSmallNumbers (program_of program.now) }
    requires registers { RegistersAreThere (program_of program.now) }
    requires targets { HasTargets (program_of program.now) (sets_of pts.now) func targets.now }
    requires count { length targets.now ≡ length (func_at (program_of program.now) func).regs }
    ensures { IfOk result (IsNeedOf (program_of program.now) (sets_of pts.now) func) }
{
    let routine = &program.funcs.as_slice()[func];
    let uses = uses(alloc, routine.blocks.as_slice())?;
    let number = func as u32;
    let written = objects(alloc, program, pts, number, Access::Write, uses.as_slice())?;
    let read = objects(alloc, program, pts, number, Access::Read, uses.as_slice())?;
    let periphs = periphs(alloc, written.as_slice(), read.as_slice())?;
    let callees = callees(alloc, targets, uses.as_slice())?;
    Ok(FuncNeed {
        written: ListVec::new(written),
        read: ListVec::new(read),
        periphs: ListVec::new(periphs),
        callees: ListVec::new(callees),
    })
}
