//! Accesses of locals.

ghost use Rattle.std.specs.Prelude.{◌≡◌, ◌∷◌, [], map, Some};
ghost use Rattle.std.specs.Option.{option_map, option_copied};
ghost use Rattle.std.proofs.Math.ListN.{get_or, set};
ghost use Rattle.ir_laws.specs.Laws.{HasOrderedFrames};
ghost use Rattle.ir_model.specs.Layout.{cell_at};
ghost use Rattle.ir_model.specs.Resolved.{cells_of_local};
ghost use Rattle.ir_model.specs.State as state;
ghost use Rattle.ir_model.specs.Step as step;
ghost use Rattle.ir_program.specs.Values.{value_of};
ghost use Rattle.ir_program.specs.Storages.{pointee_of};
ghost use Rattle.ir_program.specs.Seen.{program_of};
ghost use Rattle.ir_run.specs.Acts.{frame_of};
ghost use Rattle.ir_run.specs.Places.{HasNext};
ghost use Rattle.ir_run.specs.States.{running_of, memory_of, Answers};

use crate::accesses::keep;
use crate::frame::Frame;
use crate::local::Local;
use crate::outcome::{FaultKind, SourceEnd, SourceStep};
use crate::parts::Parts;
use crate::registers::advance;
use crate::typed_cells::cell_number;
use ir_model::types::Ty;
use ir_program::program::Program;
use ir_program::value::Value;

/// The number of the cell of a type at an offset of a local.
#[tactic(auto, unfolding(ir_model::specs::Layout::cell_at))]
pub fn local_cell(program: &Program, of: Local, at: u32, ty: Option<&Ty>) -> Option<u32>
    ensures { result ≡ cell_at (cells_of_local (program_of program.now) of.func of.local) at (pointee_of ty.entry) }
{
    let routines = program.funcs.as_slice();
    let func = usize::from(of.func);
    if func >= routines.len() {
        return None;
    }
    let locals = routines[func].locals.as_slice();
    let local = usize::from(of.local);
    if local >= locals.len() {
        return None;
    }
    cell_number(&program.layouts, locals[local].ty, at, ty)
}

// The frame that holds a local, if its function has not returned.
fn holder(parts: &Parts, of: Local) -> Option<&Frame>
    requires { HasOrderedFrames (running_of parts.now) }
    ensures { option_map frame_of (option_copied result) ≡ step.frame_in (frame_of parts.now.top ∷ map frame_of parts.now.below) of.func of.frame }
{
    if parts.top.number == of.frame && parts.top.func == of.func {
        Some(&parts.top)
    } else {
        parts.below.frame(of.func, of.frame)
    }
}

/// A load of the cell of a type at an offset of a local.
pub fn load_local(
    program: &Program,
    parts: &mut Parts,
    to: usize,
    of: Local,
    at: u32,
    ty: Option<&Ty>,
) -> SourceStep
    requires ordered { HasOrderedFrames (running_of parts.old) }
    requires next { HasNext parts.old.top.place }
    ensures { Answers (step.load_local (program_of program.now) (frame_of parts.old.top) (map frame_of parts.old.below) (memory_of parts.old) to of.func of.local at (pointee_of ty.entry) (step.frame_in (frame_of parts.old.top ∷ map frame_of parts.old.below) of.func of.frame)) result parts.new }
{
    let Some(frame) = holder(parts, of) else {
        return SourceStep::Ended(SourceEnd::Fault(FaultKind::Dead));
    };
    let Some(cell) = local_cell(program, of, at, ty) else {
        return SourceStep::Ended(SourceEnd::Fault(FaultKind::NoCell));
    };
    let value = frame.locals.at(usize::from(of.local), cell as usize);
    keep(parts, to, value);
    SourceStep::Ran
}

// Writes a cell of a local, and goes on.
#[tactic(auto, using(crate::proofs::Writing::written_global))]
fn write_local(parts: &mut Parts, of: Local, cell: u32, value: Value)
    requires ordered { HasOrderedFrames (running_of parts.old) }
    requires next { HasNext parts.old.top.place }
    ensures { (held : state.Frame) → step.frame_in (frame_of parts.old.top ∷ map frame_of parts.old.below) of.func of.frame ≡ Some held →
        running_of parts.new ≡ state.Running (step.with_local (step.onward (frame_of parts.old.top) ∷ map frame_of parts.old.below) of.func of.frame of.local (set (get_or held.locals of.local []) cell (value_of value))) (memory_of parts.old) }
{
    advance(&mut parts.top);
    if parts.top.number == of.frame && parts.top.func == of.func {
        parts
            .top
            .locals
            .put(usize::from(of.local), cell as usize, value);
    } else {
        parts
            .below
            .put_cell(of.func, of.frame, of.local, cell, value);
    }
}

/// A store into the cell of a type at an offset of a local.
pub fn store_local(
    program: &Program,
    parts: &mut Parts,
    of: Local,
    at: u32,
    ty: Option<&Ty>,
    value: Value,
) -> SourceStep
    requires ordered { HasOrderedFrames (running_of parts.old) }
    requires next { HasNext parts.old.top.place }
    ensures { Answers (step.store_local (program_of program.now) (frame_of parts.old.top) (map frame_of parts.old.below) (memory_of parts.old) of.func of.frame of.local at (pointee_of ty.entry) (value_of value) (step.frame_in (frame_of parts.old.top ∷ map frame_of parts.old.below) of.func of.frame)) result parts.new }
{
    let Some(_frame) = holder(parts, of) else {
        return SourceStep::Ended(SourceEnd::Fault(FaultKind::Dead));
    };
    let Some(cell) = local_cell(program, of, at, ty) else {
        return SourceStep::Ended(SourceEnd::Fault(FaultKind::NoCell));
    };
    write_local(parts, of, cell, value);
    SourceStep::Ran
}
