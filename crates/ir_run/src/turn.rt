//! One instruction or block end.

ghost use Rattle.std.specs.Prelude.{◌≡◌, ◌-◌, ◌<◌, ◌^◌, map, IfOk, OnErr};
ghost use Rattle.ir_laws.specs.Laws.{HasOrderedFrames};
ghost use Rattle.ir_model.specs.Resolved.{global_at};
ghost use Rattle.ir_model.specs.Step as step;
ghost use Rattle.ir_program.specs.Values.{value_of, instance_of};
ghost use Rattle.ir_program.specs.Storages.{pointee_of};
ghost use Rattle.ir_program.specs.Seen.{program_of};
ghost use Rattle.ir_run.specs.Acts.{frame_of, act_of, IsEntry, IsCall};
ghost use Rattle.ir_run.specs.Elements.{HasSmallElements};
ghost use Rattle.ir_run.specs.Places.{HasNext};
ghost use Rattle.ir_run.specs.States.{running_of, memory_of, Answers};

use crate::accesses::{global_cell, keep, load_global, store_global};
use crate::act::act;
use crate::calls::{enter, leave};
use crate::local::Local;
use crate::locals::{load_local, store_local};
use crate::outcome::{FaultKind, SourceEnd, SourceStep};
use crate::parts::Parts;
use crate::place::Here;
use crate::places::here;
use crate::ports::{in_window, load_port, store_port};
use crate::request::Act;
use crate::typed_cells::cut_value;
use ir_model::types::Ty;
use ir_program::program::Program;
use ir_program::value::{Address, Instance, Value};
use std::alloc::{AllocError, Global};

/// Whether a global is never written.
pub fn is_constant(program: &Program, global: u32) -> bool
    ensures { result ≡ (global_at (program_of program.now) global).constant }
{
    let globals = program.globals.as_slice();
    let number = global as usize;
    number < globals.len() && globals[number].constant
}

/// A load from an object.
pub fn load(
    program: &Program,
    compartments: &[u32],
    parts: &mut Parts,
    to: usize,
    from: Address,
    ty: Option<&Ty>,
) -> SourceStep
    requires ordered { HasOrderedFrames (running_of parts.old) }
    requires next { HasNext parts.old.top.place }
    ensures { Answers (step.load (program_of program.now) compartments.now (frame_of parts.old.top) (map frame_of parts.old.below) (memory_of parts.old) to (instance_of from.instance) from.offset (pointee_of ty.entry)) result parts.new }
{
    let at = from.offset;
    match from.instance {
        Instance::Global(global) => {
            let cell = global_cell(program, global, at, ty);
            load_global(parts, to, global, cell)
        }
        Instance::Local { local, func, frame } => {
            let of = Local { func, frame, local };
            load_local(program, parts, to, of, at, ty)
        }
        Instance::Periph(periph) => {
            if in_window(program, periph, at, ty) {
                load_port(parts, compartments, to, periph, at, ty)
            } else {
                SourceStep::Ended(SourceEnd::Fault(FaultKind::NoCell))
            }
        }
    }
}

/// A store into an object of a value that is cut to the width of the cell.
pub fn store(
    program: &Program,
    compartments: &[u32],
    parts: &mut Parts,
    to: Address,
    ty: Option<&Ty>,
    value: Value,
) -> SourceStep
    requires ordered { HasOrderedFrames (running_of parts.old) }
    requires next { HasNext parts.old.top.place }
    ensures { Answers (step.store (program_of program.now) compartments.now (frame_of parts.old.top) (map frame_of parts.old.below) (memory_of parts.old) (instance_of to.instance) to.offset (pointee_of ty.entry) (value_of value)) result parts.new }
{
    let at = to.offset;
    match to.instance {
        Instance::Global(global) => {
            let cell = global_cell(program, global, at, ty);
            store_global(parts, global, is_constant(program, global), value, cell)
        }
        Instance::Local { local, func, frame } => {
            let of = Local { func, frame, local };
            store_local(program, parts, of, at, ty, value)
        }
        Instance::Periph(periph) => {
            if in_window(program, periph, at, ty) {
                store_port(parts, compartments, periph, at, ty, value)
            } else {
                SourceStep::Ended(SourceEnd::Fault(FaultKind::NoCell))
            }
        }
    }
}

/// Does what an instruction asks for.
///
/// # Errors
///
/// It enters a function, and there is no memory for its frame; the state is as before.
#[tactic(auto, unfolding(ir_model::specs::Step::perform))]
pub fn perform(
    alloc: Global,
    program: &Program,
    compartments: &[u32],
    parts: &mut Parts,
    asked: Act,
) -> Result<SourceStep, AllocError>
    requires ordered { HasOrderedFrames (running_of parts.old) }
    requires next { HasNext parts.old.top.place }
    requires few { parts.old.newest < 2 ^ 64 - 1 }
    ensures ok { IfOk result (λ a. Answers (step.perform (program_of program.now) compartments.now (frame_of parts.old.top) (map frame_of parts.old.below) (memory_of parts.old) (act_of asked.entry)) a parts.new) }
    ensures memory { OnErr result (IsEntry (act_of asked.entry)) }
    ensures err { OnErr result (running_of parts.new ≡ running_of parts.old) }
{
    match asked {
        Act::Sets { to, value } => {
            keep(parts, to, value);
            Ok(SourceStep::Ran)
        }
        Act::Fails(fault) => Ok(SourceStep::Ended(SourceEnd::Fault(fault))),
        Act::Loads { to, from, ty } => Ok(load(program, compartments, parts, to, from, ty)),
        Act::Stores { to, ty, value } => {
            let cut = cut_value(ty, value);
            Ok(store(program, compartments, parts, to, ty, cut))
        }
        Act::Enters { func, args } => {
            enter(alloc, program, parts, func, args.as_slice())?;
            Ok(SourceStep::Ran)
        }
    }
}

/// One instruction or block end of the running frame.
///
/// # Errors
///
/// It enters a function, and there is no memory for that; the state is as before.
#[tactic(auto, unfolding(ir_model::specs::Step::source_turn))]
pub fn turn(
    alloc: Global,
    program: &Program,
    compartments: &[u32],
    parts: &mut Parts,
) -> Result<SourceStep, AllocError>
    requires ordered { HasOrderedFrames (running_of parts.old) }
    requires small { HasSmallElements (program_of program.now) (running_of parts.old) }
    requires few { parts.old.newest < 2 ^ 64 - 1 }
    ensures ok { IfOk result (λ a. Answers (step.source_turn (program_of program.now) compartments.now (running_of parts.old)) a parts.new) }
    ensures memory { OnErr result (IsCall (step.source_turn (program_of program.now) compartments.now (running_of parts.old))) }
    ensures err { OnErr result (running_of parts.new ≡ running_of parts.old) }
{
    match here(program, parts.top.func, parts.top.block, parts.top.place) {
        Here::Does(operation) => {
            let asked = act(alloc, &program.layouts, &parts.top, operation)?;
            perform(alloc, program, compartments, parts, asked)
        }
        Here::Ends(exit) => Ok(leave(program, parts, exit)),
    }
}
