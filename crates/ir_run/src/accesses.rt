//! Accesses of globals.

ghost use Rattle.std.specs.Prelude.{◌≡◌, ◌∷◌, [], map};
ghost use Rattle.std.proofs.Math.ListN.{get_or, set};
ghost use Rattle.ir_model.specs.Layout.{cell_at};
ghost use Rattle.ir_model.specs.Resolved.{cells_of_global};
ghost use Rattle.ir_model.specs.State as state;
ghost use Rattle.ir_model.specs.Step as step;
ghost use Rattle.ir_program.specs.Values.{value_of};
ghost use Rattle.ir_program.specs.Storages.{pointee_of};
ghost use Rattle.ir_program.specs.Seen.{program_of};
ghost use Rattle.ir_run.specs.Acts.{frame_of};
ghost use Rattle.ir_run.specs.Places.{HasNext};
ghost use Rattle.ir_run.specs.States.{running_of, memory_of, Answers};

use crate::outcome::{FaultKind, SourceEnd, SourceStep};
use crate::parts::Parts;
use crate::registers::{advance, write_register};
use crate::typed_cells::cell_number;
use ir_model::types::Ty;
use ir_program::program::Program;
use ir_program::value::Value;

/// Writes a register of the running frame, and goes on.
pub fn keep(parts: &mut Parts, to: usize, value: Value)
    requires { HasNext parts.old.top.place }
    ensures { running_of parts.new ≡ state.Running (step.onward (step.with_register (frame_of parts.old.top) to (value_of value)) ∷ map frame_of parts.old.below) (memory_of parts.old) }
{
    advance(&mut parts.top);
    write_register(&mut parts.top, to, value);
}

/// The number of the cell of a type at an offset of a global.
#[tactic(auto, unfolding(ir_model::specs::Layout::cell_at))]
pub fn global_cell(program: &Program, global: u32, at: u32, ty: Option<&Ty>) -> Option<u32>
    ensures { result ≡ cell_at (cells_of_global (program_of program.now) global) at (pointee_of ty.entry) }
{
    let globals = program.globals.as_slice();
    let number = global as usize;
    if number >= globals.len() {
        return None;
    }
    cell_number(&program.layouts, globals[number].storage.ty, at, ty)
}

/// A load of a cell of a global.
#[tactic(auto, using(crate::proofs::Writing::seen_cell))]
pub fn load_global(parts: &mut Parts, to: usize, global: u32, cell: Option<u32>) -> SourceStep
    requires { HasNext parts.old.top.place }
    ensures { Answers (step.load_cell (frame_of parts.old.top) (map frame_of parts.old.below) (memory_of parts.old) to (state.GlobalObject global) (get_or (memory_of parts.old).globals global []) cell) result parts.new }
{
    match cell {
        None => SourceStep::Ended(SourceEnd::Fault(FaultKind::NoCell)),
        Some(cell) => {
            let value = parts.globals.at(global as usize, cell as usize);
            keep(parts, to, value);
            SourceStep::Ran
        }
    }
}

/// Writes a cell of a global, and goes on.
#[tactic(auto, using(crate::proofs::Writing::written_global))]
pub fn write_global(parts: &mut Parts, global: u32, cell: u32, value: Value)
    requires { HasNext parts.old.top.place }
    ensures { running_of parts.new ≡ state.Running (step.onward (frame_of parts.old.top) ∷ map frame_of parts.old.below) (record (memory_of parts.old) { globals = set (memory_of parts.old).globals global (set (get_or (memory_of parts.old).globals global []) cell (value_of value)) }) }
{
    advance(&mut parts.top);
    parts.globals.put(global as usize, cell as usize, value);
}

/// A store into a cell of a global.
pub fn store_global(
    parts: &mut Parts,
    global: u32,
    constant: bool,
    value: Value,
    cell: Option<u32>,
) -> SourceStep
    requires { HasNext parts.old.top.place }
    ensures { Answers (step.store_global (frame_of parts.old.top) (map frame_of parts.old.below) (memory_of parts.old) global constant (value_of value) cell) result parts.new }
{
    match (cell, constant) {
        (None, _) => SourceStep::Ended(SourceEnd::Fault(FaultKind::NoCell)),
        (Some(_), true) => SourceStep::Ended(SourceEnd::Fault(FaultKind::Constant)),
        (Some(cell), false) => {
            write_global(parts, global, cell, value);
            SourceStep::Ran
        }
    }
}
