//! Accesses of peripherals.

ghost use Rattle.std.specs.Prelude.{◌≡◌, [], map, true};
ghost use Rattle.std.proofs.Math.ListN.{get_or};
ghost use Rattle.ir_model.specs.Step as step;
ghost use Rattle.ir_program.specs.Values.{value_of};
ghost use Rattle.ir_program.specs.Storages.{pointee_of};
ghost use Rattle.ir_program.specs.Seen.{program_of};
ghost use Rattle.ir_run.specs.Acts.{frame_of};
ghost use Rattle.ir_run.specs.Places.{HasNext};
ghost use Rattle.ir_run.specs.States.{memory_of, Answers};

use crate::arithmetic::number_in;
use crate::outcome::{SourceEnd, SourceStep};
use crate::parts::Parts;
use crate::registers::{advance, write_register};
use crate::typed_cells::{cut_number, has_port, width_of};
use base_events::event::Event;
use ir_model::types::Ty;
use ir_program::program::Program;
use ir_program::value::Value;

// The compartment of the running function; 0 where it has none.
fn running_compartment(parts: &Parts, compartments: &[u32]) -> u32
    ensures { result ≡ get_or compartments.now (frame_of parts.now.top).func 0 }
{
    let number = usize::from(parts.top.func);
    if number < compartments.len() {
        compartments[number]
    } else {
        0
    }
}

/// Whether a peripheral has a cell of the type at an offset: inside its window, and at a multiple of its size.
pub fn in_window(program: &Program, periph: u32, at: u32, ty: Option<&Ty>) -> bool
    ensures { result ≡ step.has_port (program_of program.now) periph at (pointee_of ty.entry) }
{
    let windows = program.periphs.as_slice();
    let number = periph as usize;
    let size = if number < windows.len() {
        windows[number].size
    } else {
        0
    };
    has_port(size, at, ty)
}

/// A store to a cell of a peripheral.
pub fn store_port(
    parts: &mut Parts,
    compartments: &[u32],
    periph: u32,
    at: u32,
    ty: Option<&Ty>,
    value: Value,
) -> SourceStep
    requires { HasNext parts.old.top.place }
    ensures { Answers (step.store_port compartments.now (frame_of parts.old.top) (map frame_of parts.old.below) (memory_of parts.old) periph at (pointee_of ty.entry) (value_of value) true) result parts.new }
{
    let compartment = running_compartment(parts, compartments);
    advance(&mut parts.top);
    SourceStep::Event(Event {
        compartment,
        periph,
        offset: at,
        width: width_of(ty),
        write: true,
        value: number_in(value),
    })
}

/// A load from a cell of a peripheral.
#[tactic(auto, using(crate::proofs::Writing::first_of))]
pub fn load_port(
    parts: &mut Parts,
    compartments: &[u32],
    to: usize,
    periph: u32,
    at: u32,
    ty: Option<&Ty>,
) -> SourceStep
    requires { HasNext parts.old.top.place }
    ensures { Answers (step.take_input compartments.now (frame_of parts.old.top) (map frame_of parts.old.below) (memory_of parts.old) to periph at (pointee_of ty.entry) (get_or parts.old.tape periph [])) result parts.new }
{
    if periph as usize >= parts.tape.queue_count() {
        return SourceStep::Ended(SourceEnd::InputEnd);
    }
    let compartment = running_compartment(parts, compartments);
    advance(&mut parts.top);
    let Some(word) = parts.tape.take(periph) else {
        return SourceStep::Ended(SourceEnd::InputEnd);
    };
    let value = cut_number(ty, word);
    write_register(&mut parts.top, to, Value::Number(value));
    SourceStep::Event(Event {
        compartment,
        periph,
        offset: at,
        width: width_of(ty),
        write: false,
        value,
    })
}
