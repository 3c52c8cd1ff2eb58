//! What is asked for an object that a pointer has.

ghost use Rattle.std.specs.Prelude.{◌≡◌, get_or, map};
ghost use Rattle.ir_model.specs.Types.{type_of, U32};
ghost use Rattle.ir_laws.specs.Sets as flows;
ghost use Rattle.ir_program.specs.Seen.{program_of};
ghost use Rattle.need_sets.specs.Rules.{callee_of, parameter_of, outcome_of};
ghost use Rattle.need_solving.specs.Searching.{asked};

use ir_model::types::Ty;
use ir_program::program::Routine;
use ir_types::callee::is_callee;
use need_sets::{Edge, Node, Numbering, System, Trigger, carries};

/// Whether values of a register are of objects.
fn register_carries(routine: &Routine, register: usize) -> bool
    ensures { result ≡ flows.carries (get_or (map (λ t. type_of t.now) routine.now.registers) register U32) }
{
    match routine.registers.as_slice().get(register) {
        Some(ty) => carries(*ty),
        None => false,
    }
}

/// The function that an object is, by their numbers.
fn function_of(numbering: &Numbering, object: u32) -> Option<u32>
    ensures { result ≡ callee_of numbering.now object }
{
    let first = numbering.first_func();
    if first <= object {
        Some(object - first)
    } else {
        None
    }
}

/// The node of a parameter, where a function is of a type and the parameter's values are of objects.
fn parameter(system: &System, ty: &Ty, func: u32, place: u32) -> Option<u32>
    ensures { result ≡ parameter_of (program_of system.now.program.now) system.now.numbering (type_of ty.now) func place }
{
    if (func as usize) < system.program.funcs.len() {
        let routine = &system.program.funcs.as_slice()[func as usize];
        if is_callee(routine.source, ty) && register_carries(routine, place as usize) {
            return system.numbering.node(&Node::Reg { func, reg: place });
        }
    }
    None
}

/// The node of what a function gives, where it is of a type.
fn outcome(system: &System, ty: &Ty, func: u32) -> Option<u32>
    ensures { result ≡ outcome_of (program_of system.now.program.now) system.now.numbering (type_of ty.now) func }
{
    if (func as usize) < system.program.funcs.len() {
        let routine = &system.program.funcs.as_slice()[func as usize];
        if is_callee(routine.source, ty) {
            return system.numbering.node(&Node::Result(func));
        }
    }
    None
}

/// What a trigger asks for an object that came to its node; `None` if it asks nothing.
pub(crate) fn asked_edge(system: &System, trigger: &Trigger, object: u32) -> Option<Edge>
    ensures { result ≡ asked system.now trigger.now object }
{
    match trigger {
        Trigger::Load { to } => {
            let from = system.numbering.content(object)?;
            Some(Edge { from, to: *to })
        }
        Trigger::Store { from } => {
            let to = system.numbering.content(object)?;
            Some(Edge { from: *from, to })
        }
        Trigger::Argument { ty, from, place } => {
            let callee = function_of(&system.numbering, object)?;
            let to = parameter(system, *ty, callee, *place)?;
            Some(Edge { from: *from, to })
        }
        Trigger::Outcome { ty, to } => {
            let callee = function_of(&system.numbering, object)?;
            let from = outcome(system, *ty, callee)?;
            Some(Edge { from, to: *to })
        }
    }
}
