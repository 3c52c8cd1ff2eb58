//! What an instruction asks for.

ghost use Rattle.std.specs.Prelude.{◌≡◌, map, IfOk, OnErr};
ghost use Rattle.ir_model.specs.Plain.{struct_of};
ghost use Rattle.ir_model.specs.Layout.{known, shape};
ghost use Rattle.ir_model.specs.Step as step;
ghost use Rattle.ir_model.specs.Resolved as plain;
ghost use Rattle.ir_program.specs.Values.{value_of};
ghost use Rattle.ir_program.specs.Storages.{pointee_of};
ghost use Rattle.ir_program.specs.Parts.{operation_of, target_of};
ghost use Rattle.ir_run.specs.Acts.{frame_of, act_of, IsEntry};
ghost use Rattle.ir_run.specs.Elements.{HasSmallElement};

use crate::arithmetic::{binary, bit, comparison_holds, number_in};
use crate::frame::Frame;
use crate::outcome::FaultKind;
use crate::request::Act;
use crate::sizes::element_size;
use base_lists::ListVec;
use base_words::operations;
use ir_layouts::table::Layouts;
use ir_model::types::Ty;
use ir_program::program::{Operation, Target};
use ir_program::value::{Address, Instance, Value};
use std::alloc::{AllocError, Global};

fn address_of(frame: &Frame, of: Target) -> Value
    ensures { value_of result ≡ step.address_of (frame_of frame.now) (target_of of) }
{
    let instance = match of {
        Target::Global(global) => Instance::Global(global),
        Target::Periph(periph) => Instance::Periph(periph),
        Target::Local(local) => Instance::Local {
            local,
            func: frame.func,
            frame: frame.number,
        },
    };
    Value::at(instance, 0)
}

fn arguments(
    alloc: Global,
    frame: &Frame,
    registers: &[usize],
) -> Result<ListVec<Value>, AllocError>
    ensures { IfOk result (λ vs. map value_of vs ≡ map (step.register (frame_of frame.now)) registers.now) }
{
    let mut values = Vec::new(alloc);
    for i in 0..registers.len() {
        values.push(frame.regs.at(registers[i]))?;
    }
    Ok(ListVec::new(values))
}

// What a register holds.
fn register(frame: &Frame, number: usize) -> Value
    ensures { value_of result ≡ step.register (frame_of frame.now) number }
{
    frame.regs.at(number)
}

#[tactic(auto, unfolding(ir_model::specs::Step::act))]
fn element_at<'a>(
    layouts: &Layouts,
    frame: &Frame,
    to: usize,
    base: usize,
    index: usize,
    element: Option<&Ty>,
) -> Act<'a>
    requires { HasSmallElement (frame_of frame.now) (plain.Elem to base index (shape (known (map struct_of layouts.now)) (pointee_of element)).size) }
    ensures { act_of result ≡ step.act (frame_of frame.now) (plain.Elem to base index (shape (known (map struct_of layouts.now)) (pointee_of element.entry)).size) }
{
    match register(frame, base).address() {
        Some(Address { instance, offset }) => {
            let size = element_size(layouts, element);
            let behind = operations::multiply(number_in(register(frame, index)), size);
            Act::Sets {
                to,
                value: Value::at(instance, operations::add(offset, behind)),
            }
        }
        None => Act::Fails(FaultKind::Null),
    }
}

#[tactic(auto, unfolding(ir_model::specs::Step::act))]
fn field<'a>(frame: &Frame, to: usize, base: usize, by: u32) -> Act<'a>
    ensures { act_of result ≡ step.act (frame_of frame.now) (plain.Field to base by) }
{
    match register(frame, base).address() {
        Some(Address { instance, offset }) => Act::Sets {
            to,
            value: Value::at(instance, operations::add(offset, by)),
        },
        None => Act::Fails(FaultKind::Null),
    }
}

#[tactic(auto, unfolding(ir_model::specs::Step::act))]
fn load<'a>(frame: &Frame, to: usize, from: usize, ty: Option<&'a Ty>) -> Act<'a>
    ensures { act_of result ≡ step.act (frame_of frame.now) (plain.Load to from (pointee_of ty.entry)) }
{
    match register(frame, from).address() {
        Some(from) => Act::Loads { to, from, ty },
        None => Act::Fails(FaultKind::Null),
    }
}

#[tactic(auto, unfolding(ir_model::specs::Step::act))]
fn store<'a>(frame: &Frame, to: usize, from: usize, ty: Option<&'a Ty>) -> Act<'a>
    ensures { act_of result ≡ step.act (frame_of frame.now) (plain.Store to from (pointee_of ty.entry)) }
{
    match register(frame, to).address() {
        Some(to) => Act::Stores {
            to,
            ty,
            value: register(frame, from),
        },
        None => Act::Fails(FaultKind::Null),
    }
}

#[tactic(auto, unfolding(ir_model::specs::Step::act))]
fn indirect<'a>(
    alloc: Global,
    frame: &Frame,
    callee: usize,
    args: &[usize],
) -> Result<Act<'a>, AllocError>
    ensures ok { IfOk result (λ a. act_of a ≡ step.with_code (step.register (frame_of frame.now) callee) (λ g. step.Enters g (map (step.register (frame_of frame.now)) args.now))) }
    ensures memory { OnErr result (IsEntry (step.with_code (step.register (frame_of frame.now) callee) (λ g. step.Enters g (map (step.register (frame_of frame.now)) args.now)))) }
{
    match register(frame, callee) {
        Value::Code(func) => Ok(Act::Enters {
            func,
            args: arguments(alloc, frame, args)?,
        }),
        Value::Number(_)
        | Value::Null
        | Value::AtGlobal { .. }
        | Value::AtPeriph { .. }
        | Value::AtLocal { .. } => Ok(Act::Fails(FaultKind::Null)),
    }
}

fn sets<'a>(to: usize, value: Value) -> Act<'a>
    ensures { act_of result ≡ step.Sets to (value_of value) }
{
    Act::Sets { to, value }
}

/// What an instruction of the running function asks for.
///
/// # Errors
///
/// It enters a function, and there is no memory for the arguments.
#[tactic(auto, unfolding(ir_model::specs::Step::act))]
pub fn act<'a>(
    alloc: Global,
    layouts: &Layouts<'a>,
    frame: &Frame,
    operation: &Operation<'a>,
) -> Result<Act<'a>, AllocError>
    requires { HasSmallElement (frame_of frame.now) (operation_of (known (map struct_of layouts.now)) operation.now) }
    ensures ok { IfOk result (λ a. act_of a ≡ step.act (frame_of frame.now) (operation_of (known (map struct_of layouts.now)) operation.now)) }
    ensures memory { OnErr result (IsEntry (step.act (frame_of frame.now) (operation_of (known (map struct_of layouts.now)) operation.now))) }
{
    match operation {
        Operation::Const { to, value } => Ok(sets(*to, Value::Number(*value))),
        Operation::Move { to, from } => Ok(sets(*to, register(frame, *from))),
        Operation::Bin { op, to, a, b } => {
            let made = binary(
                *op,
                number_in(register(frame, *a)),
                number_in(register(frame, *b)),
            );
            Ok(sets(*to, Value::Number(made)))
        }
        Operation::Cmp { op, to, a, b } => {
            let holds = comparison_holds(
                *op,
                number_in(register(frame, *a)),
                number_in(register(frame, *b)),
            );
            Ok(sets(*to, Value::Number(bit(holds))))
        }
        Operation::Addr { to, of } => Ok(sets(*to, address_of(frame, *of))),
        Operation::FAddr { to, func } => Ok(sets(*to, Value::Code(*func))),
        Operation::Elem {
            to,
            base,
            index,
            element,
        } => Ok(element_at(layouts, frame, *to, *base, *index, *element)),
        Operation::Field { to, base, offset } => Ok(field(frame, *to, *base, *offset)),
        Operation::Load { to, from, ty } => Ok(load(frame, *to, *from, *ty)),
        Operation::Store { to, from, ty } => Ok(store(frame, *to, *from, *ty)),
        Operation::Call { to: _, func, args } => Ok(Act::Enters {
            func: *func,
            args: arguments(alloc, frame, args.as_slice())?,
        }),
        Operation::ICall { to: _, func, args } => indirect(alloc, frame, *func, args.as_slice()),
    }
}
