//! Calls, returns and block ends.

ghost use Rattle.std.specs.Prelude.{◌≡◌, ◌∷◌, ◌-◌, ◌<◌, ◌^◌, suc, map, OnOk, OnErr};
ghost use Rattle.ir_model.specs.Resolved as plain;
ghost use Rattle.ir_model.specs.State as state;
ghost use Rattle.ir_model.specs.Step as step;
ghost use Rattle.ir_program.specs.Values.{value_of};
ghost use Rattle.ir_program.specs.Parts.{exit_of};
ghost use Rattle.ir_program.specs.Seen.{program_of};
ghost use Rattle.ir_run.specs.Acts.{frame_of};
ghost use Rattle.ir_run.specs.Places.{HasNext};
ghost use Rattle.ir_run.specs.States.{running_of, memory_of, Answers};

use crate::entering::new_frame;
use crate::frame::Frame;
use crate::outcome::{SourceEnd, SourceStep};
use crate::parts::Parts;
use crate::places::result_register;
use crate::registers::{branch_target, jump, write_register};
use ir_program::program::{Exit, Program};
use ir_program::value::Value;
use std::alloc::{AllocError, Global};
use std::mem::replace;

/// Enters a function with these arguments.
///
/// # Errors
///
/// There is no memory for its frame; the state is as before.
pub fn enter(
    alloc: Global,
    program: &Program,
    parts: &mut Parts,
    func: u16,
    args: &[Value],
) -> Result<(), AllocError>
    requires next { HasNext parts.old.top.place }
    requires few { parts.old.newest < 2 ^ 64 - 1 }
    ensures ok { OnOk result (running_of parts.new ≡ state.Running (state.frame_of (program_of program.now) func (memory_of parts.old).made (map value_of args.now) ∷ frame_of parts.old.top ∷ map frame_of parts.old.below) (record (memory_of parts.old) { made = suc (memory_of parts.old).made })) }
    ensures err { OnErr result (running_of parts.new ≡ running_of parts.old) }
{
    let number = parts.newest + 1;
    let frame = new_frame(alloc, program, func, number, args)?;
    let caller = replace(&mut parts.top, frame);
    match parts.below.put(caller) {
        None => {
            parts.newest = number;
            Ok(())
        }
        Some(back) => {
            parts.top = back;
            Err(AllocError)
        }
    }
}

/// Goes to the begin of a block.
pub fn go(parts: &mut Parts, block: usize)
    ensures { running_of parts.new ≡ state.Running (step.jumped (frame_of parts.old.top) block ∷ map frame_of parts.old.below) (memory_of parts.old) }
{
    jump(&mut parts.top, block);
}

/// Goes to one of two blocks: to the second where the register is 0.
#[tactic(auto, unfolding(ir_model::specs::Step::leave))]
pub fn branch(program: &Program, parts: &mut Parts, on: usize, yes: usize, no: usize) -> SourceStep
    ensures { Answers (step.leave (program_of program.now) (frame_of parts.old.top) (map frame_of parts.old.below) (memory_of parts.old) (plain.Branch on yes no)) result parts.new }
{
    let _program = program;
    let block = branch_target(&parts.top, on, yes, no);
    go(parts, block);
    SourceStep::Ran
}

// Writes what a function returned into the register that the call of it names, if it names one.
fn keep_result(program: &Program, frame: &mut Frame, value: Value)
    ensures { frame_of frame.new ≡ step.answered (frame_of frame.old) (step.result_register (plain.here (program_of program.now) frame.old.func frame.old.block frame.old.place)) (value_of value) }
{
    if let Some(to) = result_register(program, frame) {
        write_register(frame, to, value);
    }
}

/// Goes back to the caller with a value; the first frame has none, and the run ends.
pub fn go_back(program: &Program, parts: &mut Parts, value: Value) -> SourceStep
    ensures { Answers (step.back_to (program_of program.now) (value_of value) (map frame_of parts.old.below) (memory_of parts.old)) result parts.new }
{
    let Some(mut caller) = parts.below.pop() else {
        return SourceStep::Ended(SourceEnd::Returned);
    };
    let place = caller.place + 1;
    keep_result(program, &mut caller, value);
    caller.place = place;
    parts.top = caller;
    SourceStep::Ran
}

// What a function returns: what the register holds, or 0 where it has no result.
fn returned(frame: &Frame, register: Option<usize>) -> Value
    ensures { value_of result ≡ step.returned_value (frame_of frame.now) register }
{
    match register {
        Some(register) => frame.regs.at(register),
        None => Value::Number(0),
    }
}

/// Leaves a block.
#[tactic(auto, unfolding(ir_model::specs::Step::leave))]
pub fn leave(program: &Program, parts: &mut Parts, exit: Exit) -> SourceStep
    ensures { Answers (step.leave (program_of program.now) (frame_of parts.old.top) (map frame_of parts.old.below) (memory_of parts.old) (exit_of exit)) result parts.new }
{
    match exit {
        Exit::Jump(block) => {
            go(parts, block);
            SourceStep::Ran
        }
        Exit::Branch { on, yes, no } => branch(program, parts, on, yes, no),
        Exit::Ret(register) => {
            let value = returned(&parts.top, register);
            go_back(program, parts, value)
        }
    }
}
